// How a program goes on that runs a script record by record and writes of each one what it has to.
ghost use Rattle.std.specs.Prelude.{◌≡◌};
ghost use Rattle.run.specs.Turns.{turn_if};

use model::call::{Cursor, Progress};
use model::sizes::SCRIPT_BYTES;

// A byte more than a script may have: with it one sees that the script is too long, and the rest of the input is not read. A script has fewer records, too.
pub const INPUT_BYTES: usize = SCRIPT_BYTES + 1;

// Something could not be written, so the program does not go on.
#[derive(Clone, Copy)]
pub struct Unwritten;

// After a record, by whether all of it was written: at the next record, or not at all, since the script is over.
pub fn turn_of(progress: Progress, written: bool) -> Result<Option<Cursor>, Unwritten>
    ensures { result ≡ turn_if written progress }
{
    if !written {
        return Err(Unwritten);
    }
    match progress {
        Progress::Answered { answer: _, next } => Ok(Some(next)),
        Progress::Over => Ok(None),
        Progress::NoArea => Ok(None),
    }
}
