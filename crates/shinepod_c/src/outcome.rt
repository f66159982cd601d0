// What a call and a record of a script come to, as numbers for C: specs/Outcome.antt has the number of each case.
ghost use Rattle.std.specs.Prelude.{◌≡◌};
ghost use Rattle.shinepod_c.specs.Outcome.{outcome_of, code_of, progress_outcome, progress_code, progress_next};

use model::call::{Answer, Progress};
use model::code::{E_OK, E_SYS};

// The caller was answered: there is a code.
pub const ANSWERED: u32 = 0;

// The caller waits.
pub const WAITS: u32 = 1;

// The caller has exited.
pub const EXITED: u32 = 2;

// No call has the kind.
pub const UNKNOWN_KIND: u32 = 3;

// The script is over.
pub const OVER: u32 = 4;

pub fn outcome_of(answer: Answer) -> u32
    ensures { result ≡ outcome_of answer }
{
    match answer {
        Answer::Code(c) => ANSWERED,
        Answer::Waits => WAITS,
        Answer::Exits => EXITED,
    }
}

pub fn code_of(answer: Answer) -> i32
    ensures { result ≡ code_of answer }
{
    match answer {
        Answer::Code(c) => c,
        Answer::Waits => E_OK,
        Answer::Exits => E_OK,
    }
}

pub fn progress_outcome(progress: Progress) -> u32
    ensures { result ≡ progress_outcome progress }
{
    match progress {
        Progress::Answered { answer, next } => outcome_of(answer),
        Progress::Over => OVER,
        Progress::NoArea => ANSWERED,
    }
}

pub fn progress_code(progress: Progress) -> i32
    ensures { result ≡ progress_code progress }
{
    match progress {
        Progress::Answered { answer, next } => code_of(answer),
        Progress::Over => E_OK,
        Progress::NoArea => E_SYS,
    }
}

// The place of the next record; the same place where none was read.
pub fn progress_next(progress: Progress, at: usize) -> usize
    ensures { result ≡ progress_next progress at }
{
    match progress {
        Progress::Answered { answer, next } => next.at,
        Progress::Over => at,
        Progress::NoArea => at,
    }
}
