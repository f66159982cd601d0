// A script, record by record: the record at a place is read, called and logged. No whole log need be held.
#![tactic(auto)]

pub mod turn;

ghost use Rattle.std.specs.Prelude.{◌≡◌};
ghost use Rattle.act.specs.Held.{areas};
ghost use Rattle.run.specs.Runs.{Runs, is_over};

use call::call;
use model::call::{Cursor, Progress};
use model::sizes::{LOG_BYTES, SCRIPT_BYTES};
use script::log::{log_stop, log_too_long};
use script::reader::{message, read_record};

// What comes of a script at a place, beside the areas: how it goes on, and how many bytes of log were written.
#[derive(Clone, Copy)]
pub struct Ran {
    pub progress: Progress,
    pub written: usize,
}

// The script is over.
fn over(written: usize) -> Ran
    ensures { result ≡ is_over written }
{
    Ran {
        progress: Progress::Over,
        written: written,
    }
}

// The record at a place, on whatever is lent. Nothing is asked.
pub fn run_record(
    state: &mut [u32],
    store: &mut [u8],
    outbox: &mut [u8],
    log: &mut [u8],
    script: &[u8],
    at: Cursor,
) -> Ran
    ensures { Runs (areas state.old store.old outbox.old log.old) script.now at.at (areas state.new store.new outbox.new log.new) result }
{
    if log.len() != LOG_BYTES {
        return Ran {
            progress: Progress::NoArea,
            written: 0,
        };
    }
    if SCRIPT_BYTES < script.len() {
        return over(log_too_long(log, 0));
    }
    if script.len() <= at.at {
        return over(0);
    }
    let Ok(record) = read_record(script, at) else {
        return over(log_stop(log, 0, at.at));
    };
    let called = call(state, store, outbox, log, record.call, message(script, at));
    let answer = called.answer;
    Ran {
        progress: Progress::Answered {
            answer: answer,
            next: record.next,
        },
        written: called.written,
    }
}
