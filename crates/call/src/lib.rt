// The calls: any call on whatever is lent, and a call on a state that is known to be valid.
#![tactic(auto)]

pub(crate) mod dispatch;
pub mod step;

ghost use Rattle.act.specs.Held.{areas};
ghost use Rattle.call.specs.Calls.{Answers, NotValid};

use model::call::{Answer, Call};
use model::code::E_SYS;
use model::sizes::LOG_BYTES;
use queue::next::next_to_run;
use script::log::{log_answer, log_runs};
use step::valid_step;
use valid::is_valid;

// What a call leaves beside the areas: its answer, and how many bytes of log it has written.
#[derive(Clone, Copy)]
pub struct Called {
    pub answer: Answer,
    pub written: usize,
}

// Order 1: "state not sound, or an area not exactly 1,024 or 512 bytes": the areas stay as they came, but for the log.
fn not_valid(log: &mut [u8]) -> Called
    ensures { NotValid log.old log.new result }
{
    let answer = Answer::Code(E_SYS);
    let at = log_answer(log, 0, answer);
    Called {
        answer: answer,
        written: log_runs(log, at, None),
    }
}

// Any call, on any areas of any lengths, with any message bytes. Nothing is asked.
pub fn call(
    state: &mut [u32],
    store: &mut [u8],
    outbox: &mut [u8],
    log: &mut [u8],
    call: Call,
    message: &[u8],
) -> Called
    ensures { Answers (areas state.old store.old outbox.old log.old) call message.now (areas state.new store.new outbox.new log.new) result }
{
    if log.len() != LOG_BYTES {
        return Called {
            answer: Answer::Code(E_SYS),
            written: 0,
        };
    }
    if !is_valid(state, store, outbox) {
        return not_valid(log);
    }
    // a valid state has as many words as a state has
    let Some(words) = state.as_mut_array() else {
        return not_valid(log);
    };
    let runs = next_to_run(words);
    let step = valid_step(words, store, outbox, log, runs, call, message);
    let answer = step.answer;
    Called {
        answer: answer,
        written: step.written,
    }
}
