// A call on a valid state: it is refused, or carried out, the send queues are drained, and the next task to run is found.
ghost use Rattle.std.specs.Prelude.{◌≡◌};
ghost use Rattle.std.proofs.Math.Option.{none};
ghost use Rattle.model.specs.Refusal.{first_refusal, refusals};
ghost use Rattle.model.specs.Words.{kernel};
ghost use Rattle.act.specs.Held.{areas};
ghost use Rattle.call.specs.Steps.{Ready, Steps};

use super::dispatch::{carry_out, refuse};
use model::call::{Answer, Call};
use model::number::TaskNumber;
use queue::next::next_to_run;
use reply::Reply;
use script::log::{log_answer, log_runs};
use state::layout::Words;
use transfer::drain::drain;

// What such a call leaves: its answer, how many bytes of log it has written, and the task that runs next.
#[derive(Clone, Copy)]
pub struct Step {
    pub answer: Answer,
    pub written: usize,
    pub runs: Option<TaskNumber>,
}

// The call is carried out.
fn carried(
    state: &mut Words,
    store: &mut [u8],
    outbox: &mut [u8],
    log: &mut [u8],
    caller: Option<TaskNumber>,
    call: Call,
    message: &[u8],
) -> Step
    requires ready { Ready (areas state.old store.old outbox.old log.old) caller }
    requires message_value { first_refusal (refusals (kernel state.old) call message.now) ≡ none }
    ensures { Steps (areas state.old store.old outbox.old log.old) call message.now (areas state.new store.new outbox.new log.new) result }
{
    let Reply { answer, next } = carry_out(state, store, outbox, log, caller, call, message);
    let end = drain(state, store, outbox, log, next);
    let runs = next_to_run(state);
    Step {
        answer: answer,
        written: log_runs(log, end, runs),
        runs: runs,
    }
}

// The task that runs is handed over and handed back, so that it need not be looked for at each call of many.
pub fn valid_step(
    state: &mut Words,
    store: &mut [u8],
    outbox: &mut [u8],
    log: &mut [u8],
    caller: Option<TaskNumber>,
    call: Call,
    message: &[u8],
) -> Step
    requires { Ready (areas state.old store.old outbox.old log.old) caller }
    ensures { Steps (areas state.old store.old outbox.old log.old) call message.now (areas state.new store.new outbox.new log.new) result }
{
    let found = refuse(state, caller, call, message);
    let Err(error) = found else {
        return carried(state, store, outbox, log, caller, call, message);
    };
    let answer = Answer::Code(error.code());
    let at = log_answer(log, 0, answer);
    Step {
        answer: answer,
        written: log_runs(log, at, caller),
        runs: caller,
    }
}
