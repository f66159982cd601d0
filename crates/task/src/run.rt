// sta_tsk, ext_tsk and ter_tsk.
ghost use Rattle.std.specs.Prelude.{◌≡◌};
ghost use Rattle.std.proofs.Math.Option.{none};
ghost use Rattle.model.specs.Code.{number};
ghost use Rattle.model.specs.World.{running};
ghost use Rattle.model.specs.Refusal.{first_refusal, dormant_refusals, ter_tsk_refusals};
ghost use Rattle.model.specs.Effect.{sta_tsk, ext_tsk, ter_tsk};
ghost use Rattle.model.specs.Errors.{refusal_of};
ghost use Rattle.model.specs.Words.{kernel};
ghost use Rattle.reply.specs.Replies.{CarriesInWords, CarriesInLog};

use act::task::become_dormant;
use model::call::Answer;
use model::code::{E_OK, Error};
use model::number::TaskNumber;
use queue::arrival::arrive;
use reply::Reply;
use script::log::log_answer;
use state::layout::Words;
use state::task::{ABSENT, DORMANT, READY, place};

// "the task is started and joins the ready line". The field names a task, since nothing refuses the call; so below.
pub fn sta_tsk(state: &mut Words, log: &mut [u8], at: usize, caller: TaskNumber, task: i32) -> Reply
    requires { first_refusal (dormant_refusals (kernel state.old) task) ≡ none }
    ensures { CarriesInWords caller.0 (λ w. sta_tsk w (number task)) state.old log.old at state.new log.new result }
{
    let answer = Answer::Code(E_OK);
    let found = TaskNumber::from_field(task);
    let Some(t) = found else {
        return Reply {
            answer: answer,
            next: at,
        };
    };
    arrive(state, t, READY, 0);
    Reply {
        answer: answer,
        next: log_answer(log, at, answer),
    }
}

pub fn ext_tsk(
    state: &mut Words,
    outbox: &mut [u8],
    log: &mut [u8],
    at: usize,
    caller: TaskNumber,
) -> Reply
    requires { caller.0 ≡ running (kernel state.old) }
    ensures { CarriesInLog caller.0 ext_tsk state.old outbox.old log.old at state.new outbox.new log.new result }
{
    let answer = Answer::Exits;
    let waits = log_answer(log, at, answer);
    Reply {
        answer: answer,
        next: become_dormant(state, outbox, log, waits, caller),
    }
}

pub fn refuse_ter_tsk(state: &Words, caller: TaskNumber, task: i32) -> Result<(), Error>
    requires { caller.0 ≡ running (kernel state.now) }
    ensures { refusal_of result ≡ first_refusal (ter_tsk_refusals (kernel state.now) task) }
{
    let found = TaskNumber::from_field(task);
    let Some(t) = found else {
        return Err(Error::Id);
    };
    let stands = place(state, t);
    if stands == ABSENT {
        return Err(Error::Noexs);
    }
    if (stands == DORMANT) | (t.word() == caller.word()) {
        return Err(Error::Obj);
    }
    Ok(())
}

pub fn ter_tsk(
    state: &mut Words,
    outbox: &mut [u8],
    log: &mut [u8],
    at: usize,
    caller: TaskNumber,
    task: i32,
) -> Reply
    requires { first_refusal (ter_tsk_refusals (kernel state.old) task) ≡ none }
    ensures { CarriesInLog caller.0 (λ w. ter_tsk w (number task)) state.old outbox.old log.old at state.new outbox.new log.new result }
{
    let answer = Answer::Code(E_OK);
    let found = TaskNumber::from_field(task);
    let Some(t) = found else {
        return Reply {
            answer: answer,
            next: at,
        };
    };
    let waits = log_answer(log, at, answer);
    Reply {
        answer: answer,
        next: become_dormant(state, outbox, log, waits, t),
    }
}
