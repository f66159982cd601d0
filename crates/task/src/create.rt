// cre_tsk and del_tsk.
ghost use Rattle.std.specs.Prelude.{◌≡◌};
ghost use Rattle.std.proofs.Math.Option.{none};
ghost use Rattle.model.specs.Code.{number};
ghost use Rattle.model.specs.Refusal.{first_refusal, cre_tsk_refusals, dormant_refusals};
ghost use Rattle.model.specs.Effect.{cre_tsk, del_tsk};
ghost use Rattle.model.specs.Errors.{refusal_of};
ghost use Rattle.model.specs.Words.{kernel};
ghost use Rattle.state.specs.Words.{Represents};
ghost use Rattle.reply.specs.Replies.{CarriesInWords};
ghost use Rattle.task.specs.Rows.{task_row};

use model::call::Answer;
use model::code::{E_OK, Error};
use model::number::{TaskNumber, natural};
use model::sizes::PRIORITIES;
use reply::Reply;
use reply::field::{answer_number, outside};
use script::log::log_answer;
use search::unused::unused_task;
use state::layout::Words;
use state::task;

pub fn refuse_cre_tsk(state: &Words, priority: i32) -> Result<(), Error>
    ensures { refusal_of result ≡ first_refusal (cre_tsk_refusals (kernel state.now) priority) }
{
    if outside(1, PRIORITIES as i32, priority) {
        return Err(Error::Par);
    }
    let found = unused_task(state);
    let Some(_) = found else {
        return Err(Error::Limit);
    };
    Ok(())
}

// Where a task stands that has no wait, and its priorities, all one number.
fn set_row(state: &mut Words, t: TaskNumber, place: u32, p: u32)
    ensures { Represents state.new (task_row (kernel state.old) t.0 place p) }
{
    task::set_place(state, t, place);
    task::set_initial(state, t, p);
    task::set_base(state, t, p);
    task::set_current(state, t, p);
}

// "A new object takes the smallest free number"; there is one, since nothing refuses the call.
pub fn cre_tsk(
    state: &mut Words,
    log: &mut [u8],
    at: usize,
    caller: TaskNumber,
    priority: i32,
) -> Reply
    requires { first_refusal (cre_tsk_refusals (kernel state.old) priority) ≡ none }
    ensures { CarriesInWords caller.0 (λ w. cre_tsk w (number priority)) state.old log.old at state.new log.new result }
{
    let found = unused_task(state);
    let Some(t) = found else {
        return Reply {
            answer: Answer::Code(E_OK),
            next: at,
        };
    };
    let answer = answer_number(t.word());
    set_row(state, t, task::DORMANT, natural(priority));
    Reply {
        answer: answer,
        next: log_answer(log, at, answer),
    }
}

// Of del_tsk and sta_tsk: both want a dormant task.
pub fn refuse_not_dormant(state: &Words, task: i32) -> Result<(), Error>
    ensures { refusal_of result ≡ first_refusal (dormant_refusals (kernel state.now) task) }
{
    let found = TaskNumber::from_field(task);
    let Some(t) = found else {
        return Err(Error::Id);
    };
    let place = task::place(state, t);
    if place == task::ABSENT {
        return Err(Error::Noexs);
    }
    if place != task::DORMANT {
        return Err(Error::Obj);
    }
    Ok(())
}

// The field names a task, since nothing refuses the call.
pub fn del_tsk(state: &mut Words, log: &mut [u8], at: usize, caller: TaskNumber, task: i32) -> Reply
    requires { first_refusal (dormant_refusals (kernel state.old) task) ≡ none }
    ensures { CarriesInWords caller.0 (λ w. del_tsk w (number task)) state.old log.old at state.new log.new result }
{
    let answer = Answer::Code(E_OK);
    let found = TaskNumber::from_field(task);
    let Some(t) = found else {
        return Reply {
            answer: answer,
            next: at,
        };
    };
    set_row(state, t, task::ABSENT, 0);
    Reply {
        answer: answer,
        next: log_answer(log, at, answer),
    }
}
