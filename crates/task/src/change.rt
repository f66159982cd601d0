// chg_pri.
ghost use Rattle.std.specs.Prelude.{◌≤◌, ◌≡◌};
ghost use Rattle.std.proofs.Math.Option.{none};
ghost use Rattle.model.specs.Sizes.{tasks};
ghost use Rattle.model.specs.Number.{word_number, maybe_task};
ghost use Rattle.model.specs.World.{running, recompute as recomputed};
ghost use Rattle.model.specs.Kernel.{with_base};
ghost use Rattle.model.specs.Refusal.{first_refusal, chosen_task, chosen_base, chg_pri_refusals};
ghost use Rattle.model.specs.Effect.{rejoin as rejoined, chg_pri};
ghost use Rattle.model.specs.Errors.{refusal_of};
ghost use Rattle.model.specs.Words.{kernel};
ghost use Rattle.state.specs.Words.{Represents};
ghost use Rattle.reply.specs.Replies.{CarriesInWords};

use act::task::rejoin;
use model::call::Answer;
use model::code::{E_OK, Error};
use model::number::{TaskNumber, natural};
use model::sizes::{PRIORITIES, TASKS};
use priority::recompute;
use reply::Reply;
use reply::field::outside;
use script::log::log_answer;
use search::ceiling::above_any_ceiling;
use state::layout::Words;
use state::task::{ABSENT, initial, place, set_base};

// "task 0 is the caller in chg_pri only"
fn chosen_task(state: &[u32], caller: TaskNumber, task: i32) -> Option<TaskNumber>
    requires { caller.0 ≡ running (kernel state.now) }
    ensures { result ≡ maybe_task (word_number (chosen_task (kernel state.now) task) tasks) }
{
    let n = natural(task);
    if n == 0 {
        return TaskNumber::from_word(caller.word());
    }
    TaskNumber::from_word(n)
}

// "0 means the initial priority"
fn chosen_base(state: &Words, t: TaskNumber, priority: i32) -> u32
    ensures { result ≡ chosen_base (kernel state.now) t.0 priority }
{
    let p = natural(priority);
    if p == 0 {
        return initial(state, t);
    }
    p
}

pub fn refuse_chg_pri(
    state: &Words,
    caller: TaskNumber,
    task: i32,
    priority: i32,
) -> Result<(), Error>
    requires caller_value { caller.0 ≡ running (kernel state.now) }
    requires le_caller { 1 ≤ caller.0 }
    ensures { refusal_of result ≡ first_refusal (chg_pri_refusals (kernel state.now) task priority) }
{
    if outside(0, PRIORITIES as i32, priority) {
        return Err(Error::Par);
    }
    if outside(0, TASKS as i32, task) {
        return Err(Error::Id);
    }
    let found = chosen_task(state, caller, task);
    let Some(t) = found else {
        return Err(Error::Id);
    };
    if place(state, t) == ABSENT {
        return Err(Error::Noexs);
    }
    if above_any_ceiling(state, chosen_base(state, t, priority), t) {
        return Err(Error::Iluse);
    }
    Ok(())
}

// The task's base is changed and priorities are settled; then it may join its queue anew.
fn change_base(state: &mut Words, t: TaskNumber, base: u32)
    ensures { Represents state.new (rejoined (recomputed (with_base (kernel state.old) t.0 base)) t.0) }
{
    set_base(state, t, base);
    recompute(state);
    rejoin(state, t);
}

// A task is chosen, since nothing refuses the call.
pub fn chg_pri(
    state: &mut Words,
    log: &mut [u8],
    at: usize,
    caller: TaskNumber,
    task: i32,
    priority: i32,
) -> Reply
    requires caller_value { caller.0 ≡ running (kernel state.old) }
    requires le_caller { 1 ≤ caller.0 }
    requires priority_value { first_refusal (chg_pri_refusals (kernel state.old) task priority) ≡ none }
    ensures { CarriesInWords caller.0 (λ w. chg_pri w (chosen_task w.kernel task) priority) state.old log.old at state.new log.new result }
{
    let answer = Answer::Code(E_OK);
    let found = chosen_task(state, caller, task);
    let Some(t) = found else {
        return Reply {
            answer: answer,
            next: at,
        };
    };
    change_base(state, t, chosen_base(state, t, priority));
    Reply {
        answer: answer,
        next: log_answer(log, at, answer),
    }
}
