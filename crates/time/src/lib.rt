// The call of time: tick. Nothing refuses it, and no task makes it.
#![tactic(auto)]

ghost use Rattle.std.specs.Prelude.{ℕ};
ghost use Rattle.model.specs.Sizes.{tasks};
ghost use Rattle.model.specs.Valid.{From};
ghost use Rattle.model.specs.Effect.{tick_task, tick as ticked};
ghost use Rattle.act.specs.Held.{DoesInLog};
ghost use Rattle.reply.specs.Replies.{CarriesInLog};
ghost use Rattle.time.specs.Ticks.{ticks};

use act::task::tick_task;
use model::call::Answer;
use model::code::E_OK;
use model::number::TaskNumber;
use model::sizes::TASKS;
use reply::Reply;
use script::log::log_answer;
use state::layout::Words;

// A millisecond passes for the task of a number.
fn tick_numbered(state: &mut Words, outbox: &mut [u8], log: &mut [u8], at: usize, n: u32) -> usize
    requires { From 1 tasks n }
    ensures { DoesInLog (λ w. tick_task w n) state.old outbox.old log.old at state.new outbox.new log.new result }
{
    let found = TaskNumber::from_word(n);
    let Some(t) = found else {
        return at;
    };
    tick_task(state, outbox, log, at, t)
}

// The same for every task: "several in task order".
fn tick_all(state: &mut Words, outbox: &mut [u8], log: &mut [u8], at: usize) -> usize
    ensures { DoesInLog ticks state.old outbox.old log.old at state.new outbox.new log.new result }
{
    let mut next = at;
    for n in 0..TASKS {
        next = tick_numbered(state, outbox, log, next, n + 1);
    }
    next
}

pub fn tick(state: &mut Words, outbox: &mut [u8], log: &mut [u8], at: usize) -> Reply
    ensures { (caller : ℕ) → CarriesInLog caller ticked state.old outbox.old log.old at state.new outbox.new log.new result }
{
    let answer = Answer::Code(E_OK);
    let waits = log_answer(log, at, answer);
    Reply {
        answer: answer,
        next: tick_all(state, outbox, log, waits),
    }
}
