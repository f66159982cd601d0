// The bits of the priorities that have a ready task: that of one, and those of all, as worked out afresh.
#![tactic(auto)]

mod bit;

ghost use Rattle.std.specs.Prelude.{◌≡◌};
ghost use Rattle.model.specs.Lists.{◌!◌};
ghost use Rattle.model.specs.Number.{maybe_task};
ghost use Rattle.model.specs.Queue.{ready_at, ready_bitmap};
ghost use Rattle.model.specs.Kernel.{facts};
ghost use Rattle.model.specs.World.{with_fresh_bit, with_fresh_bits};
ghost use Rattle.model.specs.Words.{kernel};
ghost use Rattle.state.specs.Words.{Represents};
ghost use Rattle.ready.specs.Tasks.{ready_task, is_ready_at, with_task};

use bit::with_priority;
use model::number::TaskNumber;
use model::sizes::TASKS;
use state::bitmap::{bits, set_bits};
use state::layout::Words;
use state::task;
use state::task::READY;

// The task of a number, if it is ready.
fn ready_task(state: &Words, n: u32) -> Option<TaskNumber>
    ensures { result ≡ maybe_task (ready_task (kernel state.now) n) }
{
    let found = TaskNumber::from_word(n);
    let Some(t) = found else {
        return None;
    };
    if task::place(state, t) == READY {
        found
    } else {
        None
    }
}

// Whether the task of a number, by its place, is ready at a priority.
fn task_ready_at(state: &Words, n: u32, p: u32) -> bool
    ensures { result ≡ is_ready_at (kernel state.now) p n }
{
    let found = ready_task(state, n);
    let Some(t) = found else {
        return false;
    };
    task::current(state, t) == p
}

// Whether any task is.
fn any_ready_at(state: &Words, p: u32) -> bool
    ensures { result ≡ ready_at (facts (kernel state.now)) (kernel state.now).tasks.current p }
{
    TaskNumber::any(|t| task_ready_at(state, t.word(), p))
}

// The same, one number first: a task that has become ready at the priority spares the search.
fn any_ready_from(state: &Words, n: u32, p: u32) -> bool
    ensures { result ≡ ready_at (facts (kernel state.now)) (kernel state.now).tasks.current p }
{
    if task_ready_at(state, n, p) {
        return true;
    }
    any_ready_at(state, p)
}

// The bit of a task's priority is worked out afresh, once the task has become ready or is so no more.
pub fn renew_bit(state: &mut Words, t: TaskNumber)
    ensures { Represents state.new (with_fresh_bit (kernel state.old) ((kernel state.old).tasks.current ! t.0)) }
{
    let p = task::current(state, t);
    let on = any_ready_from(state, t.word(), p);
    let word = bits(state);
    set_bits(state, with_priority(word, p, on));
}

// The word with the bit that the task of a number sets.
fn with_task(state: &Words, word: u32, n: u32) -> u32
    ensures { result ≡ with_task (kernel state.now) word n }
{
    let found = ready_task(state, n);
    let Some(t) = found else {
        return word;
    };
    with_priority(word, task::current(state, t), true)
}

// The bits of all priorities, as worked out afresh.
pub fn fresh_bits(state: &Words) -> u32
    ensures { result ≡ ready_bitmap (facts (kernel state.now)) (kernel state.now).tasks.current }
{
    let mut word: u32 = 0;
    for n in 1..=TASKS {
        word = with_task(state, word, n);
    }
    word
}

// The state's bits become these, once current priorities have changed.
pub fn renew_bits(state: &mut Words)
    ensures { Represents state.new (with_fresh_bits (kernel state.old)) }
{
    let word = fresh_bits(state);
    set_bits(state, word);
}
