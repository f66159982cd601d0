// A task's own priority, and which tasks' own priorities may differ from their bases.
ghost use Rattle.std.specs.Prelude.{◌≡◌, ◌≤◌};
ghost use Rattle.model.specs.Sizes.{tasks, mutexes};
ghost use Rattle.model.specs.Number.{word_number, maybe_task};
ghost use Rattle.model.specs.Words.{kernel};
ghost use Rattle.priority.specs.Own.{own_of, with_ceiling_of, ceiling_holder};

use model::attribute::CEILINGED;
use model::number::{MutexNumber, TaskNumber};
use model::sizes::MUTEXES;
use state::layout::Words;
use state::{mutex, task};

// The most urgent of the task's base priority and the ceilings that it holds. Entry 0 of a field stands for no task, whatever it
// holds, so the number is not 0.
pub(crate) fn own_priority(state: &Words, t: TaskNumber) -> u32
    requires { 1 ≤ t.0 }
    ensures { result ≡ own_of (kernel state.now) t.0 }
{
    let mut p = task::base(state, t);
    for n in 0..MUTEXES {
        p = with_ceiling(state, t, n + 1, p);
    }
    p
}

// The more urgent of a priority and a mutex's ceiling, if the task holds it.
fn with_ceiling(state: &Words, t: TaskNumber, n: u32, p: u32) -> u32
    requires le_n { 1 ≤ n }
    requires n_le_mutexes { n ≤ mutexes }
    ensures { result ≡ with_ceiling_of (kernel state.now) t.0 n p }
{
    let Some(m) = MutexNumber::from_word(n) else {
        return p;
    };
    if mutex::holder(state, m) != t.word() {
        return p;
    }
    if mutex::attribute(state, m) != CEILINGED {
        return p;
    }
    let c = mutex::ceiling(state, m);
    if c < p { c } else { p }
}

// The task that holds the mutex of a number, if the mutex's ceiling counts.
pub(crate) fn ceiling_holder(state: &Words, n: u32) -> Option<TaskNumber>
    requires le_n { 1 ≤ n }
    requires n_le_mutexes { n ≤ mutexes }
    ensures { result ≡ maybe_task (word_number (ceiling_holder (kernel state.now) n) tasks) }
{
    let Some(m) = MutexNumber::from_word(n) else {
        return None;
    };
    if mutex::attribute(state, m) == CEILINGED {
        TaskNumber::from_word(mutex::holder(state, m))
    } else {
        None
    }
}
