// The two walks, which call each other: a raised task leads to the mutex that it waits for, the mutex to its holder. The tasks not yet visited are
// those that are less urgent than the walk's priority; each raise leaves fewer of them, so the walks end, in a circle of waits too.
ghost use Rattle.std.specs.Prelude.{◌≡◌, ◌≤◌};
ghost use Rattle.model.specs.Sizes.{tasks, mutexes};
ghost use Rattle.model.specs.Number.{word_number, maybe_mutex};
ghost use Rattle.model.specs.Kernel.{facts};
ghost use Rattle.model.specs.Words.{kernel};
ghost use Rattle.state.specs.Words.{Represents};
ghost use Rattle.priority.specs.Walk.{mutex_awaited, passes_to, raised_kernel};

use model::attribute::INHERITS;
use model::number::{MutexNumber, TaskNumber};
use state::layout::Words;
use state::{mutex, task};

// The task is raised to p, and so is each that it leads to in turn, until one is as urgent already. Entry 0 of a field stands for no
// task, whatever it holds, so the number is not 0.
#[cycle(raise_mutex_raise_task)]
fn raise_task(state: &mut Words, v: TaskNumber, p: u32)
    requires le_v { 1 ≤ v.0 }
    requires v_le_tasks { v.0 ≤ tasks }
    ensures { Represents state.new (raised_kernel (kernel state.old) v.0 p) }
{
    if task::current(state, v) <= p {
        return;
    }
    task::set_current(state, v, p);
    let Some(m) = awaited_mutex(state, v) else {
        return;
    };
    raise_mutex(state, m, p);
}

// The same from the mutex's holder, if the mutex passes priorities on to it.
#[cycle(raise_mutex_raise_task)]
pub(crate) fn raise_mutex(state: &mut Words, m: MutexNumber, p: u32)
    requires { 1 ≤ m.0 }
    ensures { Represents state.new (raised_kernel (kernel state.old) (passes_to (facts (kernel state.old)) m.0) p) }
{
    if mutex::attribute(state, m) != INHERITS {
        return;
    }
    let Some(v) = TaskNumber::from_word(mutex::holder(state, m)) else {
        return;
    };
    raise_task(state, v, p);
}

// The mutex that the task waits for, if any.
pub(crate) fn awaited_mutex(state: &Words, t: TaskNumber) -> Option<MutexNumber>
    requires { 1 ≤ t.0 }
    ensures { result ≡ maybe_mutex (word_number (mutex_awaited (facts (kernel state.now)) t.0) mutexes) }
{
    if task::place(state, t) == task::LOCKING {
        MutexNumber::from_word(task::object(state, t))
    } else {
        None
    }
}
