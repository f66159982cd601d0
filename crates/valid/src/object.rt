// 01, "Sound": what is asked of every task and of every message buffer, each number once. None's entries are seen to be 0 before.
ghost use Rattle.std.specs.Prelude.{◌≡◌};
ghost use Rattle.model.specs.Sizes.{tasks, buffers};
ghost use Rattle.model.specs.Lists.{all, up_to};
ghost use Rattle.model.specs.Valid.{MutexLists, BufferLists, PoolLists};
ghost use Rattle.model.specs.Flags.{passes};
ghost use Rattle.model.specs.Words.{kernel};
ghost use Rattle.valid.specs.Check.{task_tests, buffer_tests};

use super::ceiling::ceilings_of;
use super::range::{buffer_range, task_range};
use super::wait::{argument, locking_task, wait_fields};
use super::waiter::{first_sender, getting_task, receiving_task};
use model::number::{BufferNumber, TaskNumber};
use state::layout::Words;

// All clauses that are about one task.
fn task_valid(state: &Words, t: TaskNumber) -> bool
    requires mutex_lists { MutexLists (kernel state.now).mutexes }
    requires buffer_lists { BufferLists (kernel state.now).buffers }
    requires pool_lists { PoolLists (kernel state.now).pools }
    ensures { result ≡ passes (task_tests (kernel state.now)) t.0 }
{
    task_range(state, t)
        & argument(state, t)
        & wait_fields(state, t)
        & ceilings_of(state, t)
        & locking_task(state, t)
        & getting_task(state, t)
        & receiving_task(state, t)
}

// All clauses that are about one buffer's entries.
fn buffer_valid(state: &Words, b: BufferNumber) -> bool
    ensures { result ≡ passes (buffer_tests (kernel state.now)) b.0 }
{
    buffer_range(state, b) & first_sender(state, b)
}

// The same of every task and every buffer.
pub(crate) fn tasks_valid(state: &Words) -> bool
    requires mutex_lists { MutexLists (kernel state.now).mutexes }
    requires buffer_lists { BufferLists (kernel state.now).buffers }
    requires pool_lists { PoolLists (kernel state.now).pools }
    ensures { result ≡ all (passes (task_tests (kernel state.now))) (up_to tasks) }
{
    TaskNumber::every(|t| task_valid(state, t))
}

pub(crate) fn buffers_valid(state: &Words) -> bool
    ensures { result ≡ all (passes (buffer_tests (kernel state.now))) (up_to buffers) }
{
    BufferNumber::every(|b| buffer_valid(state, b))
}
