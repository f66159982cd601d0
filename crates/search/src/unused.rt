// "A new object takes the smallest free number": the first whose entry is 0.
ghost use Rattle.std.specs.Prelude.{◌≡◌};
ghost use Rattle.model.specs.Sizes.{tasks, mutexes, buffers, pools};
ghost use Rattle.model.specs.Number.{maybe_task, maybe_mutex, maybe_buffer, maybe_pool};
ghost use Rattle.model.specs.Act.{unused};
ghost use Rattle.model.specs.Words.{kernel};

use model::number::{BufferNumber, MutexNumber, PoolNumber, TaskNumber};
use state::layout::Words;
use state::{buffer, mutex, pool, task};

pub fn unused_task(state: &Words) -> Option<TaskNumber>
    ensures { result ≡ maybe_task (unused (kernel state.now).tasks.place tasks) }
{
    TaskNumber::first(|t| task::place(state, t) == task::ABSENT)
}

pub fn unused_mutex(state: &Words) -> Option<MutexNumber>
    ensures { result ≡ maybe_mutex (unused (kernel state.now).mutexes.exists mutexes) }
{
    MutexNumber::first(|m| mutex::exists(state, m) == 0)
}

pub fn unused_buffer(state: &Words) -> Option<BufferNumber>
    ensures { result ≡ maybe_buffer (unused (kernel state.now).buffers.exists buffers) }
{
    BufferNumber::first(|b| buffer::exists(state, b) == 0)
}

pub fn unused_pool(state: &Words) -> Option<PoolNumber>
    ensures { result ≡ maybe_pool (unused (kernel state.now).pools.exists pools) }
{
    PoolNumber::first(|p| pool::exists(state, p) == 0)
}
