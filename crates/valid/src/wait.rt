// 01, "Sound": what a task's wait has, and what it waits for. None's entries are seen to be 0 before these are called.
ghost use Rattle.std.specs.Prelude.{◌≡◌, length};
ghost use Rattle.model.specs.Lists.{◌!◌};
ghost use Rattle.model.specs.Valid.{MutexLists, BufferLists, PoolLists, awaitable, argument, wait_fields, locking_task};
ghost use Rattle.model.specs.Words.{kernel};

use super::entry;
use super::range::within;
use model::number::TaskNumber;
use model::sizes::{ENDLESS, LONGEST};
use state::layout::Words;
use state::task::{GETTING, LOCKING, SENDING};

// "unused entries as in the fresh bench": a sender's wait has the length of its message, 1 to the buffer's maxmsz, and no other wait has
// an argument.
pub(crate) fn argument(state: &Words, t: TaskNumber) -> bool
    requires { BufferLists (kernel state.now).buffers }
    ensures { result ≡ argument (kernel state.now) t.0 }
{
    let place = state::task::place(state, t);
    let object = state::task::object(state, t);
    let length = state::task::argument(state, t);
    let longest = entry::maxmsz(state, object);
    let sends = (place == SENDING) & within(1, longest, length);
    let other = (place != SENDING) & (length == 0);
    sends | other
}

// The entry that is 1 if the object that a task at this place waits for exists.
fn awaited(state: &Words, place: u32, object: u32) -> u32
    requires mutex_lists { MutexLists (kernel state.now).mutexes }
    requires buffer_lists { BufferLists (kernel state.now).buffers }
    requires pool_lists { PoolLists (kernel state.now).pools }
    ensures { result ≡ awaitable (kernel state.now) place ! object }
{
    if place == LOCKING {
        return entry::mutex_exists(state, object);
    }
    if place == GETTING {
        return entry::pool_exists(state, object);
    }
    entry::buffer_exists(state, object)
}

// "waits with 1 or more ms left or endless", each for an object that exists; without a wait its fields are 0.
pub(crate) fn wait_fields(state: &Words, t: TaskNumber) -> bool
    requires mutex_lists { MutexLists (kernel state.now).mutexes }
    requires buffer_lists { BufferLists (kernel state.now).buffers }
    requires pool_lists { PoolLists (kernel state.now).pools }
    ensures { result ≡ wait_fields (kernel state.now) t.0 }
{
    let place = state::task::place(state, t);
    let object = state::task::object(state, t);
    let left = state::task::left(state, t);
    let stands = (place < LOCKING) & (object == 0) & (left == 0);
    let entry = awaited(state, place, object);
    let time = within(1, LONGEST, left) | (left == ENDLESS);
    let waits = (LOCKING <= place) & (entry == 1) & time;
    stands | waits
}

// "no task waiting for a mutex it holds"; "no waiters at a free mutex".
pub(crate) fn locking_task(state: &Words, t: TaskNumber) -> bool
    requires { MutexLists (kernel state.now).mutexes }
    ensures { result ≡ locking_task (kernel state.now) t.0 }
{
    let place = state::task::place(state, t);
    let object = state::task::object(state, t);
    let holder = entry::holder(state, object);
    let n = t.word();
    (place != LOCKING) | (holder != n) & (holder != 0)
}
