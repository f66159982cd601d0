// Entries by a word of the state that should name an object. 01, "Sound", asks that "unused entries" are "as in the fresh bench", so none's
// entry, entry 0, is 0; that is seen before these are called. A word beyond the last number reads as 0 too.
ghost use Rattle.std.specs.Prelude.{◌≡◌};
ghost use Rattle.model.specs.Lists.{◌!◌};
ghost use Rattle.model.specs.Valid.{MutexLists, BufferLists, PoolLists};
ghost use Rattle.model.specs.Words.{kernel};

use model::number::{BufferNumber, MutexNumber, PoolNumber};
use state::layout::Words;

// 1 if the object exists, else 0.
pub(crate) fn mutex_exists(state: &Words, n: u32) -> u32
    requires { MutexLists (kernel state.now).mutexes }
    ensures { result ≡ (kernel state.now).mutexes.exists ! n }
{
    let found = MutexNumber::from_word(n);
    let Some(m) = found else {
        return 0;
    };
    state::mutex::exists(state, m)
}

pub(crate) fn buffer_exists(state: &Words, n: u32) -> u32
    requires { BufferLists (kernel state.now).buffers }
    ensures { result ≡ (kernel state.now).buffers.exists ! n }
{
    let found = BufferNumber::from_word(n);
    let Some(b) = found else {
        return 0;
    };
    state::buffer::exists(state, b)
}

pub(crate) fn pool_exists(state: &Words, n: u32) -> u32
    requires { PoolLists (kernel state.now).pools }
    ensures { result ≡ (kernel state.now).pools.exists ! n }
{
    let found = PoolNumber::from_word(n);
    let Some(p) = found else {
        return 0;
    };
    state::pool::exists(state, p)
}

// The task that holds a mutex, 0 for none.
pub(crate) fn holder(state: &Words, n: u32) -> u32
    requires { MutexLists (kernel state.now).mutexes }
    ensures { result ≡ (kernel state.now).mutexes.holder ! n }
{
    let found = MutexNumber::from_word(n);
    let Some(m) = found else {
        return 0;
    };
    state::mutex::holder(state, m)
}

// The longest message of a buffer.
pub(crate) fn maxmsz(state: &Words, n: u32) -> u32
    requires { BufferLists (kernel state.now).buffers }
    ensures { result ≡ (kernel state.now).buffers.maxmsz ! n }
{
    let found = BufferNumber::from_word(n);
    let Some(b) = found else {
        return 0;
    };
    state::buffer::maxmsz(state, b)
}

// The bytes in use of a buffer's region.
pub(crate) fn used(state: &Words, n: u32) -> u32
    requires { BufferLists (kernel state.now).buffers }
    ensures { result ≡ (kernel state.now).buffers.used ! n }
{
    let found = BufferNumber::from_word(n);
    let Some(b) = found else {
        return 0;
    };
    state::buffer::used(state, b)
}
