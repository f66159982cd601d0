// The mutexes' fields.
ghost use Rattle.std.specs.Prelude.{◌≡◌};
ghost use Rattle.model.specs.Lists.{◌!◌};
ghost use Rattle.model.specs.Kernel.{with_mutex_exists, with_mutex_attribute, with_ceiling, with_holder};
ghost use Rattle.model.specs.Words.{kernel};
ghost use Rattle.state.specs.Words.{Represents};

use super::layout::{CEILING, HOLDER, MUTEX_ATTRIBUTE, MUTEX_EXISTS, MUTEX_SLOTS, Words, get, put};
use model::number::MutexNumber;

// 1 if the mutex exists, else 0.
pub fn exists(state: &Words, m: MutexNumber) -> u32
    ensures { result ≡ (kernel state.now).mutexes.exists ! m.0 }
{
    get(state, MUTEX_EXISTS, MUTEX_SLOTS, m.word() as usize)
}

pub fn set_exists(state: &mut Words, m: MutexNumber, v: u32)
    ensures { Represents state.new (with_mutex_exists (kernel state.old) m.0 v) }
{
    put(state, MUTEX_EXISTS, MUTEX_SLOTS, m.word() as usize, v);
}

// The attribute, 0 to 3.
pub fn attribute(state: &Words, m: MutexNumber) -> u32
    ensures { result ≡ (kernel state.now).mutexes.attribute ! m.0 }
{
    get(state, MUTEX_ATTRIBUTE, MUTEX_SLOTS, m.word() as usize)
}

pub fn set_attribute(state: &mut Words, m: MutexNumber, v: u32)
    ensures { Represents state.new (with_mutex_attribute (kernel state.old) m.0 v) }
{
    put(state, MUTEX_ATTRIBUTE, MUTEX_SLOTS, m.word() as usize, v);
}

// The ceiling priority; 0 for attributes 0 to 2.
pub fn ceiling(state: &Words, m: MutexNumber) -> u32
    ensures { result ≡ (kernel state.now).mutexes.ceiling ! m.0 }
{
    get(state, CEILING, MUTEX_SLOTS, m.word() as usize)
}

pub fn set_ceiling(state: &mut Words, m: MutexNumber, v: u32)
    ensures { Represents state.new (with_ceiling (kernel state.old) m.0 v) }
{
    put(state, CEILING, MUTEX_SLOTS, m.word() as usize, v);
}

// The task that holds it, 0 for none.
pub fn holder(state: &Words, m: MutexNumber) -> u32
    ensures { result ≡ (kernel state.now).mutexes.holder ! m.0 }
{
    get(state, HOLDER, MUTEX_SLOTS, m.word() as usize)
}

pub fn set_holder(state: &mut Words, m: MutexNumber, v: u32)
    ensures { Represents state.new (with_holder (kernel state.old) m.0 v) }
{
    put(state, HOLDER, MUTEX_SLOTS, m.word() as usize, v);
}
