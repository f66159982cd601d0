// Entry 0 of every list stands for none. 01, "Sound", asks for "unused entries as in the fresh bench", so it is 0; the accessors, which take a
// number that names an object, do not reach it.
ghost use Rattle.std.specs.Prelude.{◌≡◌, suc, ◌+◌, ◌≤◌, length, eqb};
ghost use Rattle.model.specs.Sizes.{tasks, mutexes, buffers, pools, blocks};
ghost use Rattle.model.specs.Lists.{◌!◌, all, count_from};
ghost use Rattle.model.specs.Kernel.{slot};
ghost use Rattle.model.specs.Valid.{lists, task_lists, mutex_lists, buffer_lists, pool_lists};
ghost use Rattle.state.specs.Layout.{entry};
ghost use Rattle.model.specs.Words.{kernel};

use super::layout::{
    ARGUMENT, BASE, BLOCK_SLOTS, BUFFER_ATTRIBUTE, BUFFER_EXISTS, BUFFER_SLOTS, BUFSZ, CEILING,
    COUNT, CURRENT, HOLDER, INITIAL, LEFT, MAXMSZ, MUTEX_ATTRIBUTE, MUTEX_EXISTS, MUTEX_SLOTS,
    OBJECT, PLACE, POOL_ATTRIBUTE, POOL_EXISTS, POOL_SLOTS, SIZE, TAKEN, TAKEN_SLOTS, TASK_SLOTS,
    USED, Words, get,
};

// Whether a field's entry 0 is 0.
fn zero(state: &Words, at: usize, slots: usize) -> bool
    requires { at + slots ≤ length state.now }
    ensures { result ≡ eqb (entry state.now at slots 0) 0 }
{
    get(state, at, slots, 0) == 0
}

// The same of every list of tasks, mutexes, buffers and pools.
pub fn tasks_zero(state: &Words) -> bool
    ensures { result ≡ lists tasks (task_lists (kernel state.now)) }
{
    zero(state, PLACE, TASK_SLOTS)
        & zero(state, OBJECT, TASK_SLOTS)
        & zero(state, ARGUMENT, TASK_SLOTS)
        & zero(state, INITIAL, TASK_SLOTS)
        & zero(state, BASE, TASK_SLOTS)
        & zero(state, CURRENT, TASK_SLOTS)
        & zero(state, LEFT, TASK_SLOTS)
}

pub fn mutexes_zero(state: &Words) -> bool
    ensures { result ≡ lists mutexes (mutex_lists (kernel state.now)) }
{
    zero(state, MUTEX_EXISTS, MUTEX_SLOTS)
        & zero(state, MUTEX_ATTRIBUTE, MUTEX_SLOTS)
        & zero(state, CEILING, MUTEX_SLOTS)
        & zero(state, HOLDER, MUTEX_SLOTS)
}

pub fn buffers_zero(state: &Words) -> bool
    ensures { result ≡ lists buffers (buffer_lists (kernel state.now)) }
{
    zero(state, BUFFER_EXISTS, BUFFER_SLOTS)
        & zero(state, BUFFER_ATTRIBUTE, BUFFER_SLOTS)
        & zero(state, BUFSZ, BUFFER_SLOTS)
        & zero(state, MAXMSZ, BUFFER_SLOTS)
        & zero(state, USED, BUFFER_SLOTS)
}

pub fn pools_zero(state: &Words) -> bool
    ensures { result ≡ lists pools (pool_lists (kernel state.now)) }
{
    zero(state, POOL_EXISTS, POOL_SLOTS)
        & zero(state, POOL_ATTRIBUTE, POOL_SLOTS)
        & zero(state, COUNT, POOL_SLOTS)
        & zero(state, SIZE, POOL_SLOTS)
}

// The flags of pool 0, which is none, are 0.
fn flag_zero(state: &Words, b: usize) -> bool
    ensures { result ≡ eqb ((kernel state.now).pools.taken ! slot 0 b) 0 }
{
    get(state, TAKEN, TAKEN_SLOTS, b) == 0
}

pub fn flags_zero(state: &Words) -> bool
    ensures { result ≡ all (λ b. eqb ((kernel state.now).pools.taken ! slot 0 b) 0) (count_from 0 (suc blocks)) }
{
    for b in 0..BLOCK_SLOTS {
        if !flag_zero(state, b) {
            return false;
        }
    }
    true
}
