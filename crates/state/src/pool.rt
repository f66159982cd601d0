// The fixed pools' fields.
ghost use Rattle.std.specs.Prelude.{◌≡◌};
ghost use Rattle.model.specs.Lists.{◌!◌};
ghost use Rattle.model.specs.Kernel.{with_pool_exists, with_pool_attribute, with_count, with_size, with_taken, slot};
ghost use Rattle.model.specs.Words.{kernel};
ghost use Rattle.state.specs.Words.{Represents};

use super::layout::{
    BLOCK_SLOTS, COUNT, POOL_ATTRIBUTE, POOL_EXISTS, POOL_SLOTS, SIZE, TAKEN, TAKEN_SLOTS, Words,
    get, put,
};
use model::number::PoolNumber;

// 1 if the pool exists, else 0.
pub fn exists(state: &Words, p: PoolNumber) -> u32
    ensures { result ≡ (kernel state.now).pools.exists ! p.0 }
{
    get(state, POOL_EXISTS, POOL_SLOTS, p.word() as usize)
}

pub fn set_exists(state: &mut Words, p: PoolNumber, v: u32)
    ensures { Represents state.new (with_pool_exists (kernel state.old) p.0 v) }
{
    put(state, POOL_EXISTS, POOL_SLOTS, p.word() as usize, v);
}

// The attribute as it was given.
pub fn attribute(state: &Words, p: PoolNumber) -> u32
    ensures { result ≡ (kernel state.now).pools.attribute ! p.0 }
{
    get(state, POOL_ATTRIBUTE, POOL_SLOTS, p.word() as usize)
}

pub fn set_attribute(state: &mut Words, p: PoolNumber, v: u32)
    ensures { Represents state.new (with_pool_attribute (kernel state.old) p.0 v) }
{
    put(state, POOL_ATTRIBUTE, POOL_SLOTS, p.word() as usize, v);
}

// How many blocks.
pub fn count(state: &Words, p: PoolNumber) -> u32
    ensures { result ≡ (kernel state.now).pools.count ! p.0 }
{
    get(state, COUNT, POOL_SLOTS, p.word() as usize)
}

pub fn set_count(state: &mut Words, p: PoolNumber, v: u32)
    ensures { Represents state.new (with_count (kernel state.old) p.0 v) }
{
    put(state, COUNT, POOL_SLOTS, p.word() as usize, v);
}

// Bytes of a block.
pub fn size(state: &Words, p: PoolNumber) -> u32
    ensures { result ≡ (kernel state.now).pools.size ! p.0 }
{
    get(state, SIZE, POOL_SLOTS, p.word() as usize)
}

pub fn set_size(state: &mut Words, p: PoolNumber, v: u32)
    ensures { Represents state.new (with_size (kernel state.old) p.0 v) }
{
    put(state, SIZE, POOL_SLOTS, p.word() as usize, v);
}

// Where the flag of a pool's block stands among the flags: the definitions' `slot`. As there, a block above the last falls among the flags
// of a later pool, so contracts made of `taken` hold on any state; beyond the last flag a read gives 0 and a store does nothing.
fn flag(p: PoolNumber, block: u32) -> usize
    ensures { result ≡ slot p.0 block }
{
    p.word() as usize * BLOCK_SLOTS + block as usize
}

// 1 if the block is handed out, else 0.
pub fn taken(state: &Words, p: PoolNumber, block: u32) -> u32
    ensures { result ≡ (kernel state.now).pools.taken ! slot p.0 block }
{
    get(state, TAKEN, TAKEN_SLOTS, flag(p, block))
}

pub fn set_taken(state: &mut Words, p: PoolNumber, block: u32, v: u32)
    ensures { Represents state.new (with_taken (kernel state.old) (slot p.0 block) v) }
{
    put(state, TAKEN, TAKEN_SLOTS, flag(p, block), v);
}
