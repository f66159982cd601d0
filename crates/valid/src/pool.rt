// 01, "Sound": "numbers in range" of the blocks' flags and of the pools' bytes.
ghost use Rattle.std.specs.Prelude.{◌≡◌, suc, leb};
ghost use Rattle.model.specs.Sizes.{pools, blocks, pool_bytes};
ghost use Rattle.model.specs.Lists.{all, count_from, up_to};
ghost use Rattle.model.specs.Refusal.{pool_sum};
ghost use Rattle.model.specs.Valid.{block_flag, PoolLists};
ghost use Rattle.model.specs.Words.{kernel};
ghost use Rattle.valid.specs.Check.{block_flags};

use super::range::within;
use model::number::PoolNumber;
use model::sizes::BLOCKS;
use search::room::pools_exceed;
use state::layout::Words;
use state::none::flags_zero;

// "unused entries as in the fresh bench": a flag is 0, or 1 and its block one of the pool's. Block 0 stands for none and is asked too.
fn block_flag(state: &Words, p: PoolNumber, b: u32) -> bool
    ensures { result ≡ block_flag (kernel state.now) p.0 b }
{
    let flag = state::pool::taken(state, p, b);
    let count = state::pool::count(state, p);
    (flag == 0) | (flag == 1) & within(1, count, b)
}

// Of every block of a pool, and of every pool.
fn flags_of(state: &Words, p: PoolNumber) -> bool
    ensures { result ≡ all (block_flag (kernel state.now) p.0) (count_from 0 (suc blocks)) }
{
    for b in 0..=BLOCKS {
        if !block_flag(state, p, b) {
            return false;
        }
    }
    true
}

fn flags_of_pools(state: &Words) -> bool
    ensures { result ≡ all (λ p. all (block_flag (kernel state.now) p) (count_from 0 (suc blocks))) (up_to pools) }
{
    PoolNumber::every(|p| flags_of(state, p))
}

// Of none's flags, those of pool 0, and of all others.
pub(crate) fn flags(state: &Words) -> bool
    requires { PoolLists (kernel state.now).pools }
    ensures { result ≡ block_flags (kernel state.now) }
{
    flags_zero(state) & flags_of_pools(state)
}

// "numbers in range": the live pools' bytes are no more than all pools may have.
pub(crate) fn pools_fit(state: &Words) -> bool
    ensures { result ≡ leb (pool_sum (kernel state.now)) pool_bytes }
{
    !pools_exceed(state, 0)
}
