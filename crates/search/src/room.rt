// "counts times sizes of live pools": whether these and more bytes are above what all pools may have.
ghost use Rattle.std.specs.Prelude.{◌≡◌, ◌+◌, ◌*◌, ltb};
ghost use Rattle.model.specs.Sizes.{pool_bytes};
ghost use Rattle.model.specs.Lists.{◌!◌};
ghost use Rattle.model.specs.Refusal.{pool_sum};
ghost use Rattle.model.specs.Words.{kernel};

use model::number::PoolNumber;
use model::sizes::{POOL_BYTES, POOLS};
use state::layout::Words;

// A pool's bytes; any two words have a product.
fn bytes(state: &Words, p: PoolNumber) -> usize
    ensures { result ≡ (kernel state.now).pools.count ! p.0 * (kernel state.now).pools.size ! p.0 }
{
    let count = state::pool::count(state, p);
    let size = state::pool::size(state, p);
    count as usize * size as usize
}

// What is left for pools is counted down, since the sum of all pools' products need not be a machine number. Each number of the loop names a
// pool, so no answer is given for want of one.
pub fn pools_exceed(state: &Words, more: usize) -> bool
    ensures { result ≡ ltb pool_bytes (pool_sum (kernel state.now) + more) }
{
    let mut room = POOL_BYTES as usize;
    if room < more {
        return true;
    }
    room -= more;
    for n in 1..=POOLS {
        let found = PoolNumber::from_word(n);
        let Some(p) = found else {
            return true;
        };
        let taken = bytes(state, p);
        if room < taken {
            return true;
        }
        room -= taken;
    }
    false
}
