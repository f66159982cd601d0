// Blocks of a pool: the smallest free one, and whether one is handed out.
ghost use Rattle.std.specs.Prelude.{◌≡◌};
ghost use Rattle.model.specs.Refusal.{free_block, handed_out};
ghost use Rattle.model.specs.Words.{kernel};

use model::number::{PoolNumber, natural};
use state::layout::Words;

// "the smallest free block, counted from 1", 0 if there is none. A state may say any count; the flags end, and beyond them a block reads as
// free.
pub fn free_block(state: &Words, p: PoolNumber) -> u32
    ensures { result ≡ free_block (kernel state.now) p.0 }
{
    let count = state::pool::count(state, p);
    for i in 0..count {
        let flag = state::pool::taken(state, p, i + 1);
        if flag == 0 {
            return i + 1;
        }
    }
    0
}

// "handed out by this pool", by a field of a call.
pub fn handed_out(state: &Words, p: PoolNumber, block: i32) -> bool
    ensures { result ≡ handed_out (kernel state.now) p.0 block }
{
    if block < 1 {
        return false;
    }
    let b = natural(block);
    let count = state::pool::count(state, p);
    let flag = state::pool::taken(state, p, b);
    (b <= count) & (flag == 1)
}
