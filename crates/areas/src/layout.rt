// 01, "Send": "Stored oldest first, packed: length (4 bytes), bytes, zeros." Whether each buffer's region of the store is so laid out.
ghost use Rattle.std.specs.Prelude.{◌≡◌};
ghost use Rattle.model.specs.Sizes.{buffers, region_bytes};
ghost use Rattle.model.specs.Lists.{all, up_to};
ghost use Rattle.model.specs.Valid.{layout, region_layout};
ghost use Rattle.model.specs.Words.{kernel};
ghost use Rattle.areas.specs.Messages.{oldest_laid_out};

use super::bytes::{all_zero, behind, first};
use message::region::oldest_length;
use message::room::cost;
use message::store::store_region;
use model::number::BufferNumber;
use model::sizes::REGION_BYTES;
use state::layout::Words;

// Whether the oldest message has 1 to maxmsz bytes, costs no more than is used, and is followed by zeros up to its cost.
#[tactic(auto, unfolding(crate::specs::Messages::oldest_laid_out))]
fn oldest_laid_out(r: &[u8], maxmsz: u32, used: usize) -> bool
    ensures { result ≡ oldest_laid_out maxmsz used r.now }
{
    let length = oldest_length(r);
    let cost = cost(length);
    let message = first(r, cost);
    let pad = behind(message, 4 + length as usize);
    (1 <= length) & (length <= maxmsz) & (cost <= used) & all_zero(pad)
}

// Message after message as long as bytes are used, at most as many as a region has bytes; the bytes behind them are zero.
pub fn region_layout(r: &[u8], maxmsz: u32, used: u32) -> bool
    ensures { result ≡ layout region_bytes maxmsz used r.now }
{
    let mut rest = r;
    let mut left = used as usize;
    for _ in 0..REGION_BYTES {
        if left == 0 {
            break;
        }
        if !oldest_laid_out(rest, maxmsz, left) {
            return false;
        }
        let gone = cost(oldest_length(rest));
        rest = behind(rest, gone);
        left -= gone;
    }
    (left == 0) & all_zero(rest)
}

fn region_laid_out(state: &Words, store: &[u8], b: BufferNumber) -> bool
    ensures { result ≡ region_layout (kernel state.now) store.now b.0 }
{
    let maxmsz = state::buffer::maxmsz(state, b);
    let used = state::buffer::used(state, b);
    region_layout(store_region(store, b), maxmsz, used)
}

// The same of every buffer.
pub fn regions_laid_out(state: &Words, store: &[u8]) -> bool
    ensures { result ≡ all (region_layout (kernel state.now) store.now) (up_to buffers) }
{
    BufferNumber::every(|b| region_laid_out(state, store, b))
}
