// A buffer's region: packed messages, the oldest first, and zeros behind them. Nothing is asked of a region: what a damaged
// one holds or becomes is what the definitions say, as far as the slice reaches.
ghost use Rattle.std.specs.Prelude.{◌≡◌, length, take};
ghost use Rattle.std.proofs.lemmas.List.Edits.{sets};
ghost use Rattle.model.specs.Lists.{zeros};
ghost use Rattle.model.specs.Message.{packed, appended, oldest_length, oldest, removed};

use super::copy::{copy_in, fill_zero, put_length, shift};
use super::room::{cost, padding};
use model::bytes::byte;

// The first n bytes of m as one packed message at the front of a slice.
fn pack(r: &mut [u8], m: &[u8], n: usize)
    ensures { r.new ≡ sets r.old 0 (packed (take n m.now)) }
{
    let count = n.min(m.len());
    put_length(r, count);
    copy_in(r, 4, m, count);
    fill_zero(r, 4 + count, padding(count));
}

// The first n bytes of m become the newest message, behind the bytes used.
pub fn append(r: &mut [u8], used: usize, m: &[u8], n: usize)
    ensures { r.new ≡ appended r.old used (take n m.now) }
{
    if used < r.len() {
        pack(&mut r[used..], m, n);
    }
}

#[tactic(auto, unfolding(model::specs::Message::oldest_length))]
pub fn oldest_length(r: &[u8]) -> u32
    ensures { result ≡ oldest_length r.now }
{
    u32::from_le_bytes([byte(r, 0), byte(r, 1), byte(r, 2), byte(r, 3)])
}

// The oldest message leaves: the rest moves to the front, and zeros stand where it ended.
pub fn remove(r: &mut [u8])
    ensures { r.new ≡ removed r.old }
{
    let gone = cost(oldest_length(r)).min(r.len());
    shift(r, gone);
    fill_zero(r, r.len() - gone, gone);
}

pub fn clear(r: &mut [u8])
    ensures { r.new ≡ zeros (length r.old) }
{
    r.fill(0);
}

// The oldest message, where it lies.
pub fn oldest<'a>(r: &'a [u8]) -> &'a [u8]
    ensures { result.now ≡ oldest r.now }
{
    let behind = &r[r.len().min(4)..];
    &behind[..behind.len().min(oldest_length(r) as usize)]
}
