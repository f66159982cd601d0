// The store: a region for each buffer, in order. Each function lends one buffer's region, the middle part of the store, and
// nothing else of it.
// Nothing is asked of the store or of the number: where the number is above the last, or the store is too short, the part that is lent is
// shorter or empty, and so is the definition's region.
ghost use Rattle.std.specs.Prelude.{◌≡◌, take};
ghost use Rattle.model.specs.Sizes.{region_bytes};
ghost use Rattle.model.specs.Lists.{zeros};
ghost use Rattle.model.specs.Message.{appended, oldest_length, oldest, removed, region, with_region};

use super::part::part_of;
use super::region::{append, clear, oldest, oldest_length, remove};
use model::number::BufferNumber;

pub fn store_append(store: &mut [u8], b: BufferNumber, used: usize, m: &[u8], n: usize)
    ensures { store.new ≡ with_region b.0 store.old (appended (region b.0 store.old) used (take n m.now)) }
{
    let part = part_of(b, store.len());
    append(&mut store[part], used, m, n);
}

pub fn store_remove(store: &mut [u8], b: BufferNumber)
    ensures { store.new ≡ with_region b.0 store.old (removed (region b.0 store.old)) }
{
    let part = part_of(b, store.len());
    remove(&mut store[part]);
}

pub fn store_clear(store: &mut [u8], b: BufferNumber)
    ensures { store.new ≡ with_region b.0 store.old (zeros region_bytes) }
{
    let part = part_of(b, store.len());
    clear(&mut store[part]);
}

// A buffer's region, where it lies.
pub fn store_region<'a>(store: &'a [u8], b: BufferNumber) -> &'a [u8]
    ensures { result.now ≡ region b.0 store.now }
{
    &store[part_of(b, store.len())]
}

pub fn store_oldest_length(store: &[u8], b: BufferNumber) -> u32
    ensures { result ≡ oldest_length (region b.0 store.now) }
{
    oldest_length(store_region(store, b))
}

// A buffer's oldest message, where it lies.
pub fn store_oldest<'a>(store: &'a [u8], b: BufferNumber) -> &'a [u8]
    ensures { result.now ≡ oldest (region b.0 store.now) }
{
    oldest(store_region(store, b))
}
