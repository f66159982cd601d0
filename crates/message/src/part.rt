// Parts of an area, all of one size and counted from 1, as store and outbox are cut.
ghost use Rattle.std.specs.Prelude.{ℕ};
ghost use Rattle.model.specs.Sizes.{region_bytes, message_bytes};
ghost use Rattle.message.specs.Parts.{Bounds};

use model::number::{Buffer, Number, Task};
use model::sizes::{MESSAGE_BYTES, REGION_BYTES};
use std::ops::Range;

// A kind of object that has a part of an area for each, and how many bytes a part has.
pub(crate) trait Share {
    ghost SIZE: { ℕ };

    const SIZE: usize;
}

// A buffer's region of the store.
impl Share for Buffer {
    ghost SIZE = { region_bytes };

    const SIZE: usize = REGION_BYTES;
}

// A task's part of the outbox.
impl Share for Task {
    ghost SIZE = { message_bytes };

    const SIZE: usize = MESSAGE_BYTES;
}

// Where an object's part lies in an area of this length, within it. There is no part 0; for the definitions it lies where part 1 does.
pub(crate) fn part_of<K: Share>(n: Number<K>, length: usize) -> Range<usize>
    ensures { Bounds K.SIZE n.0 length result.start result.end }
{
    let before = n.word().saturating_sub(1) as usize;
    let start = before.saturating_mul(K::SIZE).min(length);
    start..start + K::SIZE.min(length - start)
}
