// The word that has a bit for each priority: bit p - 1 is set if a task is ready at priority p.
ghost use Rattle.std.specs.Prelude.{◌≡◌};
ghost use Rattle.model.specs.Lists.{◌!◌};
ghost use Rattle.model.specs.Kernel.{with_bitmap};
ghost use Rattle.model.specs.Words.{kernel};
ghost use Rattle.state.specs.Words.{Represents};

use super::layout::{BITMAP, BITMAP_SLOTS, Words, get, put};

pub fn bits(state: &Words) -> u32
    ensures { result ≡ (kernel state.now).bitmap ! 0 }
{
    get(state, BITMAP, BITMAP_SLOTS, 0)
}

pub fn set_bits(state: &mut Words, v: u32)
    ensures { Represents state.new (with_bitmap (kernel state.old) v) }
{
    put(state, BITMAP, BITMAP_SLOTS, 0, v);
}
