// The arrival order: the started tasks, each once, the longest-standing first; then zeros.
ghost use Rattle.std.specs.Prelude.{◌≡◌};
ghost use Rattle.model.specs.Lists.{◌!◌};
ghost use Rattle.model.specs.Words.{kernel};
ghost use Rattle.state.specs.Words.{with_arrival, Represents};

use super::layout::{ARRIVAL_SLOTS, ARRIVALS, Words, get, put};

// The number of the task at a place of the order, counted from 0; 0 for none.
pub fn task(state: &Words, place: usize) -> u32
    ensures { result ≡ (kernel state.now).arrivals ! place }
{
    get(state, ARRIVALS, ARRIVAL_SLOTS, place)
}

pub fn set_task(state: &mut Words, place: usize, v: u32)
    ensures { Represents state.new (with_arrival (kernel state.old) place v) }
{
    put(state, ARRIVALS, ARRIVAL_SLOTS, place, v);
}
