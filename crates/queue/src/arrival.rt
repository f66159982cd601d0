// The arrival order, changed in place. A task that arrives stands last and is taken from where it stood; nothing counts up, so the
// order is never used up.
ghost use Rattle.std.specs.Prelude.{◌≤◌};
ghost use Rattle.model.specs.Sizes.{tasks};
ghost use Rattle.model.specs.Facts.{queue};
ghost use Rattle.model.specs.Kernel.{with_arrivals, departed, arrived};
ghost use Rattle.model.specs.Act.{arrive as arriving};
ghost use Rattle.model.specs.Words.{kernel};
ghost use Rattle.state.specs.Words.{Represents};
ghost use Rattle.queue.specs.Arriving.{Kept, Gathered, cleared_from};

use model::number::TaskNumber;
use model::sizes::PLACES;
use ready::renew_bit;
use state::arrival::{set_task, task};
use state::layout::Words;

// One place of the order is seen, when j others have been found: its task is kept behind them, unless it is t or none.
fn keep(state: &mut Words, t: TaskNumber, i: usize, j: usize) -> usize
    requires { j ≤ tasks }
    ensures { Kept t.0 i j state.old state.new result }
{
    let u = task(state, i);
    if u == 0 {
        return j;
    }
    if u == t.word() {
        return j;
    }
    set_task(state, j, u);
    j + 1
}

// The others move to the front, in their order. The answer is how many they are.
fn gather(state: &mut Words, t: TaskNumber) -> usize
    ensures { Gathered t.0 state.old state.new result }
{
    let mut j: usize = 0;
    for i in 0..PLACES {
        j = keep(state, t, i, j);
    }
    j
}

// The places from one on are none's.
fn clear(state: &mut Words, from: usize)
    ensures { Represents state.new (cleared_from from (kernel state.old)) }
{
    for i in from..PLACES {
        set_task(state, i, 0);
    }
}

// The task leaves the arrival order.
pub fn depart(state: &mut Words, t: TaskNumber)
    ensures { Represents state.new (with_arrivals (kernel state.old) (departed t.0 (kernel state.old).arrivals)) }
{
    let j = gather(state, t);
    clear(state, j);
}

// The task becomes the last to have arrived.
pub fn arrive_last(state: &mut Words, t: TaskNumber)
    ensures { Represents state.new (with_arrivals (kernel state.old) (arrived t.0 (kernel state.old).arrivals)) }
{
    let j = gather(state, t);
    set_task(state, j, t.word());
    clear(state, j + 1);
}

// The task arrives in the queue of an object. It becomes ready or is so no more, so the bit of its priority is renewed.
pub fn arrive(state: &mut Words, t: TaskNumber, place: u32, object: u32)
    ensures { Represents state.new (arriving (kernel state.old) t.0 (queue place object)) }
{
    state::task::set_place(state, t, place);
    state::task::set_object(state, t, object);
    arrive_last(state, t);
    renew_bit(state, t);
}
