// The kernel's state: lent words of one fixed length, read as the kernel of the definitions. A getter and a setter for each field stand
// in the modules; the state is made here.
#![tactic(auto)]

pub mod arrival;
pub mod bitmap;
pub mod buffer;
pub mod layout;
pub mod mutex;
pub mod none;
pub mod pool;
pub mod task;

ghost use Rattle.std.specs.Prelude.{◌≡◌, Ok};
ghost use Rattle.model.specs.Kernel.{fresh};
ghost use Rattle.model.specs.Words.{words};
ghost use Rattle.state.specs.Fresh.{Filling};

use layout::{TASK_SLOTS, Words, put};

// The task of a fresh state, and its priority.
const FIRST: usize = 1;

const PRIORITY: u32 = 8;

const PRIORITY_BIT: u32 = 1 << (PRIORITY - 1);

// An area that has not the length of a state is left alone.
#[derive(Clone, Copy)]
pub struct WrongLength;

// A lent area becomes the fresh state: one task, which runs, and nothing else.
pub fn fresh(state: &mut [u32]) -> Result<(), WrongLength>
    ensures { Filling state.old result state.new }
{
    let Some(words) = state.as_mut_array() else {
        return Err(WrongLength);
    };
    make_fresh(words);
    Ok(())
}

// The same of an area that has a state's length: nothing can be refused. It is filled as `fresh` fills it, so what is said of words that `fresh` has filled
// holds of these.
pub fn make_fresh(state: &mut Words)
    ensures fresh { state.new ≡ words fresh }
    ensures filled { Filling state.old (Ok tt) state.new }
{
    *state = [0; layout::WORDS];
    put(state, layout::PLACE, TASK_SLOTS, FIRST, task::READY);
    put(state, layout::INITIAL, TASK_SLOTS, FIRST, PRIORITY);
    put(state, layout::BASE, TASK_SLOTS, FIRST, PRIORITY);
    put(state, layout::CURRENT, TASK_SLOTS, FIRST, PRIORITY);
    put(
        state,
        layout::ARRIVALS,
        layout::ARRIVAL_SLOTS,
        0,
        FIRST as u32,
    );
    put(state, layout::BITMAP, layout::BITMAP_SLOTS, 0, PRIORITY_BIT);
}
