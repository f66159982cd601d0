// 01, "Sound": who may not wait at a pool or a buffer, since what it waits for is there. None's entries are seen to be 0 before these
// are called.
ghost use Rattle.std.specs.Prelude.{◌≡◌, eqb};
ghost use Rattle.model.specs.Sizes.{tasks};
ghost use Rattle.model.specs.Lists.{all, up_to};
ghost use Rattle.model.specs.Refusal.{free_block};
ghost use Rattle.model.specs.Valid.{BufferLists, PoolLists, getting_task, receiving_task, first_sender};
ghost use Rattle.model.specs.Words.{kernel};
ghost use Rattle.valid.specs.Parts.{no_sender};

use super::entry;
use model::number::{BufferNumber, PoolNumber, TaskNumber};
use search::block::free_block;
use search::sender::first_fitting;
use state::layout::Words;
use state::task::{GETTING, RECEIVING, SENDING};

// Whether a pool has no free block, by a word; where no pool is named, no block is free.
fn none_free(state: &Words, n: u32) -> bool
    requires { PoolLists (kernel state.now).pools }
    ensures { result ≡ eqb (free_block (kernel state.now) n) 0 }
{
    let found = PoolNumber::from_word(n);
    let Some(p) = found else {
        return true;
    };
    free_block(state, p) == 0
}

// "no waiters at [..] a pool with free blocks".
pub(crate) fn getting_task(state: &Words, t: TaskNumber) -> bool
    requires { PoolLists (kernel state.now).pools }
    ensures { result ≡ getting_task (kernel state.now) t.0 }
{
    let place = state::task::place(state, t);
    let object = state::task::object(state, t);
    (place != GETTING) | none_free(state, object)
}

// Whether a task is no sender at a buffer.
fn no_sender(state: &Words, b: u32, s: TaskNumber) -> bool
    ensures { result ≡ no_sender (kernel state.now) b s.0 }
{
    let place = state::task::place(state, s);
    let object = state::task::object(state, s);
    (place != SENDING) | (object != b)
}

fn no_senders(state: &Words, b: u32) -> bool
    ensures { result ≡ all (no_sender (kernel state.now) b) (up_to tasks) }
{
    TaskNumber::every(move |s| no_sender(state, b, s))
}

// "no receivers beside messages or senders".
pub(crate) fn receiving_task(state: &Words, t: TaskNumber) -> bool
    requires { BufferLists (kernel state.now).buffers }
    ensures { result ≡ receiving_task (kernel state.now) t.0 }
{
    let place = state::task::place(state, t);
    let object = state::task::object(state, t);
    let used = entry::used(state, object);
    (place != RECEIVING) | (used == 0) & no_senders(state, object)
}

// "no first sender that fits".
pub(crate) fn first_sender(state: &Words, b: BufferNumber) -> bool
    ensures { result ≡ first_sender (kernel state.now) b.0 }
{
    match first_fitting(state, b) {
        Some(_) => false,
        None => true,
    }
}
