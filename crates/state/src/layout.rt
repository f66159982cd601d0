// Where each field stands among the words, and the one read and the one store that every accessor is made of. Each field has
// accessors by its own name, since their contracts name its list; one pair with a number for the field could not.
ghost use Rattle.std.specs.Prelude.{◌≡◌, ◌+◌, ◌≤◌, length};
ghost use Rattle.state.specs.Layout.{entry, with_entry};

use model::sizes::{BLOCKS, BUFFERS, MUTEXES, PLACES, POOLS, TASKS};

// How many words a field has: one for each number, and one for 0, which stands for none. The arrival order has a place for each task; the
// bits of all priorities are one word.
pub(crate) const TASK_SLOTS: usize = TASKS as usize + 1;

pub(crate) const ARRIVAL_SLOTS: usize = PLACES;

pub(crate) const BITMAP_SLOTS: usize = 1;

pub(crate) const MUTEX_SLOTS: usize = MUTEXES as usize + 1;

pub(crate) const BUFFER_SLOTS: usize = BUFFERS as usize + 1;

pub(crate) const POOL_SLOTS: usize = POOLS as usize + 1;

pub(crate) const BLOCK_SLOTS: usize = BLOCKS as usize + 1;

pub(crate) const TAKEN_SLOTS: usize = POOL_SLOTS * BLOCK_SLOTS;

// The first word of each field; a field starts where the one before it ends.
pub(crate) const PLACE: usize = 0;

pub(crate) const OBJECT: usize = PLACE + TASK_SLOTS;

pub(crate) const ARGUMENT: usize = OBJECT + TASK_SLOTS;

pub(crate) const INITIAL: usize = ARGUMENT + TASK_SLOTS;

pub(crate) const BASE: usize = INITIAL + TASK_SLOTS;

pub(crate) const CURRENT: usize = BASE + TASK_SLOTS;

pub(crate) const LEFT: usize = CURRENT + TASK_SLOTS;

pub(crate) const ARRIVALS: usize = LEFT + TASK_SLOTS;

pub(crate) const BITMAP: usize = ARRIVALS + ARRIVAL_SLOTS;

pub(crate) const MUTEX_EXISTS: usize = BITMAP + BITMAP_SLOTS;

pub(crate) const MUTEX_ATTRIBUTE: usize = MUTEX_EXISTS + MUTEX_SLOTS;

pub(crate) const CEILING: usize = MUTEX_ATTRIBUTE + MUTEX_SLOTS;

pub(crate) const HOLDER: usize = CEILING + MUTEX_SLOTS;

pub(crate) const BUFFER_EXISTS: usize = HOLDER + MUTEX_SLOTS;

pub(crate) const BUFFER_ATTRIBUTE: usize = BUFFER_EXISTS + BUFFER_SLOTS;

pub(crate) const BUFSZ: usize = BUFFER_ATTRIBUTE + BUFFER_SLOTS;

pub(crate) const MAXMSZ: usize = BUFSZ + BUFFER_SLOTS;

pub(crate) const USED: usize = MAXMSZ + BUFFER_SLOTS;

pub(crate) const POOL_EXISTS: usize = USED + BUFFER_SLOTS;

pub(crate) const POOL_ATTRIBUTE: usize = POOL_EXISTS + POOL_SLOTS;

pub(crate) const COUNT: usize = POOL_ATTRIBUTE + POOL_SLOTS;

pub(crate) const SIZE: usize = COUNT + POOL_SLOTS;

pub(crate) const TAKEN: usize = SIZE + POOL_SLOTS;

// The words of a state, and an area of as many.
pub const WORDS: usize = TAKEN + TAKEN_SLOTS;

pub type Words = [u32; WORDS];

// An entry of a field of so many slots; 0 outside them.
pub(crate) fn get(state: &Words, at: usize, slots: usize, i: usize) -> u32
    requires { at + slots ≤ length state.now }
    ensures { result ≡ entry state.now at slots i }
{
    if i < slots { state[at + i] } else { 0 }
}

// An entry of a field is stored; outside the slots nothing is done.
pub(crate) fn put(state: &mut Words, at: usize, slots: usize, i: usize, v: u32)
    requires { at + slots ≤ length state.old }
    ensures { state.new ≡ with_entry state.old at slots i v }
{
    if i < slots {
        state[at + i] = v;
    }
}
