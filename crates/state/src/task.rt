// The tasks' fields. A number outside the range of tasks reads as 0, and a store there does nothing; so a caller has nothing to show, here and
// in the other modules of fields.
ghost use Rattle.std.specs.Prelude.{◌≡◌, ◌∷◌, replicate};
ghost use Rattle.model.specs.Sizes.{tasks};
ghost use Rattle.model.specs.Lists.{◌!◌};
ghost use Rattle.model.specs.Kernel.{with_place, with_object, with_argument, with_initial, with_base, with_current, with_currents, with_left};
ghost use Rattle.model.specs.Words.{kernel};
ghost use Rattle.state.specs.Words.{Represents};

use super::layout::{
    ARGUMENT, ARRIVAL_SLOTS, BASE, CURRENT, INITIAL, LEFT, OBJECT, PLACE, TASK_SLOTS, Words, get,
    put,
};
use model::number::TaskNumber;

// Where a task stands: absent, dormant, or in a queue: ready, or waiting to lock a mutex, to send, to receive, to get a block.
pub const ABSENT: u32 = 0;

pub const DORMANT: u32 = 1;

pub const READY: u32 = 2;

pub const LOCKING: u32 = 3;

pub const SENDING: u32 = 4;

pub const RECEIVING: u32 = 5;

pub const GETTING: u32 = 6;

// Where the task stands: one of the places above.
pub fn place(state: &Words, t: TaskNumber) -> u32
    ensures { result ≡ (kernel state.now).tasks.place ! t.0 }
{
    get(state, PLACE, TASK_SLOTS, t.word() as usize)
}

pub fn set_place(state: &mut Words, t: TaskNumber, v: u32)
    ensures { Represents state.new (with_place (kernel state.old) t.0 v) }
{
    put(state, PLACE, TASK_SLOTS, t.word() as usize, v);
}

// The number of the object waited for.
pub fn object(state: &Words, t: TaskNumber) -> u32
    ensures { result ≡ (kernel state.now).tasks.object ! t.0 }
{
    get(state, OBJECT, TASK_SLOTS, t.word() as usize)
}

pub fn set_object(state: &mut Words, t: TaskNumber, v: u32)
    ensures { Represents state.new (with_object (kernel state.old) t.0 v) }
{
    put(state, OBJECT, TASK_SLOTS, t.word() as usize, v);
}

// Of the wait: a sender's message length.
pub fn argument(state: &Words, t: TaskNumber) -> u32
    ensures { result ≡ (kernel state.now).tasks.argument ! t.0 }
{
    get(state, ARGUMENT, TASK_SLOTS, t.word() as usize)
}

pub fn set_argument(state: &mut Words, t: TaskNumber, v: u32)
    ensures { Represents state.new (with_argument (kernel state.old) t.0 v) }
{
    put(state, ARGUMENT, TASK_SLOTS, t.word() as usize, v);
}

// The initial priority.
pub fn initial(state: &Words, t: TaskNumber) -> u32
    ensures { result ≡ (kernel state.now).tasks.initial ! t.0 }
{
    get(state, INITIAL, TASK_SLOTS, t.word() as usize)
}

pub fn set_initial(state: &mut Words, t: TaskNumber, v: u32)
    ensures { Represents state.new (with_initial (kernel state.old) t.0 v) }
{
    put(state, INITIAL, TASK_SLOTS, t.word() as usize, v);
}

// The base priority.
pub fn base(state: &Words, t: TaskNumber) -> u32
    ensures { result ≡ (kernel state.now).tasks.base ! t.0 }
{
    get(state, BASE, TASK_SLOTS, t.word() as usize)
}

pub fn set_base(state: &mut Words, t: TaskNumber, v: u32)
    ensures { Represents state.new (with_base (kernel state.old) t.0 v) }
{
    put(state, BASE, TASK_SLOTS, t.word() as usize, v);
}

// The current priority.
pub fn current(state: &Words, t: TaskNumber) -> u32
    ensures { result ≡ (kernel state.now).tasks.current ! t.0 }
{
    get(state, CURRENT, TASK_SLOTS, t.word() as usize)
}

pub fn set_current(state: &mut Words, t: TaskNumber, v: u32)
    ensures { Represents state.new (with_current (kernel state.old) t.0 v) }
{
    put(state, CURRENT, TASK_SLOTS, t.word() as usize, v);
}

// Milliseconds left of a wait; the largest word for a wait without end, 0 for no wait.
pub fn left(state: &Words, t: TaskNumber) -> u32
    ensures { result ≡ (kernel state.now).tasks.left ! t.0 }
{
    get(state, LEFT, TASK_SLOTS, t.word() as usize)
}

pub fn set_left(state: &mut Words, t: TaskNumber, v: u32)
    ensures { Represents state.new (with_left (kernel state.old) t.0 v) }
{
    put(state, LEFT, TASK_SLOTS, t.word() as usize, v);
}

// One entry of the current priorities, also that of none.
fn put_current(state: &mut Words, i: usize, v: u32)
    ensures { Represents state.new (with_current (kernel state.old) i v) }
{
    put(state, CURRENT, TASK_SLOTS, i, v);
}

// Every task's current priority becomes one number; none's is 0. All are worked out anew from here.
pub fn set_every_current(state: &mut Words, v: u32)
    ensures { Represents state.new (with_currents (kernel state.old) (0 ∷ replicate tasks v)) }
{
    put_current(state, 0, 0);
    for n in 0..ARRIVAL_SLOTS {
        put_current(state, n + 1, v);
    }
}
