// The rows of the four tables. specs/Rows.antt says what each field holds. C sees them as they stand here, so a task is a number, 0 for none, and kinds and
// states are numbers.
ghost use Rattle.std.specs.Prelude.{ℕ, List, Bool, ◌≡◌};
ghost use Rattle.status.specs.Rows.{AskedOf};

use model::number::{Number, Object};
use state::layout::Words;

// A kind of row: which objects of its kind exist, what the row of each holds, and the row that none of a valid state has.
pub trait Row: Copy {
    ghost exists: { List ℕ → ℕ → Bool };

    ghost row_of: { List ℕ → List ℕ → List ℕ → ℕ → Self };

    ghost blank: { Self };

    // The kind of the objects.
    type Of: Object + Copy;

    // Whether there is such an object.
    fn exists(state: &Words, n: Number<Self::Of>) -> bool
        ensures { result ≡ exists state.now n.0 };

    // The row of an object that exists.
    fn row(state: &Words, store: &[u8], outbox: &[u8], n: Number<Self::Of>) -> Self
        requires { AskedOf Self.Of.LAST (exists state.now) state.now store.now outbox.now n.0 }
        ensures { result ≡ row_of state.now store.now outbox.now n.0 };

    // For a table that is lent to be filled.
    fn blank() -> Self
        ensures { result ≡ blank };
}

// A task's: its state is one of `TTS_..`; kind and object are what it waits for, 0 and 0 if it does not wait; left are the milliseconds left of its
// wait, -1 for one without end.
#[repr(C)]
#[derive(Clone, Copy)]
pub struct TaskRow {
    pub state: u32,
    pub base: u32,
    pub current: u32,
    pub kind: u32,
    pub object: u32,
    pub left: i32,
}

// A mutex's: the task that holds it, and the first that waits for it.
#[repr(C)]
#[derive(Clone, Copy)]
pub struct MutexRow {
    pub holder: u32,
    pub waiter: u32,
}

// A buffer's: the bytes that are free; of a message of maxmsz bytes, how many of them it would leave over, or how many it lacks (below zero); the length of
// the next message; and who waits first to receive and to send.
#[repr(C)]
#[derive(Clone, Copy)]
pub struct BufferRow {
    pub free: u32,
    pub room: i32,
    pub next: u32,
    pub receiver: u32,
    pub sender: u32,
}

// A pool's: how many blocks are free, and the first that waits.
#[repr(C)]
#[derive(Clone, Copy)]
pub struct PoolRow {
    pub free: u32,
    pub waiter: u32,
}

// The states of a task, by the manual's names.
pub const TTS_RUN: u32 = 1;

pub const TTS_RDY: u32 = 2;

pub const TTS_WAI: u32 = 4;

pub const TTS_DMT: u32 = 16;
