// A wait begins and ends. A wait's end is logged at once; the answer is where the log goes on.
ghost use Rattle.std.specs.Prelude.{◌≡◌};
ghost use Rattle.model.specs.Facts.{queue};
ghost use Rattle.model.specs.World.{Nothing, Message, Block};
ghost use Rattle.model.specs.Act.{millis as milliseconds, wait as waiting, end_wait};
ghost use Rattle.model.specs.Words.{kernel};
ghost use Rattle.state.specs.Words.{Represents};
ghost use Rattle.act.specs.Held.{DoesInWords, DoesInLog};
ghost use Rattle.act.specs.Ends.{wait_begun, Leaves, Unblocks};

use message::outbox::outbox_clear;
use model::number::{TaskNumber, natural};
use model::sizes::ENDLESS;
use priority::recompute;
use queue::arrival::arrive;
use script::log::{log_block, log_ended, log_message};
use state::layout::Words;
use state::task::{LOCKING, READY, SENDING};

// The milliseconds of a timeout: -1 and below stand for no end.
fn millis(timeout: i32) -> u32
    ensures { result ≡ milliseconds timeout }
{
    if timeout < 0 {
        ENDLESS
    } else {
        natural(timeout)
    }
}

// A task begins to wait in the queue of an object, with the argument of the wait; current priorities stay as they are.
pub fn begin_wait(
    state: &mut Words,
    t: TaskNumber,
    place: u32,
    object: u32,
    argument: u32,
    timeout: i32,
)
    ensures { Represents state.new (wait_begun (kernel state.old) t.0 (queue place object) argument timeout) }
{
    arrive(state, t, place, object);
    state::task::set_argument(state, t, argument);
    state::task::set_left(state, t, millis(timeout));
}

// The same, and priorities are settled if the wait is for a mutex.
pub fn wait(state: &mut Words, t: TaskNumber, place: u32, object: u32, argument: u32, timeout: i32)
    ensures { DoesInWords (λ w. waiting w t.0 (queue place object) argument timeout) state.old state.new }
{
    begin_wait(state, t, place, object, argument, timeout);
    if place == LOCKING {
        recompute(state);
    }
}

// A task's wait is over, whatever ended it: its fields are cleared, and a sender's bytes leave the outbox.
pub(crate) fn leave(state: &mut Words, outbox: &mut [u8], t: TaskNumber)
    ensures { Leaves t.0 state.old outbox.old state.new outbox.new }
{
    let place = state::task::place(state, t);
    state::task::set_object(state, t, 0);
    state::task::set_argument(state, t, 0);
    state::task::set_left(state, t, 0);
    if place == SENDING {
        outbox_clear(outbox, t);
    }
}

// The same, and the task is ready again.
fn unblock(state: &mut Words, outbox: &mut [u8], t: TaskNumber)
    ensures { Unblocks t.0 state.old outbox.old state.new outbox.new }
{
    let stood = state::task::place(state, t);
    leave(state, outbox, t);
    arrive(state, t, READY, 0);
    if stood == LOCKING {
        recompute(state);
    }
}

// A wait ends with a code and delivers nothing.
pub fn end_wait(
    state: &mut Words,
    outbox: &mut [u8],
    log: &mut [u8],
    at: usize,
    t: TaskNumber,
    code: i32,
) -> usize
    ensures { DoesInLog (λ w. end_wait w t.0 code Nothing) state.old outbox.old log.old at state.new outbox.new log.new result }
{
    unblock(state, outbox, t);
    log_ended(log, at, t, code)
}

// A wait ends with a code and delivers a message.
pub fn end_wait_message(
    state: &mut Words,
    outbox: &mut [u8],
    log: &mut [u8],
    at: usize,
    t: TaskNumber,
    code: i32,
    message: &[u8],
) -> usize
    ensures { DoesInLog (λ w. end_wait w t.0 code (Message message.now)) state.old outbox.old log.old at state.new outbox.new log.new result }
{
    unblock(state, outbox, t);
    let next = log_ended(log, at, t, code);
    log_message(log, next, t, message)
}

// A wait ends with a code and delivers a block.
pub fn end_wait_block(
    state: &mut Words,
    outbox: &mut [u8],
    log: &mut [u8],
    at: usize,
    t: TaskNumber,
    code: i32,
    block: u32,
) -> usize
    ensures { DoesInLog (λ w. end_wait w t.0 code (Block block)) state.old outbox.old log.old at state.new outbox.new log.new result }
{
    unblock(state, outbox, t);
    let next = log_ended(log, at, t, code);
    log_block(log, next, t, block)
}
