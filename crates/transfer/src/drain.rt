// Waiting senders are served: "Last in each call, buffers 1 to 4: while the first sender's message fits, it is stored and that wait ends with 0."
ghost use Rattle.model.specs.Sizes.{buffers};
ghost use Rattle.model.specs.Valid.{From};
ghost use Rattle.model.specs.Act.{store_first, drain as drained};
ghost use Rattle.model.specs.Words.{kernel};
ghost use Rattle.act.specs.Held.{areas, Does};
ghost use Rattle.transfer.specs.Serving.{FirstSender, served};

use super::store::store_message;
use act::wait::end_wait;
use message::outbox::outbox_message;
use model::code::E_OK;
use model::number::{BufferNumber, TaskNumber};
use model::sizes::{BUFFERS, TASKS};
use search::sender::{anyone_sends, first_fitting};
use state::layout::Words;

// The first sender's message is stored, and its wait ends.
fn store_first(
    state: &mut Words,
    store: &mut [u8],
    outbox: &mut [u8],
    log: &mut [u8],
    at: usize,
    b: BufferNumber,
    t: TaskNumber,
) -> usize
    requires { FirstSender (kernel state.old) b.0 t.0 }
    ensures { Does (λ w. store_first w b.0) (areas state.old store.old outbox.old log.old) at (areas state.new store.new outbox.new log.new) result }
{
    let n = state::task::argument(state, t);
    let m = outbox_message(outbox, t, n as usize);
    store_message(state, store, b, m);
    end_wait(state, outbox, log, at, t, E_OK)
}

// The senders of a buffer, one after the other: no queue has more tasks than there are.
fn drain_buffer(
    state: &mut Words,
    store: &mut [u8],
    outbox: &mut [u8],
    log: &mut [u8],
    at: usize,
    b: BufferNumber,
) -> usize
    ensures { Does (served b.0) (areas state.old store.old outbox.old log.old) at (areas state.new store.new outbox.new log.new) result }
{
    let mut next = at;
    for _ in 0..TASKS {
        let found = first_fitting(state, b);
        let Some(t) = found else {
            return next;
        };
        next = store_first(state, store, outbox, log, next, b, t);
    }
    next
}

// The same by the buffer's number. Each number that is asked for names a buffer.
fn drain_numbered(
    state: &mut Words,
    store: &mut [u8],
    outbox: &mut [u8],
    log: &mut [u8],
    at: usize,
    n: u32,
) -> usize
    requires { From 1 buffers n }
    ensures { Does (served n) (areas state.old store.old outbox.old log.old) at (areas state.new store.new outbox.new log.new) result }
{
    let found = BufferNumber::from_word(n);
    let Some(b) = found else {
        return at;
    };
    drain_buffer(state, store, outbox, log, at, b)
}

// Every buffer in order; mostly nobody sends, and there is nothing to do.
pub fn drain(
    state: &mut Words,
    store: &mut [u8],
    outbox: &mut [u8],
    log: &mut [u8],
    at: usize,
) -> usize
    ensures { Does drained (areas state.old store.old outbox.old log.old) at (areas state.new store.new outbox.new log.new) result }
{
    if !anyone_sends(state) {
        return at;
    }
    let mut next = at;
    for n in 0..BUFFERS {
        next = drain_numbered(state, store, outbox, log, next, n + 1);
    }
    next
}
