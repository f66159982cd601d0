// The row of a buffer.
ghost use Rattle.std.specs.Prelude.{◌≡◌, length};
ghost use Rattle.message.specs.NextMessage.{message_at, located};
ghost use Rattle.model.specs.Lent.{lent};
ghost use Rattle.model.specs.Sizes.{buffers};
ghost use Rattle.model.specs.Words.{kernel};
ghost use Rattle.status.specs.Blank.{blank_buffer};
ghost use Rattle.status.specs.Rows.{AskedOf, is_there, buffer_row};

use super::row::{BufferRow, Row};
use super::waiter::first_of;
use message::next::Location;
use message::outbox::outbox_message;
use message::room::room;
use message::store::store_oldest;
use model::number::{Buffer, BufferNumber};
use model::sizes::LARGEST_WORD;
use state::layout::Words;
use state::task::{RECEIVING, SENDING};
use valid::next::located;

// How many bytes the next message has, 0 if there is none.
fn next_length(state: &Words, store: &[u8], outbox: &[u8], b: BufferNumber) -> u32
    ensures { result ≡ length (message_at (located (kernel state.now) b.0) store.now outbox.now) }
{
    let at = located(state, b);
    match at {
        Location::Stored(b) => store_oldest(store, b).len() as u32,
        Location::Sent(t, n) => outbox_message(outbox, t, n as usize).len() as u32,
        Location::Nowhere => 0,
    }
}

#[tactic(auto, unfolding(crate::specs::Rows::is_there))]
impl Row for BufferRow {
    ghost exists = { λ w. is_there (kernel w).buffers.exists };

    ghost row_of = { λ w store outbox. buffer_row (lent w store outbox) };

    ghost blank = { blank_buffer };

    type Of = Buffer;

    fn exists(state: &Words, b: BufferNumber) -> bool
        ensures { result ≡ is_there (kernel state.now).buffers.exists b.0 }
    {
        state::buffer::exists(state, b) != 0
    }

    fn row(state: &Words, store: &[u8], outbox: &[u8], b: BufferNumber) -> BufferRow
        requires { AskedOf buffers (is_there (kernel state.now).buffers.exists) state.now store.now outbox.now b.0 }
        ensures { result ≡ buffer_row (lent state.now store.now outbox.now) b.0 }
    {
        let bufsz = state::buffer::bufsz(state, b);
        let used = state::buffer::used(state, b);
        BufferRow {
            free: bufsz - used,
            room: room(bufsz, used, state::buffer::maxmsz(state, b)),
            next: next_length(state, store, outbox, b),
            receiver: first_of(state, RECEIVING, b.word()),
            sender: first_of(state, SENDING, b.word()),
        }
    }

    fn blank() -> BufferRow {
        BufferRow {
            free: LARGEST_WORD,
            room: -1,
            next: LARGEST_WORD,
            receiver: LARGEST_WORD,
            sender: LARGEST_WORD,
        }
    }
}
