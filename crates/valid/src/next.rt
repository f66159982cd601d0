// 01, "Receive": "Before it is taken, the next message, its bytes alone, is shown where it lies, in the store or in the sending bay, without
// copying." What is lent is checked first.
ghost use Rattle.std.specs.Prelude.{◌≡◌};
ghost use Rattle.message.specs.NextMessage.{located};
ghost use Rattle.model.specs.Words.{kernel};
ghost use Rattle.valid.specs.Shown.{shown_location, shown_message};

use super::is_valid;
use message::next::Location;
use model::number::BufferNumber;
use queue::front::front;
use state::layout::Words;
use state::task::SENDING;

// "the oldest stored message, else the first sender's".
pub fn located(state: &Words, b: BufferNumber) -> Location
    ensures { result ≡ located (kernel state.now) b.0 }
{
    if state::buffer::used(state, b) != 0 {
        return Location::Stored(b);
    }
    let found = front(state, SENDING, b.word());
    let Some(t) = found else {
        return Location::Nowhere;
    };
    Location::Sent(t, state::task::argument(state, t))
}

// Where the next message of the buffer that a field names lies, of whatever is lent.
pub fn location(state: &[u32], store: &[u8], outbox: &[u8], n: i32) -> Location
    ensures { result ≡ shown_location state.now store.now outbox.now n }
{
    if !is_valid(state, store, outbox) {
        return Location::Nowhere;
    }
    let Some(words) = state.as_array() else {
        return Location::Nowhere;
    };
    let found = BufferNumber::from_field(n);
    let Some(b) = found else {
        return Location::Nowhere;
    };
    if state::buffer::exists(words, b) == 0 {
        return Location::Nowhere;
    }
    located(words, b)
}

// The next message: a part of the store or of the outbox, whichever holds it; an empty part where there is none.
pub fn next_message<'a>(state: &[u32], store: &'a [u8], outbox: &'a [u8], n: i32) -> &'a [u8]
    ensures { result.now ≡ shown_message state.now store.now outbox.now n }
{
    let at = location(state, store, outbox, n);
    message::next::message_at(store, outbox, at)
}
