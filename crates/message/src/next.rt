// A message, shown where it lies.
ghost use Rattle.std.specs.Prelude.{◌≡◌};
ghost use Rattle.message.specs.NextMessage.{message_at};

use super::outbox::outbox_message;
use super::store::store_oldest;
use model::number::{BufferNumber, TaskNumber};

// Where a message lies: in the store, the oldest of a buffer; in the outbox, a sender's, of so many bytes; or nowhere. An Option
// of the two places would be taken apart in two steps where this takes one, so it is no plainer.
#[derive(Clone, Copy)]
pub enum Location {
    Stored(BufferNumber),
    Sent(TaskNumber, u32),
    Nowhere,
}

// A part of the store or of the outbox, whichever holds the message.
#[tactic(auto, unfolding(crate::specs::NextMessage::message_at))]
pub fn message_at<'a>(store: &'a [u8], outbox: &'a [u8], at: Location) -> &'a [u8]
    ensures { result.now ≡ message_at at store.now outbox.now }
{
    match at {
        Location::Stored(b) => store_oldest(store, b),
        Location::Sent(t, n) => outbox_message(outbox, t, n as usize),
        Location::Nowhere => &[],
    }
}
