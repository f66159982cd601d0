// 01, "Send": "A waiting sender's bytes lie at the start of its part of the bay. All other bytes are zero." The bay is the outbox here.
ghost use Rattle.std.specs.Prelude.{◌≡◌};
ghost use Rattle.model.specs.Sizes.{tasks};
ghost use Rattle.model.specs.Lists.{all, up_to};
ghost use Rattle.model.specs.Valid.{outbox_part};
ghost use Rattle.model.specs.Words.{kernel};

use super::bytes::{all_zero, behind};
use message::outbox::outbox_message;
use model::number::TaskNumber;
use model::sizes::MESSAGE_BYTES;
use state::layout::Words;

// Whether zeros follow the bytes that a task sends; a task that sends nothing has a message of no bytes.
fn part_laid_out(state: &Words, outbox: &[u8], t: TaskNumber) -> bool
    ensures { result ≡ outbox_part (kernel state.now) outbox.now t.0 }
{
    let length = state::task::argument(state, t);
    let part = outbox_message(outbox, t, MESSAGE_BYTES);
    all_zero(behind(part, length as usize))
}

// The same of every task.
pub fn outbox_laid_out(state: &Words, outbox: &[u8]) -> bool
    ensures { result ≡ all (outbox_part (kernel state.now) outbox.now) (up_to tasks) }
{
    TaskNumber::every(|t| part_laid_out(state, outbox, t))
}
