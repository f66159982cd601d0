// del_mbf: a message buffer is deleted, and the waits there end.
ghost use Rattle.std.specs.Prelude.{◌≡◌, ◌++◌};
ghost use Rattle.std.proofs.Math.Option.{none};
ghost use Rattle.model.specs.Sizes.{buffers};
ghost use Rattle.model.specs.Code.{E_DLT, number};
ghost use Rattle.model.specs.Refusal.{first_refusal, deletion_refusals};
ghost use Rattle.model.specs.Act.{end_waits};
ghost use Rattle.model.specs.Effect.{del_mbf};
ghost use Rattle.model.specs.Errors.{refusal_of};
ghost use Rattle.model.specs.Words.{kernel};
ghost use Rattle.order.specs.Order.{Tasks};
ghost use Rattle.act.specs.Held.{areas, Does, DoesInStore, DoesInLog};
ghost use Rattle.reply.specs.Replies.{Carries};
ghost use Rattle.buffer.specs.Deletion.{struck_out, deleted};

use super::create::set_row;
use act::waits::end_waits;
use message::store::store_clear;
use model::call::Answer;
use model::code::{E_DLT, E_OK, Error};
use model::number::{BufferNumber, TaskNumber};
use model::sizes::PLACES;
use order::queue_order;
use reply::Reply;
use reply::deletion::refuse_deletion;
use script::log::log_answer;
use state::buffer::{exists, set_used};
use state::layout::Words;
use state::task::{RECEIVING, SENDING};

pub fn refuse_del_mbf(state: &Words, buffer: i32) -> Result<(), Error>
    ensures { refusal_of result ≡ first_refusal (deletion_refusals buffers (kernel state.now).buffers.exists buffer) }
{
    refuse_deletion(buffer, |b: BufferNumber| exists(state, b))
}

// "stored messages vanish"
fn strike_out(state: &mut Words, store: &mut [u8], b: BufferNumber)
    ensures { DoesInStore (struck_out b.0) state.old store.old state.new store.new }
{
    set_row(state, b, 0, 0, 0, 0);
    set_used(state, b, 0);
    store_clear(store, b);
}

// The waits of some tasks, and then those of others.
fn end_both(
    state: &mut Words,
    outbox: &mut [u8],
    log: &mut [u8],
    at: usize,
    first: &[u32],
    second: &[u32],
) -> usize
    requires tasks { Tasks first.now }
    requires tasks_2 { Tasks second.now }
    ensures { DoesInLog (λ w. end_waits w (first.now ++ second.now) E_DLT) state.old outbox.old log.old at state.new outbox.new log.new result }
{
    let next = end_waits(state, outbox, log, at, first, E_DLT);
    end_waits(state, outbox, log, next, second, E_DLT)
}

// "receivers before senders", each "in the line order that stood when the call began".
fn delete(
    state: &mut Words,
    store: &mut [u8],
    outbox: &mut [u8],
    log: &mut [u8],
    at: usize,
    b: BufferNumber,
) -> usize
    ensures { Does (deleted b.0) (areas state.old store.old outbox.old log.old) at (areas state.new store.new outbox.new log.new) result }
{
    let mut receivers = [0u32; PLACES];
    let r = queue_order(state, RECEIVING, b.word(), &mut receivers);
    let mut senders = [0u32; PLACES];
    let s = queue_order(state, SENDING, b.word(), &mut senders);
    strike_out(state, store, b);
    end_both(state, outbox, log, at, &receivers[r..], &senders[s..])
}

// The field names a buffer, since nothing refuses the call.
pub fn del_mbf(
    state: &mut Words,
    store: &mut [u8],
    outbox: &mut [u8],
    log: &mut [u8],
    at: usize,
    caller: TaskNumber,
    buffer: i32,
) -> Reply
    requires { first_refusal (deletion_refusals buffers (kernel state.old).buffers.exists buffer) ≡ none }
    ensures { Carries caller.0 (λ w. del_mbf w (number buffer)) (areas state.old store.old outbox.old log.old) at (areas state.new store.new outbox.new log.new) result }
{
    let answer = Answer::Code(E_OK);
    let found = BufferNumber::from_field(buffer);
    let Some(b) = found else {
        return Reply {
            answer: answer,
            next: at,
        };
    };
    let waits = log_answer(log, at, answer);
    let next = delete(state, store, outbox, log, waits, b);
    Reply {
        answer: answer,
        next: next,
    }
}
