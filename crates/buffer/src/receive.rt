// rcv_mbf: the oldest stored message is received, else the first sender's.
ghost use Rattle.std.specs.Prelude.{◌≡◌, length};
ghost use Rattle.std.proofs.Math.Option.{none};
ghost use Rattle.model.specs.Code.{number};
ghost use Rattle.model.specs.World.{running};
ghost use Rattle.model.specs.Refusal.{first_refusal, receive_waits, rcv_mbf_refusals};
ghost use Rattle.model.specs.Effect.{rcv_mbf};
ghost use Rattle.model.specs.Errors.{refusal_of};
ghost use Rattle.model.specs.Words.{kernel};
ghost use Rattle.act.specs.Held.{areas};
ghost use Rattle.reply.specs.Replies.{Carries, CarriesInWords, CarriesInStore, CarriesInLog};
ghost use Rattle.buffer.specs.Branches.{received_stored, received_sent, receive_waiting};
ghost use Rattle.buffer.specs.Stored.{Answerable};

use act::wait::{end_wait, wait};
use message::outbox::outbox_message;
use message::store::{store_oldest, store_oldest_length};
use model::call::Answer;
use model::code::{E_OK, Error};
use model::number::{BufferNumber, TaskNumber};
use queue::front::front;
use reply::Reply;
use reply::field::{answer_number, bad_timeout, no_time};
use script::log::{log_answer, log_message};
use state::buffer::{exists, used};
use state::layout::Words;
use state::task::{RECEIVING, SENDING, argument};
use transfer::store::take_oldest;

// There is neither a stored message nor a sender.
fn receive_waits(state: &Words, b: BufferNumber) -> bool
    ensures { result ≡ receive_waits (kernel state.now) b.0 }
{
    if used(state, b) != 0 {
        return false;
    }
    let found = front(state, SENDING, b.word());
    match found {
        Some(_) => false,
        None => true,
    }
}

pub fn refuse_rcv_mbf(state: &Words, buffer: i32, timeout: i32) -> Result<(), Error>
    ensures { refusal_of result ≡ first_refusal (rcv_mbf_refusals (kernel state.now) buffer timeout) }
{
    if bad_timeout(timeout) {
        return Err(Error::Par);
    }
    let found = BufferNumber::from_field(buffer);
    let Some(b) = found else {
        return Err(Error::Id);
    };
    if exists(state, b) == 0 {
        return Err(Error::Noexs);
    }
    if no_time(timeout, receive_waits(state, b)) {
        return Err(Error::Tmout);
    }
    Ok(())
}

// The oldest stored message; it is logged before it is taken away.
fn receive_stored(
    state: &mut Words,
    store: &mut [u8],
    log: &mut [u8],
    at: usize,
    caller: TaskNumber,
    b: BufferNumber,
) -> Reply
    requires { Answerable b.0 store.old }
    ensures { CarriesInStore caller.0 (received_stored b.0) state.old store.old log.old at state.new store.new log.new result }
{
    let n = store_oldest_length(store, b);
    let length = answer_number(n);
    let delivery = log_answer(log, at, length);
    let next = log_message(log, delivery, caller, store_oldest(store, b));
    take_oldest(state, store, b);
    Reply {
        answer: length,
        next: next,
    }
}

// A sender's message, and its wait ends.
fn receive_sent(
    state: &mut Words,
    outbox: &mut [u8],
    log: &mut [u8],
    at: usize,
    caller: TaskNumber,
    s: TaskNumber,
) -> Reply
    ensures { CarriesInLog caller.0 (received_sent s.0) state.old outbox.old log.old at state.new outbox.new log.new result }
{
    let n = argument(state, s);
    let m = outbox_message(outbox, s, n as usize);
    let length = answer_number(m.len() as u32);
    let delivery = log_answer(log, at, length);
    let waits = log_message(log, delivery, caller, m);
    let next = end_wait(state, outbox, log, waits, s, E_OK);
    Reply {
        answer: length,
        next: next,
    }
}

fn wait_to_receive(
    state: &mut Words,
    log: &mut [u8],
    at: usize,
    caller: TaskNumber,
    b: BufferNumber,
    timeout: i32,
) -> Reply
    ensures { CarriesInWords caller.0 (receive_waiting caller.0 b.0 timeout) state.old log.old at state.new log.new result }
{
    let answer = Answer::Waits;
    let next = log_answer(log, at, answer);
    wait(state, caller, RECEIVING, b.word(), 0, timeout);
    Reply {
        answer: answer,
        next: next,
    }
}

// "the oldest stored message, else the first sender's, else wait".
fn receive(
    state: &mut Words,
    store: &mut [u8],
    outbox: &mut [u8],
    log: &mut [u8],
    at: usize,
    caller: TaskNumber,
    b: BufferNumber,
    timeout: i32,
) -> Reply
    requires caller_value { caller.0 ≡ running (kernel state.old) }
    requires answerable { Answerable b.0 store.old }
    ensures { Carries caller.0 (λ w. rcv_mbf w b.0 timeout) (areas state.old store.old outbox.old log.old) at (areas state.new store.new outbox.new log.new) result }
{
    if used(state, b) != 0 {
        return receive_stored(state, store, log, at, caller, b);
    }
    let found = front(state, SENDING, b.word());
    let Some(s) = found else {
        return wait_to_receive(state, log, at, caller, b, timeout);
    };
    receive_sent(state, outbox, log, at, caller, s)
}

// The field names a buffer, since nothing refuses the call.
pub fn rcv_mbf(
    state: &mut Words,
    store: &mut [u8],
    outbox: &mut [u8],
    log: &mut [u8],
    at: usize,
    caller: TaskNumber,
    buffer: i32,
    timeout: i32,
) -> Reply
    requires caller_value { caller.0 ≡ running (kernel state.old) }
    requires timeout_value { first_refusal (rcv_mbf_refusals (kernel state.old) buffer timeout) ≡ none }
    requires answerable { Answerable (number buffer) store.old }
    ensures { Carries caller.0 (λ w. rcv_mbf w (number buffer) timeout) (areas state.old store.old outbox.old log.old) at (areas state.new store.new outbox.new log.new) result }
{
    let found = BufferNumber::from_field(buffer);
    let Some(b) = found else {
        return Reply {
            answer: Answer::Code(E_OK),
            next: at,
        };
    };
    receive(state, store, outbox, log, at, caller, b, timeout)
}
