// snd_mbf: a message goes to the first receiver, into the buffer, or waits in the outbox.
ghost use Rattle.std.specs.Prelude.{◌≤◌, ◌≡◌, true, length, take};
ghost use Rattle.std.proofs.Math.Option.{none};
ghost use Rattle.model.specs.Sizes.{message_bytes};
ghost use Rattle.model.specs.Code.{number};
ghost use Rattle.model.specs.Facts.{queue, receiving};
ghost use Rattle.model.specs.World.{queue_front, running};
ghost use Rattle.model.specs.Message.{handed};
ghost use Rattle.model.specs.Act.{fits};
ghost use Rattle.model.specs.Refusal.{dirty_tail, first_refusal, storable as storable_in, send_waits, snd_mbf_refusals};
ghost use Rattle.model.specs.Effect.{snd_mbf};
ghost use Rattle.model.specs.Errors.{refusal_of};
ghost use Rattle.model.specs.Words.{kernel};
ghost use Rattle.act.specs.Held.{areas};
ghost use Rattle.reply.specs.Replies.{Carries, CarriesInStore, CarriesInLog};
ghost use Rattle.buffer.specs.Branches.{sent_over, sent_in, send_waiting};

use super::create::LONGEST_MESSAGE;
use act::wait::{end_wait_message, wait};
use areas::bytes::{all_zero, behind, first};
use message::outbox::outbox_put;
use message::room::room;
use model::call::Answer;
use model::code::{E_OK, Error};
use model::number::{BufferNumber, TaskNumber, natural};
use model::sizes::MESSAGE_BYTES;
use queue::front::{front, would_head};
use reply::Reply;
use reply::field::{bad_timeout, code, no_time, outside};
use script::log::log_answer;
use script::place::put;
use state::buffer::{exists, maxmsz};
use state::layout::Words;
use state::task::{RECEIVING, SENDING};
use transfer::store::store_message;

// "if the caller would head the senders and it fits".
fn storable(state: &Words, caller: TaskNumber, b: BufferNumber, n: u32) -> bool
    requires { caller.0 ≡ running (kernel state.now) }
    ensures { result ≡ storable_in (kernel state.now) b.0 n }
{
    if !would_head(state, SENDING, b.word(), caller) {
        return false;
    }
    let used = state::buffer::used(state, b);
    let bufsz = state::buffer::bufsz(state, b);
    room(bufsz, used, n) >= 0
}

// Neither a receiver nor the buffer takes it.
fn send_waits(state: &Words, caller: TaskNumber, b: BufferNumber, n: u32) -> bool
    requires { caller.0 ≡ running (kernel state.now) }
    ensures { result ≡ send_waits (kernel state.now) b.0 n }
{
    let found = front(state, RECEIVING, b.word());
    match found {
        Some(_) => false,
        None => !storable(state, caller, b, n),
    }
}

// 02, request Two: "msgsz 1 to 32 and a nonzero byte after the first msgsz of its 32". What is not handed over counts as zero.
fn dirty_tail(msgsz: i32, message: &[u8]) -> bool
    ensures { result ≡ (dirty_tail msgsz (handed message.now)).applies }
{
    let n = natural(msgsz) as usize;
    let tail = behind(first(message, MESSAGE_BYTES), n);
    !outside(1, LONGEST_MESSAGE, msgsz) & !all_zero(tail)
}

pub fn refuse_snd_mbf(
    state: &Words,
    caller: TaskNumber,
    buffer: i32,
    msgsz: i32,
    timeout: i32,
    message: &[u8],
) -> Result<(), Error>
    requires { caller.0 ≡ running (kernel state.now) }
    ensures { refusal_of result ≡ first_refusal (snd_mbf_refusals (kernel state.now) buffer msgsz timeout (handed message.now)) }
{
    if bad_timeout(timeout) {
        return Err(Error::Par);
    }
    if msgsz <= 0 {
        return Err(Error::Par);
    }
    if dirty_tail(msgsz, message) {
        return Err(Error::Par);
    }
    let found = BufferNumber::from_field(buffer);
    let Some(b) = found else {
        return Err(Error::Id);
    };
    if exists(state, b) == 0 {
        return Err(Error::Noexs);
    }
    let n = natural(msgsz);
    if maxmsz(state, b) < n {
        return Err(Error::Par);
    }
    if no_time(timeout, send_waits(state, caller, b, n)) {
        return Err(Error::Tmout);
    }
    Ok(())
}

// To the first receiver: its wait ends with the message's length.
fn hand_over(
    state: &mut Words,
    outbox: &mut [u8],
    log: &mut [u8],
    at: usize,
    caller: TaskNumber,
    r: TaskNumber,
    m: &[u8],
) -> Reply
    requires { length m.now ≤ message_bytes }
    ensures { CarriesInLog caller.0 (sent_over r.0 m.now) state.old outbox.old log.old at state.new outbox.new log.new result }
{
    let answer = Answer::Code(E_OK);
    let waits = log_answer(log, at, answer);
    let length = code(m.len() as u32);
    let next = end_wait_message(state, outbox, log, waits, r, length, m);
    Reply {
        answer: answer,
        next: next,
    }
}

// Into the buffer.
fn keep(
    state: &mut Words,
    store: &mut [u8],
    log: &mut [u8],
    at: usize,
    caller: TaskNumber,
    b: BufferNumber,
    m: &[u8],
) -> Reply
    requires { fits (kernel state.old) b.0 (length m.now) ≡ true }
    ensures { CarriesInStore caller.0 (sent_in b.0 m.now) state.old store.old log.old at state.new store.new log.new result }
{
    let answer = Answer::Code(E_OK);
    let next = log_answer(log, at, answer);
    store_message(state, store, b, m);
    Reply {
        answer: answer,
        next: next,
    }
}

// "A waiting sender's bytes lie at the start of its part of the bay."
fn wait_to_send(
    state: &mut Words,
    outbox: &mut [u8],
    log: &mut [u8],
    at: usize,
    caller: TaskNumber,
    b: BufferNumber,
    m: &[u8],
    timeout: i32,
) -> Reply
    requires { length m.now ≤ message_bytes }
    ensures { CarriesInLog caller.0 (send_waiting caller.0 b.0 m.now timeout) state.old outbox.old log.old at state.new outbox.new log.new result }
{
    let answer = Answer::Waits;
    let next = log_answer(log, at, answer);
    outbox_put(outbox, caller, m, m.len());
    wait(state, caller, SENDING, b.word(), m.len() as u32, timeout);
    Reply {
        answer: answer,
        next: next,
    }
}

// Nobody receives: "if the caller would head the senders and it fits, stored; else wait".
fn keep_or_wait(
    state: &mut Words,
    store: &mut [u8],
    outbox: &mut [u8],
    log: &mut [u8],
    at: usize,
    caller: TaskNumber,
    b: BufferNumber,
    m: &[u8],
    timeout: i32,
) -> Reply
    requires caller_value { caller.0 ≡ running (kernel state.old) }
    requires m_len_bound { length m.now ≤ message_bytes }
    requires b_value { queue_front (kernel state.old) (queue receiving b.0) ≡ 0 }
    ensures { Carries caller.0 (λ w. snd_mbf w b.0 m.now timeout) (areas state.old store.old outbox.old log.old) at (areas state.new store.new outbox.new log.new) result }
{
    if storable(state, caller, b, m.len() as u32) {
        return keep(state, store, log, at, caller, b, m);
    }
    wait_to_send(state, outbox, log, at, caller, b, m, timeout)
}

// A message is sent to a buffer.
fn send(
    state: &mut Words,
    store: &mut [u8],
    outbox: &mut [u8],
    log: &mut [u8],
    at: usize,
    caller: TaskNumber,
    b: BufferNumber,
    m: &[u8],
    timeout: i32,
) -> Reply
    requires caller_value { caller.0 ≡ running (kernel state.old) }
    requires m_len_bound { length m.now ≤ message_bytes }
    ensures { Carries caller.0 (λ w. snd_mbf w b.0 m.now timeout) (areas state.old store.old outbox.old log.old) at (areas state.new store.new outbox.new log.new) result }
{
    let found = front(state, RECEIVING, b.word());
    let Some(r) = found else {
        return keep_or_wait(state, store, outbox, log, at, caller, b, m, timeout);
    };
    hand_over(state, outbox, log, at, caller, r, m)
}

// "Only the first msgsz of the 32 bytes count": they are sent from where they lie; where fewer are handed over, zeros stand for the others. The field
// names a buffer, since nothing refuses the call.
pub fn snd_mbf(
    state: &mut Words,
    store: &mut [u8],
    outbox: &mut [u8],
    log: &mut [u8],
    at: usize,
    caller: TaskNumber,
    buffer: i32,
    msgsz: i32,
    timeout: i32,
    message: &[u8],
) -> Reply
    requires caller_value { caller.0 ≡ running (kernel state.old) }
    requires message_value { first_refusal (snd_mbf_refusals (kernel state.old) buffer msgsz timeout (handed message.now)) ≡ none }
    ensures { Carries caller.0 (λ w. snd_mbf w (number buffer) (take (number msgsz) (handed message.now)) timeout) (areas state.old store.old outbox.old log.old) at (areas state.new store.new outbox.new log.new) result }
{
    let found = BufferNumber::from_field(buffer);
    let Some(b) = found else {
        return Reply {
            answer: Answer::Code(E_OK),
            next: at,
        };
    };
    let n = (natural(msgsz) as usize).min(MESSAGE_BYTES);
    if n <= message.len() {
        let m = &message[..n];
        return send(state, store, outbox, log, at, caller, b, m, timeout);
    }
    let mut bytes = [0u8; MESSAGE_BYTES];
    put(&mut bytes, 0, message);
    let m = &bytes[..n];
    send(state, store, outbox, log, at, caller, b, m, timeout)
}
