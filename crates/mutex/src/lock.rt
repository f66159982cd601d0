// loc_mtx: the caller takes a mutex or waits for it.
ghost use Rattle.std.specs.Prelude.{◌≡◌, ◌&&◌, eqb, ltb};
ghost use Rattle.std.proofs.Math.Option.{none};
ghost use Rattle.model.specs.Sizes.{tasks};
ghost use Rattle.model.specs.Lists.{◌!◌};
ghost use Rattle.model.specs.Code.{number};
ghost use Rattle.model.specs.Facts.{queue, locking, ceilinged};
ghost use Rattle.model.specs.Kernel.{with_holder};
ghost use Rattle.model.specs.World.{running, recompute as recomputed};
ghost use Rattle.model.specs.Act.{wait as waiting};
ghost use Rattle.model.specs.Refusal.{first_refusal, loc_mtx_refusals};
ghost use Rattle.model.specs.Effect.{loc_mtx};
ghost use Rattle.model.specs.Valid.{Each, Priorities, Bitmap, Locking};
ghost use Rattle.model.specs.Errors.{refusal_of};
ghost use Rattle.model.specs.Words.{kernel};
ghost use Rattle.state.specs.Words.{Represents};
ghost use Rattle.act.specs.Held.{DoesInWords};
ghost use Rattle.reply.specs.Replies.{CarriesInWords};

use act::wait::begin_wait;
use model::attribute::{CEILINGED, INHERITS};
use model::call::Answer;
use model::code::{E_OK, Error};
use model::number::{MutexNumber, TaskNumber};
use priority::recompute;
use reply::Reply;
use reply::field::{bad_timeout, no_time};
use script::log::log_answer;
use state::layout::Words;
use state::mutex::{attribute, ceiling, exists, holder, set_holder};
use state::task::{LOCKING, base};

// "caller's base above the ceiling"; above is more urgent, a lesser number.
fn base_above_ceiling(state: &Words, t: TaskNumber, m: MutexNumber) -> bool
    ensures { result ≡ eqb ((kernel state.now).mutexes.attribute ! m.0) ceilinged && ltb ((kernel state.now).tasks.base ! t.0) ((kernel state.now).mutexes.ceiling ! m.0) }
{
    let a = attribute(state, m);
    let own = base(state, t);
    let top = ceiling(state, m);
    (a == CEILINGED) & (own < top)
}

pub fn refuse_loc_mtx(
    state: &Words,
    caller: TaskNumber,
    mutex: i32,
    timeout: i32,
) -> Result<(), Error>
    requires { caller.0 ≡ running (kernel state.now) }
    ensures { refusal_of result ≡ first_refusal (loc_mtx_refusals (kernel state.now) mutex timeout) }
{
    if bad_timeout(timeout) {
        return Err(Error::Par);
    }
    let found = MutexNumber::from_field(mutex);
    let Some(m) = found else {
        return Err(Error::Id);
    };
    if exists(state, m) == 0 {
        return Err(Error::Noexs);
    }
    let held = holder(state, m);
    if held == caller.word() {
        return Err(Error::Iluse);
    }
    if base_above_ceiling(state, caller, m) {
        return Err(Error::Iluse);
    }
    if no_time(timeout, held != 0) {
        return Err(Error::Tmout);
    }
    Ok(())
}

// A free mutex is taken. Nobody waits for it, so that no priority changes unless it has a ceiling.
fn take(state: &mut Words, m: MutexNumber, caller: TaskNumber)
    requires priorities { Priorities (kernel state.old) }
    requires bitmap { Bitmap (kernel state.old) }
    requires each { Each tasks (Locking (kernel state.old)) }
    requires m_value { (kernel state.old).mutexes.holder ! m.0 ≡ 0 }
    ensures { Represents state.new (recomputed (with_holder (kernel state.old) m.0 caller.0)) }
{
    let a = attribute(state, m);
    set_holder(state, m, caller.word());
    if a == CEILINGED {
        recompute(state);
    }
}

// The caller waits for a mutex. It was ready, so that no priority changes unless the mutex inherits.
fn wait_for(state: &mut Words, m: MutexNumber, caller: TaskNumber, timeout: i32)
    requires caller_value { caller.0 ≡ running (kernel state.old) }
    requires priorities { Priorities (kernel state.old) }
    requires bitmap { Bitmap (kernel state.old) }
    ensures { DoesInWords (λ w. waiting w caller.0 (queue locking m.0) 0 timeout) state.old state.new }
{
    let a = attribute(state, m);
    begin_wait(state, caller, LOCKING, m.word(), 0, timeout);
    if a == INHERITS {
        recompute(state);
    }
}

// "Lock: a free mutex is taken, else the caller waits." The field names a mutex, since nothing refuses the call.
pub fn loc_mtx(
    state: &mut Words,
    log: &mut [u8],
    at: usize,
    caller: TaskNumber,
    mutex: i32,
    timeout: i32,
) -> Reply
    requires caller_value { caller.0 ≡ running (kernel state.old) }
    requires timeout_value { first_refusal (loc_mtx_refusals (kernel state.old) mutex timeout) ≡ none }
    requires priorities { Priorities (kernel state.old) }
    requires bitmap { Bitmap (kernel state.old) }
    requires each { Each tasks (Locking (kernel state.old)) }
    ensures { CarriesInWords caller.0 (λ w. loc_mtx w (number mutex) timeout) state.old log.old at state.new log.new result }
{
    let found = MutexNumber::from_field(mutex);
    let Some(m) = found else {
        return Reply {
            answer: Answer::Waits,
            next: at,
        };
    };
    if holder(state, m) != 0 {
        let next = log_answer(log, at, Answer::Waits);
        wait_for(state, m, caller, timeout);
        return Reply {
            answer: Answer::Waits,
            next: next,
        };
    }
    let answer = Answer::Code(E_OK);
    let next = log_answer(log, at, answer);
    take(state, m, caller);
    Reply {
        answer: answer,
        next: next,
    }
}
