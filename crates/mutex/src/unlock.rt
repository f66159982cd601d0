// unl_mtx: the caller gives up a mutex.
ghost use Rattle.std.specs.Prelude.{◌≡◌};
ghost use Rattle.std.proofs.Math.Option.{none};
ghost use Rattle.model.specs.Code.{number};
ghost use Rattle.model.specs.World.{running};
ghost use Rattle.model.specs.Refusal.{first_refusal, unl_mtx_refusals};
ghost use Rattle.model.specs.Effect.{unl_mtx};
ghost use Rattle.model.specs.Valid.{Arrivals, Priorities, Bitmap};
ghost use Rattle.model.specs.Errors.{refusal_of};
ghost use Rattle.model.specs.Words.{kernel};
ghost use Rattle.reply.specs.Replies.{CarriesInLog};

use act::mutex::release_settled;
use model::call::Answer;
use model::code::{E_OK, Error};
use model::number::{MutexNumber, TaskNumber};
use reply::Reply;
use script::log::log_answer;
use state::layout::Words;
use state::mutex::{exists, holder};

pub fn refuse_unl_mtx(state: &Words, caller: TaskNumber, mutex: i32) -> Result<(), Error>
    requires { caller.0 ≡ running (kernel state.now) }
    ensures { refusal_of result ≡ first_refusal (unl_mtx_refusals (kernel state.now) mutex) }
{
    let found = MutexNumber::from_field(mutex);
    let Some(m) = found else {
        return Err(Error::Id);
    };
    if exists(state, m) == 0 {
        return Err(Error::Noexs);
    }
    if holder(state, m) != caller.word() {
        return Err(Error::Iluse);
    }
    Ok(())
}

// The field names a mutex, since nothing refuses the call.
pub fn unl_mtx(
    state: &mut Words,
    outbox: &mut [u8],
    log: &mut [u8],
    at: usize,
    caller: TaskNumber,
    mutex: i32,
) -> Reply
    requires mutex_value { first_refusal (unl_mtx_refusals (kernel state.old) mutex) ≡ none }
    requires priorities { Priorities (kernel state.old) }
    requires bitmap { Bitmap (kernel state.old) }
    requires arrivals { Arrivals (kernel state.old) }
    ensures { CarriesInLog caller.0 (λ w. unl_mtx w (number mutex)) state.old outbox.old log.old at state.new outbox.new log.new result }
{
    let answer = Answer::Code(E_OK);
    let found = MutexNumber::from_field(mutex);
    let Some(m) = found else {
        return Reply {
            answer: answer,
            next: at,
        };
    };
    let waits = log_answer(log, at, answer);
    let next = release_settled(state, outbox, log, waits, m);
    Reply {
        answer: answer,
        next: next,
    }
}
