// del_mtx: a mutex is deleted.
ghost use Rattle.std.specs.Prelude.{◌≡◌};
ghost use Rattle.std.proofs.Math.Option.{none};
ghost use Rattle.model.specs.Sizes.{mutexes};
ghost use Rattle.model.specs.Code.{number};
ghost use Rattle.model.specs.Refusal.{first_refusal, deletion_refusals};
ghost use Rattle.model.specs.Effect.{del_mtx};
ghost use Rattle.model.specs.Errors.{refusal_of};
ghost use Rattle.model.specs.Words.{kernel};
ghost use Rattle.state.specs.Words.{Represents};
ghost use Rattle.reply.specs.Replies.{CarriesInLog};
ghost use Rattle.mutex.specs.Struck.{struck_out};

use act::waits::end_waits;
use model::call::Answer;
use model::code::{E_DLT, E_OK, Error};
use model::number::{MutexNumber, TaskNumber};
use model::sizes::PLACES;
use order::queue_order;
use priority::recompute;
use reply::Reply;
use reply::deletion::refuse_deletion;
use script::log::log_answer;
use state::layout::Words;
use state::mutex::{exists, set_attribute, set_ceiling, set_exists, set_holder};
use state::task::LOCKING;

pub fn refuse_del_mtx(state: &Words, mutex: i32) -> Result<(), Error>
    ensures { refusal_of result ≡ first_refusal (deletion_refusals mutexes (kernel state.now).mutexes.exists mutex) }
{
    refuse_deletion(mutex, |m: MutexNumber| exists(state, m))
}

// "a holder loses the mutex", and priorities are settled.
fn strike_out(state: &mut Words, m: MutexNumber)
    ensures { Represents state.new (struck_out (kernel state.old) m.0) }
{
    set_exists(state, m, 0);
    set_attribute(state, m, 0);
    set_ceiling(state, m, 0);
    set_holder(state, m, 0);
    recompute(state);
}

// The field names a mutex, since nothing refuses the call. Its queue's order is put down before the mutex is gone.
pub fn del_mtx(
    state: &mut Words,
    outbox: &mut [u8],
    log: &mut [u8],
    at: usize,
    caller: TaskNumber,
    mutex: i32,
) -> Reply
    requires { first_refusal (deletion_refusals mutexes (kernel state.old).mutexes.exists mutex) ≡ none }
    ensures { CarriesInLog caller.0 (λ w. del_mtx w (number mutex)) state.old outbox.old log.old at state.new outbox.new log.new result }
{
    let answer = Answer::Code(E_OK);
    let found = MutexNumber::from_field(mutex);
    let Some(m) = found else {
        return Reply {
            answer: answer,
            next: at,
        };
    };
    let mut order = [0u32; PLACES];
    let start = queue_order(state, LOCKING, m.word(), &mut order);
    let waits = log_answer(log, at, answer);
    strike_out(state, m);
    let next = end_waits(state, outbox, log, waits, &order[start..], E_DLT);
    Reply {
        answer: answer,
        next: next,
    }
}
