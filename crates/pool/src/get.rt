// get_mpf: the caller gets a block of a fixed pool or waits for one.
ghost use Rattle.std.specs.Prelude.{◌≡◌};
ghost use Rattle.std.proofs.Math.Option.{none};
ghost use Rattle.model.specs.Code.{number};
ghost use Rattle.model.specs.World.{running};
ghost use Rattle.model.specs.Refusal.{first_refusal, get_mpf_refusals};
ghost use Rattle.model.specs.Effect.{get_mpf};
ghost use Rattle.model.specs.Errors.{refusal_of};
ghost use Rattle.model.specs.Words.{kernel};
ghost use Rattle.reply.specs.Replies.{CarriesInWords};

use act::wait::wait;
use model::call::Answer;
use model::code::{E_OK, Error};
use model::number::{PoolNumber, TaskNumber};
use reply::Reply;
use reply::field::{bad_timeout, no_time};
use script::log::{log_answer, log_block};
use search::block::free_block;
use state::layout::Words;
use state::pool::{exists, set_taken};
use state::task::GETTING;

pub fn refuse_get_mpf(state: &Words, pool: i32, timeout: i32) -> Result<(), Error>
    ensures { refusal_of result ≡ first_refusal (get_mpf_refusals (kernel state.now) pool timeout) }
{
    if bad_timeout(timeout) {
        return Err(Error::Par);
    }
    let found = PoolNumber::from_field(pool);
    let Some(p) = found else {
        return Err(Error::Id);
    };
    if exists(state, p) == 0 {
        return Err(Error::Noexs);
    }
    let block = free_block(state, p);
    if no_time(timeout, block == 0) {
        return Err(Error::Tmout);
    }
    Ok(())
}

// "Get: the smallest free block, counted from 1, else wait." The field names a pool, since nothing refuses the call.
pub fn get_mpf(
    state: &mut Words,
    log: &mut [u8],
    at: usize,
    caller: TaskNumber,
    pool: i32,
    timeout: i32,
) -> Reply
    requires caller_value { caller.0 ≡ running (kernel state.old) }
    requires timeout_value { first_refusal (get_mpf_refusals (kernel state.old) pool timeout) ≡ none }
    ensures { CarriesInWords caller.0 (λ w. get_mpf w (number pool) timeout) state.old log.old at state.new log.new result }
{
    let found = PoolNumber::from_field(pool);
    let Some(p) = found else {
        return Reply {
            answer: Answer::Waits,
            next: at,
        };
    };
    let block = free_block(state, p);
    if block == 0 {
        let next = log_answer(log, at, Answer::Waits);
        wait(state, caller, GETTING, p.word(), 0, timeout);
        return Reply {
            answer: Answer::Waits,
            next: next,
        };
    }
    let answer = Answer::Code(E_OK);
    let delivery = log_answer(log, at, answer);
    let next = log_block(log, delivery, caller, block);
    set_taken(state, p, block, 1);
    Reply {
        answer: answer,
        next: next,
    }
}
