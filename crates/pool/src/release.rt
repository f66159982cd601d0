// rel_mpf: a block is returned to its fixed pool.
ghost use Rattle.std.specs.Prelude.{◌≡◌};
ghost use Rattle.std.proofs.Math.Option.{none};
ghost use Rattle.model.specs.Code.{number};
ghost use Rattle.model.specs.Refusal.{first_refusal, rel_mpf_refusals};
ghost use Rattle.model.specs.Effect.{rel_mpf};
ghost use Rattle.model.specs.Errors.{refusal_of};
ghost use Rattle.model.specs.Words.{kernel};
ghost use Rattle.act.specs.Held.{DoesInLog};
ghost use Rattle.reply.specs.Replies.{CarriesInLog};

use act::wait::end_wait_block;
use model::call::Answer;
use model::code::{E_OK, Error};
use model::number::{PoolNumber, TaskNumber, natural};
use queue::front::front;
use reply::Reply;
use script::log::log_answer;
use search::block::handed_out;
use state::layout::Words;
use state::pool::{exists, set_taken};
use state::task::GETTING;

pub fn refuse_rel_mpf(state: &Words, pool: i32, block: i32) -> Result<(), Error>
    ensures { refusal_of result ≡ first_refusal (rel_mpf_refusals (kernel state.now) pool block) }
{
    let found = PoolNumber::from_field(pool);
    let Some(p) = found else {
        return Err(Error::Id);
    };
    if exists(state, p) == 0 {
        return Err(Error::Noexs);
    }
    if !handed_out(state, p, block) {
        return Err(Error::Par);
    }
    Ok(())
}

// "A returned block goes to the first waiter"; without a waiter it is free.
fn give_back(
    state: &mut Words,
    outbox: &mut [u8],
    log: &mut [u8],
    at: usize,
    p: PoolNumber,
    block: u32,
) -> usize
    ensures { DoesInLog (λ w. (rel_mpf w p.0 block).world) state.old outbox.old log.old at state.new outbox.new log.new result }
{
    let first = front(state, GETTING, p.word());
    let Some(t) = first else {
        set_taken(state, p, block, 0);
        return at;
    };
    end_wait_block(state, outbox, log, at, t, E_OK, block)
}

// The field names a pool, since nothing refuses the call.
pub fn rel_mpf(
    state: &mut Words,
    outbox: &mut [u8],
    log: &mut [u8],
    at: usize,
    caller: TaskNumber,
    pool: i32,
    block: i32,
) -> Reply
    requires { first_refusal (rel_mpf_refusals (kernel state.old) pool block) ≡ none }
    ensures { CarriesInLog caller.0 (λ w. rel_mpf w (number pool) (number block)) state.old outbox.old log.old at state.new outbox.new log.new result }
{
    let answer = Answer::Code(E_OK);
    let found = PoolNumber::from_field(pool);
    let Some(p) = found else {
        return Reply {
            answer: answer,
            next: at,
        };
    };
    let waits = log_answer(log, at, answer);
    let next = give_back(state, outbox, log, waits, p, natural(block));
    Reply {
        answer: answer,
        next: next,
    }
}
