// del_mpf: a fixed pool is deleted.
ghost use Rattle.std.specs.Prelude.{◌≡◌};
ghost use Rattle.std.proofs.Math.Option.{none};
ghost use Rattle.model.specs.Sizes.{pools};
ghost use Rattle.model.specs.Code.{number};
ghost use Rattle.model.specs.Refusal.{first_refusal, deletion_refusals};
ghost use Rattle.model.specs.Effect.{del_mpf};
ghost use Rattle.model.specs.Errors.{refusal_of};
ghost use Rattle.model.specs.Words.{kernel};
ghost use Rattle.state.specs.Words.{Represents};
ghost use Rattle.reply.specs.Replies.{CarriesInLog};
ghost use Rattle.pool.specs.Rows.{all_freed, struck_out};

use super::create::set_row;
use act::waits::end_waits;
use model::call::Answer;
use model::code::{E_DLT, E_OK, Error};
use model::number::{PoolNumber, TaskNumber};
use model::sizes::{BLOCKS, PLACES};
use order::queue_order;
use reply::Reply;
use reply::deletion::refuse_deletion;
use script::log::log_answer;
use state::layout::Words;
use state::pool::{exists, set_taken};
use state::task::GETTING;

pub fn refuse_del_mpf(state: &Words, pool: i32) -> Result<(), Error>
    ensures { refusal_of result ≡ first_refusal (deletion_refusals pools (kernel state.now).pools.exists pool) }
{
    refuse_deletion(pool, |p: PoolNumber| exists(state, p))
}

// No block of the pool is handed out any more.
fn free_all(state: &mut Words, p: PoolNumber)
    ensures { Represents state.new (all_freed (kernel state.old) p.0) }
{
    for n in 0..BLOCKS {
        set_taken(state, p, n + 1, 0);
    }
}

fn strike_out(state: &mut Words, p: PoolNumber)
    ensures { Represents state.new (struck_out (kernel state.old) p.0) }
{
    set_row(state, p, 0, 0, 0, 0);
    free_all(state, p);
}

// The field names a pool, since nothing refuses the call. Its queue's order is put down before the pool is gone.
pub fn del_mpf(
    state: &mut Words,
    outbox: &mut [u8],
    log: &mut [u8],
    at: usize,
    caller: TaskNumber,
    pool: i32,
) -> Reply
    requires { first_refusal (deletion_refusals pools (kernel state.old).pools.exists pool) ≡ none }
    ensures { CarriesInLog caller.0 (λ w. del_mpf w (number pool)) state.old outbox.old log.old at state.new outbox.new log.new result }
{
    let answer = Answer::Code(E_OK);
    let found = PoolNumber::from_field(pool);
    let Some(p) = found else {
        return Reply {
            answer: answer,
            next: at,
        };
    };
    let mut order = [0u32; PLACES];
    let start = queue_order(state, GETTING, p.word(), &mut order);
    let waits = log_answer(log, at, answer);
    strike_out(state, p);
    let next = end_waits(state, outbox, log, waits, &order[start..], E_DLT);
    Reply {
        answer: answer,
        next: next,
    }
}
