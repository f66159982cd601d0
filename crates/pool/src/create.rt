// cre_mpf: a fixed pool is created.
ghost use Rattle.std.specs.Prelude.{◌*◌, ◌≡◌, false, pos};
ghost use Rattle.std.proofs.Math.Option.{none};
ghost use Rattle.model.specs.Sizes.{blocks, block_bytes};
ghost use Rattle.model.specs.Code.{number};
ghost use Rattle.model.specs.Refusal.{first_refusal, cre_mpf_refusals, outside as is_outside};
ghost use Rattle.model.specs.Effect.{cre_mpf};
ghost use Rattle.model.specs.Errors.{refusal_of};
ghost use Rattle.model.specs.Words.{kernel};
ghost use Rattle.state.specs.Words.{Represents};
ghost use Rattle.reply.specs.Replies.{CarriesInWords};
ghost use Rattle.pool.specs.Rows.{pool_row};

use model::attribute::of_pool;
use model::call::Answer;
use model::code::{E_OK, Error};
use model::number::{PoolNumber, TaskNumber, natural};
use model::sizes::{BLOCK_BYTES, BLOCKS};
use reply::Reply;
use reply::field::{answer_number, outside};
use script::log::log_answer;
use search::room::pools_exceed;
use search::unused::unused_pool;
use state::layout::Words;
use state::pool;

// A pool's bytes, asked of fields that are in range alone.
fn bytes(count: i32, size: i32) -> usize
    requires count_value { is_outside (pos 1) (pos blocks) count ≡ false }
    requires size_value { is_outside (pos 1) (pos block_bytes) size ≡ false }
    ensures { result ≡ number count * number size }
{
    natural(count) as usize * natural(size) as usize
}

pub fn refuse_cre_mpf(state: &Words, attribute: i32, count: i32, size: i32) -> Result<(), Error>
    ensures { refusal_of result ≡ first_refusal (cre_mpf_refusals (kernel state.now) attribute count size) }
{
    let a = natural(attribute);
    let allowed = of_pool(a);
    if (attribute < 0) | !allowed {
        return Err(Error::Rsatr);
    }
    if outside(1, BLOCKS as i32, count) {
        return Err(Error::Par);
    }
    if outside(1, BLOCK_BYTES as i32, size) {
        return Err(Error::Par);
    }
    let found = unused_pool(state);
    let Some(_) = found else {
        return Err(Error::Limit);
    };
    let more = bytes(count, size);
    if pools_exceed(state, more) {
        return Err(Error::Nomem);
    }
    Ok(())
}

// A pool's entries, all but the flags of its blocks.
pub(crate) fn set_row(
    state: &mut Words,
    p: PoolNumber,
    exists: u32,
    attribute: u32,
    count: u32,
    size: u32,
)
    ensures { Represents state.new (pool_row (kernel state.old) p.0 exists attribute count size) }
{
    pool::set_exists(state, p, exists);
    pool::set_attribute(state, p, attribute);
    pool::set_count(state, p, count);
    pool::set_size(state, p, size);
}

// "A new object takes the smallest free number"; there is one, since nothing refuses the call.
pub fn cre_mpf(
    state: &mut Words,
    log: &mut [u8],
    at: usize,
    caller: TaskNumber,
    attribute: i32,
    count: i32,
    size: i32,
) -> Reply
    requires { first_refusal (cre_mpf_refusals (kernel state.old) attribute count size) ≡ none }
    ensures { CarriesInWords caller.0 (λ w. cre_mpf w (number attribute) (number count) (number size)) state.old log.old at state.new log.new result }
{
    let found = unused_pool(state);
    let Some(p) = found else {
        return Reply {
            answer: Answer::Code(E_OK),
            next: at,
        };
    };
    let answer = answer_number(p.word());
    let next = log_answer(log, at, answer);
    set_row(
        state,
        p,
        1,
        natural(attribute),
        natural(count),
        natural(size),
    );
    Reply {
        answer: answer,
        next: next,
    }
}
