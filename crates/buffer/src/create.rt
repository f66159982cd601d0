// cre_mbf: a new message buffer.
ghost use Rattle.std.specs.Prelude.{◌≡◌};
ghost use Rattle.std.proofs.Math.Option.{none};
ghost use Rattle.model.specs.Code.{number};
ghost use Rattle.model.specs.Refusal.{first_refusal, cre_mbf_refusals};
ghost use Rattle.model.specs.Effect.{cre_mbf};
ghost use Rattle.model.specs.Errors.{refusal_of};
ghost use Rattle.model.specs.Words.{kernel};
ghost use Rattle.state.specs.Words.{Represents};
ghost use Rattle.reply.specs.Replies.{CarriesInWords};
ghost use Rattle.buffer.specs.Rows.{buffer_row};

use model::attribute::of_buffer;
use model::call::Answer;
use model::code::{E_OK, Error};
use model::number::{BufferNumber, TaskNumber, natural};
use model::sizes::{MESSAGE_BYTES, REGION_BYTES};
use reply::Reply;
use reply::field::{answer_number, outside};
use script::log::log_answer;
use search::unused::unused_buffer;
use state::layout::Words;

// The longest message and the largest size that can be asked for.
pub(crate) const LONGEST_MESSAGE: i32 = MESSAGE_BYTES as i32;

const LARGEST_SIZE: i32 = REGION_BYTES as i32;

pub fn refuse_cre_mbf(state: &Words, attribute: i32, bufsz: i32, maxmsz: i32) -> Result<(), Error>
    ensures { refusal_of result ≡ first_refusal (cre_mbf_refusals (kernel state.now) attribute bufsz maxmsz) }
{
    let a = natural(attribute);
    let allowed = of_buffer(a);
    if (attribute < 0) | !allowed {
        return Err(Error::Rsatr);
    }
    if bufsz < 0 {
        return Err(Error::Par);
    }
    if outside(1, LONGEST_MESSAGE, maxmsz) {
        return Err(Error::Par);
    }
    let found = unused_buffer(state);
    let Some(_) = found else {
        return Err(Error::Limit);
    };
    if LARGEST_SIZE < bufsz {
        return Err(Error::Nomem);
    }
    Ok(())
}

// A buffer's entries, all but how much of its region is used.
pub(crate) fn set_row(
    state: &mut Words,
    b: BufferNumber,
    exists: u32,
    attribute: u32,
    bufsz: u32,
    maxmsz: u32,
)
    ensures { Represents state.new (buffer_row (kernel state.old) b.0 exists attribute bufsz maxmsz) }
{
    state::buffer::set_exists(state, b, exists);
    state::buffer::set_attribute(state, b, attribute);
    state::buffer::set_bufsz(state, b, bufsz);
    state::buffer::set_maxmsz(state, b, maxmsz);
}

// A number is unused, since nothing refuses the call.
pub fn cre_mbf(
    state: &mut Words,
    log: &mut [u8],
    at: usize,
    caller: TaskNumber,
    attribute: i32,
    bufsz: i32,
    maxmsz: i32,
) -> Reply
    requires { first_refusal (cre_mbf_refusals (kernel state.old) attribute bufsz maxmsz) ≡ none }
    ensures { CarriesInWords caller.0 (λ w. cre_mbf w (number attribute) (number bufsz) (number maxmsz)) state.old log.old at state.new log.new result }
{
    let found = unused_buffer(state);
    let Some(b) = found else {
        return Reply {
            answer: Answer::Code(E_OK),
            next: at,
        };
    };
    let answer = answer_number(b.word());
    let next = log_answer(log, at, answer);
    set_row(
        state,
        b,
        1,
        natural(attribute),
        natural(bufsz),
        natural(maxmsz),
    );
    Reply {
        answer: answer,
        next: next,
    }
}
