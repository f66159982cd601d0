// cre_mtx: a mutex is created.
ghost use Rattle.std.specs.Prelude.{◌≡◌, cond, eqb};
ghost use Rattle.std.proofs.Math.Option.{none};
ghost use Rattle.model.specs.Code.{number};
ghost use Rattle.model.specs.Facts.{ceilinged};
ghost use Rattle.model.specs.Refusal.{first_refusal, cre_mtx_refusals};
ghost use Rattle.model.specs.Effect.{cre_mtx};
ghost use Rattle.model.specs.Errors.{refusal_of};
ghost use Rattle.model.specs.Words.{kernel};
ghost use Rattle.reply.specs.Replies.{CarriesInWords};

use model::attribute::{CEILINGED, of_mutex};
use model::call::Answer;
use model::code::{E_OK, Error};
use model::number::{TaskNumber, natural};
use model::sizes::PRIORITIES;
use reply::Reply;
use reply::field::{answer_number, outside};
use script::log::log_answer;
use search::unused::unused_mutex;
use state::layout::Words;
use state::mutex::{set_attribute, set_ceiling, set_exists};

pub fn refuse_cre_mtx(state: &Words, attribute: i32, ceiling: i32) -> Result<(), Error>
    ensures { refusal_of result ≡ first_refusal (cre_mtx_refusals (kernel state.now) attribute ceiling) }
{
    let a = natural(attribute);
    let allowed = of_mutex(a);
    if (attribute < 0) | !allowed {
        return Err(Error::Rsatr);
    }
    let bad = outside(1, PRIORITIES as i32, ceiling);
    if (a == CEILINGED) & bad {
        return Err(Error::Par);
    }
    let found = unused_mutex(state);
    let Some(_) = found else {
        return Err(Error::Limit);
    };
    Ok(())
}

// "with attributes 0 to 2 any ceiling is ignored and kept as 0".
fn kept_ceiling(attribute: u32, ceiling: i32) -> u32
    ensures { result ≡ cond (eqb attribute ceilinged) (number ceiling) 0 }
{
    if attribute == CEILINGED {
        natural(ceiling)
    } else {
        0
    }
}

// A number is unused, since nothing refuses the call.
pub fn cre_mtx(
    state: &mut Words,
    log: &mut [u8],
    at: usize,
    caller: TaskNumber,
    attribute: i32,
    ceiling: i32,
) -> Reply
    requires { first_refusal (cre_mtx_refusals (kernel state.old) attribute ceiling) ≡ none }
    ensures { CarriesInWords caller.0 (λ w. cre_mtx w (number attribute) ceiling) state.old log.old at state.new log.new result }
{
    let found = unused_mutex(state);
    let Some(m) = found else {
        return Reply {
            answer: Answer::Code(E_OK),
            next: at,
        };
    };
    let answer = answer_number(m.word());
    let next = log_answer(log, at, answer);
    let a = natural(attribute);
    let kept = kept_ceiling(a, ceiling);
    set_exists(state, m, 1);
    set_attribute(state, m, a);
    set_ceiling(state, m, kept);
    Reply {
        answer: answer,
        next: next,
    }
}
