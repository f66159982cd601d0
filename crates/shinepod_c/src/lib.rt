// The library for C: a handful of functions over what the other crates promise. A slice is handed over as a pointer and a length.
// include/shinepod.h declares them and says what a caller in C answers for.
#![tactic(auto)]

mod outcome;
mod place;

ghost use Rattle.std.specs.Prelude.{◌≡◌, [], ◌∷◌};
ghost use Rattle.model.specs.Lent.{is_valid};
ghost use Rattle.act.specs.Held.{areas};
ghost use Rattle.shinepod_c.specs.Outcome.{came, call_outcome, came_to, record_outcome};
ghost use Rattle.shinepod_c.specs.Fresh.{left, fresh_left};
ghost use Rattle.shinepod_c.specs.Shown.{found, shown_found};

use message::next::message_at;
use message::region::clear;
use model::call::Cursor;
use model::code::{E_OK, E_SYS};
use model::kind::body_length;
use outcome::{UNKNOWN_KIND, code_of, outcome_of, progress_code, progress_next, progress_outcome};
use place::{area_of, start_of};
use script::reader::call_of;
use valid::next::location;
use valid::right_lengths;

// Lent areas become the fresh state, whatever they hold; areas of other lengths are left alone.
#[unsafe(no_mangle)]
pub extern "C" fn shinepod_fresh(state: &mut [u32], store: &mut [u8], outbox: &mut [u8]) -> i32
    ensures { left result state.new store.new outbox.new ≡ fresh_left state.old store.old outbox.old }
{
    if !right_lengths(state, store, outbox) {
        return E_SYS;
    }
    // the length has been seen to be right
    let _ = state::fresh(state);
    clear(store);
    clear(outbox);
    E_OK
}

// One call by its kind and fields, on whatever is lent.
#[unsafe(no_mangle)]
pub extern "C" fn shinepod_call(
    state: &mut [u32],
    store: &mut [u8],
    outbox: &mut [u8],
    log: &mut [u8],
    kind: u8,
    first: i32,
    second: i32,
    third: i32,
    message: &[u8],
    code: &mut i32,
    written: &mut usize,
) -> u32
    ensures { came result code.new written.new (areas state.new store.new outbox.new log.new) ≡ call_outcome (areas state.old store.old outbox.old log.old) kind (first ∷ second ∷ third ∷ []) message.now }
{
    // where the table of kinds has no body's length, no call has the kind
    let Some(_) = body_length(kind) else {
        *code = E_OK;
        *written = 0;
        return UNKNOWN_KIND;
    };
    let call = call_of(kind, first, second, third);
    let called = call::call(state, store, outbox, log, call, message);
    let answer = called.answer;
    *code = code_of(answer);
    *written = called.written;
    outcome_of(answer)
}

// The record at a place of a script, on whatever is lent; the place goes on to the next record.
#[unsafe(no_mangle)]
pub extern "C" fn shinepod_run_record(
    state: &mut [u32],
    store: &mut [u8],
    outbox: &mut [u8],
    log: &mut [u8],
    script: &[u8],
    at: &mut usize,
    code: &mut i32,
    written: &mut usize,
) -> u32
    ensures { came_to result code.new written.new at.new (areas state.new store.new outbox.new log.new) ≡ record_outcome (areas state.old store.old outbox.old log.old) script.now at.old }
{
    let ran = run::run_record(state, store, outbox, log, script, Cursor { at: *at });
    let progress = ran.progress;
    *at = progress_next(progress, *at);
    *code = progress_code(progress);
    *written = ran.written;
    progress_outcome(progress)
}

// Where the next message of a buffer lies, of whatever is lent: in which area, from where, and how many bytes.
#[unsafe(no_mangle)]
pub extern "C" fn shinepod_next_message<'a>(
    state: &[u32],
    store: &'a [u8],
    outbox: &'a [u8],
    buffer: i32,
    at: &mut usize,
    size: &mut usize,
) -> u32
    ensures { found result at.new size.new ≡ shown_found state.now store.now outbox.now buffer }
{
    let l = location(state, store, outbox, buffer);
    let m = message_at(store, outbox, l);
    *at = start_of(l);
    *size = m.len();
    area_of(l)
}

// Whether what is lent is valid.
#[unsafe(no_mangle)]
pub extern "C" fn shinepod_is_valid(state: &[u32], store: &[u8], outbox: &[u8]) -> bool
    ensures { result ≡ is_valid state.now store.now outbox.now }
{
    valid::is_valid(state, store, outbox)
}
