// The check of a lent state: whether it and the two lent areas are valid, 01's "Sound" with what 02 adds to it.
#![tactic(auto)]

mod arrival;
mod ceiling;
mod current;
mod entry;
pub mod next;
mod object;
mod pool;
mod range;
mod wait;
mod waiter;

ghost use Rattle.std.specs.Prelude.{◌≡◌};
ghost use Rattle.model.specs.Valid.{TaskLists, MutexLists, BufferLists, PoolLists};
ghost use Rattle.model.specs.Flags.{joined_flags};
ghost use Rattle.model.specs.Words.{kernel};
ghost use Rattle.model.specs.Lent.{lent, is_valid};
ghost use Rattle.valid.specs.Check.{right_lengths, none_zero, clauses};

use areas::layout::regions_laid_out;
use areas::outbox::outbox_laid_out;
use model::sizes::{OUTBOX_BYTES, STORE_BYTES};
use state::layout::{WORDS, Words};
use state::none;

// "state not sound, or an area not exactly" as long as it has to be: the lengths come first, so that whatever is lent can be read.
pub fn right_lengths(state: &[u32], store: &[u8], outbox: &[u8]) -> bool
    ensures { result ≡ right_lengths state.now store.now outbox.now }
{
    (state.len() == WORDS) & (store.len() == STORE_BYTES) & (outbox.len() == OUTBOX_BYTES)
}

// Entry 0 of every list is zero, so a number that names nothing can be followed.
fn none_zero(state: &Words) -> bool
    ensures { result ≡ none_zero (kernel state.now) }
{
    none::tasks_zero(state)
        & none::mutexes_zero(state)
        & none::buffers_zero(state)
        & none::pools_zero(state)
}

// All other clauses.
fn clauses_hold(state: &Words, store: &[u8], outbox: &[u8]) -> bool
    requires task_lists { TaskLists (kernel state.now).tasks }
    requires mutex_lists { MutexLists (kernel state.now).mutexes }
    requires buffer_lists { BufferLists (kernel state.now).buffers }
    requires pool_lists { PoolLists (kernel state.now).pools }
    ensures { result ≡ joined_flags (clauses (lent state.now store.now outbox.now)) }
{
    object::tasks_valid(state)
        & range::mutexes_in_range(state)
        & object::buffers_valid(state)
        & range::pools_in_range(state)
        & pool::flags(state)
        & pool::pools_fit(state)
        & arrival::arrivals(state)
        & current::priorities(state)
        & current::bitmap(state)
        & regions_laid_out(state, store)
        & outbox_laid_out(state, outbox)
}

// Whether what is lent is valid. Nothing is asked of its lengths or of what it holds, and nothing is changed.
pub fn is_valid(state: &[u32], store: &[u8], outbox: &[u8]) -> bool
    ensures { result ≡ is_valid state.now store.now outbox.now }
{
    if !right_lengths(state, store, outbox) {
        return false;
    }
    let Some(words) = state.as_array() else {
        return false;
    };
    if !none_zero(words) {
        return false;
    }
    clauses_hold(words, store, outbox)
}
