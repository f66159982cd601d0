// 01, "Sound": "each task in one line or dormant [..] no two in a line having joined at once": the arrival order has each started task
// once, and nobody else.
ghost use Rattle.std.specs.Prelude.{◌≡◌, cond, eqb};
ghost use Rattle.model.specs.Sizes.{tasks};
ghost use Rattle.model.specs.Lists.{all, occurrences, padded, same, up_to};
ghost use Rattle.model.specs.Valid.{arrivals};
ghost use Rattle.model.specs.Words.{kernel};
ghost use Rattle.valid.specs.Parts.{stands_once, has_started, given};

use super::range::may_hold;
use model::number::TaskNumber;
use model::sizes::PLACES;
use state::arrival::task;
use state::layout::Words;
use state::task::READY;

// 1 for two numbers that are the same, else 0.
fn one_if_same(u: u32, v: u32) -> usize
    ensures { result ≡ cond (eqb u v) 1 0 }
{
    if u == v { 1 } else { 0 }
}

// How often a number stands in the arrival order.
fn times(state: &Words, u: u32) -> usize
    ensures { result ≡ occurrences u (kernel state.now).arrivals }
{
    let mut count: usize = 0;
    for i in 0..PLACES {
        count += one_if_same(u, task(state, i));
    }
    count
}

// A started task stands there once.
fn stands_once(state: &Words, t: TaskNumber) -> bool
    ensures { result ≡ stands_once (kernel state.now) t.0 }
{
    let place = state::task::place(state, t);
    let n = times(state, t.word());
    let started = READY <= place;
    !started | (n == 1)
}

fn each_stands_once(state: &Words) -> bool
    ensures { result ≡ all (stands_once (kernel state.now)) (up_to tasks) }
{
    TaskNumber::every(|t| stands_once(state, t))
}

// Whoever stands there was started; a place may be none's.
fn all_started(state: &Words) -> bool
    ensures { result ≡ all (has_started (kernel state.now)) (kernel state.now).arrivals }
{
    for i in 0..PLACES {
        if !may_hold(state, task(state, i)) {
            return false;
        }
    }
    true
}

// "unused entries as in the fresh bench": the places that are nobody's stand last.
fn zeros_last(state: &Words) -> bool
    ensures { result ≡ same (kernel state.now).arrivals (padded tasks (given (kernel state.now).arrivals)) }
{
    let mut ended = false;
    for i in 0..PLACES {
        let t = task(state, i);
        if ended & (t != 0) {
            return false;
        }
        ended = t == 0;
    }
    true
}

// All that is asked of the arrival order.
pub(crate) fn arrivals(state: &Words) -> bool
    ensures { result ≡ arrivals (kernel state.now) }
{
    each_stands_once(state) & all_started(state) & zeros_last(state)
}
