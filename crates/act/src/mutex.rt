// Mutexes are given up.
ghost use Rattle.model.specs.Sizes.{mutexes};
ghost use Rattle.model.specs.Valid.{From, Arrivals, Priorities, Bitmap};
ghost use Rattle.model.specs.Act.{release as released, release_all};
ghost use Rattle.model.specs.Words.{kernel};
ghost use Rattle.act.specs.Held.{DoesInLog};
ghost use Rattle.act.specs.Ends.{release_held};

use super::wait::end_wait;
use model::attribute::CEILINGED;
use model::code::E_OK;
use model::number::{MutexNumber, TaskNumber};
use model::sizes::MUTEXES;
use priority::recompute;
use queue::front::front;
use state::layout::Words;
use state::mutex::{attribute, holder, set_holder};
use state::task::LOCKING;

// "the first waiter gets it and its wait ends with 0"; without a waiter it is free.
pub fn release(
    state: &mut Words,
    outbox: &mut [u8],
    log: &mut [u8],
    at: usize,
    m: MutexNumber,
) -> usize
    ensures { DoesInLog (λ w. released w m.0) state.old outbox.old log.old at state.new outbox.new log.new result }
{
    let first = front(state, LOCKING, m.word());
    let Some(t) = first else {
        set_holder(state, m, 0);
        recompute(state);
        return at;
    };
    set_holder(state, m, t.word());
    end_wait(state, outbox, log, at, t, E_OK)
}

// The same where priorities are settled and the bits go with them, which `release` does not ask: a mutex without a ceiling that nobody waits for becomes free, and no priority changes.
pub fn release_settled(
    state: &mut Words,
    outbox: &mut [u8],
    log: &mut [u8],
    at: usize,
    m: MutexNumber,
) -> usize
    requires priorities { Priorities (kernel state.old) }
    requires bitmap { Bitmap (kernel state.old) }
    requires arrivals { Arrivals (kernel state.old) }
    ensures { DoesInLog (λ w. released w m.0) state.old outbox.old log.old at state.new outbox.new log.new result }
{
    let first = front(state, LOCKING, m.word());
    let Some(t) = first else {
        let a = attribute(state, m);
        set_holder(state, m, 0);
        if a == CEILINGED {
            recompute(state);
        }
        return at;
    };
    set_holder(state, m, t.word());
    end_wait(state, outbox, log, at, t, E_OK)
}

// Gives up the mutex of a number, if the task holds it. Each number that is asked for names a mutex.
fn release_held(
    state: &mut Words,
    outbox: &mut [u8],
    log: &mut [u8],
    at: usize,
    n: u32,
    t: TaskNumber,
) -> usize
    requires { From 1 mutexes n }
    ensures { DoesInLog (release_held t.0 n) state.old outbox.old log.old at state.new outbox.new log.new result }
{
    let found = MutexNumber::from_word(n);
    let Some(m) = found else {
        return at;
    };
    if holder(state, m) != t.word() {
        return at;
    }
    release(state, outbox, log, at, m)
}

// All that a task holds: "gives up its mutexes from the lowest number, priorities settled after each act".
pub(crate) fn release_all(
    state: &mut Words,
    outbox: &mut [u8],
    log: &mut [u8],
    at: usize,
    t: TaskNumber,
) -> usize
    ensures { DoesInLog (λ w. release_all w t.0) state.old outbox.old log.old at state.new outbox.new log.new result }
{
    let mut next = at;
    for n in 0..MUTEXES {
        next = release_held(state, outbox, log, next, n + 1, t);
    }
    next
}
