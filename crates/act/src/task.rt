// Acts on one task: it becomes dormant, it joins its queue anew, a millisecond of its wait passes.
ghost use Rattle.model.specs.Act.{become_dormant};
ghost use Rattle.model.specs.Effect.{rejoin as rejoined, tick_task};
ghost use Rattle.model.specs.Words.{kernel};
ghost use Rattle.state.specs.Words.{Represents};
ghost use Rattle.act.specs.Held.{DoesInLog};
ghost use Rattle.act.specs.Ends.{Retires};

use super::mutex::release_all;
use super::wait::{end_wait, leave};
use model::code::E_TMOUT;
use model::number::TaskNumber;
use model::sizes::ENDLESS;
use priority::recompute;
use queue::arrival::{arrive_last, depart};
use queue::front::by_priority;
use state::layout::Words;
use state::task::DORMANT;

// The task has left its wait, stands in no queue and has its initial priority for a base again, before it gives up its mutexes.
fn retire(state: &mut Words, outbox: &mut [u8], t: TaskNumber)
    ensures { Retires t.0 state.old outbox.old state.new outbox.new }
{
    leave(state, outbox, t);
    depart(state, t);
    state::task::set_place(state, t, DORMANT);
    let p = state::task::initial(state, t);
    state::task::set_base(state, t, p);
    recompute(state);
}

// "the task leaves its wait unanswered, then gives up its mutexes".
pub fn become_dormant(
    state: &mut Words,
    outbox: &mut [u8],
    log: &mut [u8],
    at: usize,
    t: TaskNumber,
) -> usize
    ensures { DoesInLog (λ w. become_dormant w t.0) state.old outbox.old log.old at state.new outbox.new log.new result }
{
    retire(state, outbox, t);
    release_all(state, outbox, log, at, t)
}

// "chg_pri counts as joining anew, except in lines by joining only"; by 02, request Five, "only if current and base priority are
// equal afterwards": priorities are settled before this is asked. A dormant task stands in no queue.
pub fn rejoin(state: &mut Words, t: TaskNumber)
    ensures { Represents state.new (rejoined (kernel state.old) t.0) }
{
    let place = state::task::place(state, t);
    let object = state::task::object(state, t);
    let current = state::task::current(state, t);
    let base = state::task::base(state, t);
    if by_priority(state, place, object) & (current == base) {
        arrive_last(state, t);
    }
}

// A millisecond passes for one task: without a wait, or with one that has no end, nothing changes.
pub fn tick_task(
    state: &mut Words,
    outbox: &mut [u8],
    log: &mut [u8],
    at: usize,
    t: TaskNumber,
) -> usize
    ensures { DoesInLog (λ w. tick_task w t.0) state.old outbox.old log.old at state.new outbox.new log.new result }
{
    let left = state::task::left(state, t);
    if left == 0 {
        return at;
    }
    if left == ENDLESS {
        return at;
    }
    if left == 1 {
        return end_wait(state, outbox, log, at, t, E_TMOUT);
    }
    state::task::set_left(state, t, left - 1);
    at
}
