// The first of any queue. A queue is named by the place that its tasks have and the number of the object that they wait for.
ghost use Rattle.std.specs.Prelude.{◌≡◌, cond};
ghost use Rattle.model.specs.Lists.{◌!◌, select, head_of};
ghost use Rattle.model.specs.Number.{maybe_task};
ghost use Rattle.model.specs.Facts.{queue};
ghost use Rattle.model.specs.Queue.{by_priority, sorted};
ghost use Rattle.model.specs.Kernel.{facts, numbered, stands_in};
ghost use Rattle.model.specs.World.{queue_front, heads_queue};
ghost use Rattle.model.specs.Words.{kernel};
ghost use Rattle.queue.specs.Better.{better};

use model::attribute::{BY_ARRIVAL, BY_PRIORITY, PROTECTION};
use model::number::{BufferNumber, MutexNumber, PoolNumber, TaskNumber};
use model::sizes::PLACES;
use state::arrival::task;
use state::layout::Words;
use state::task::{GETTING, LOCKING, READY, SENDING};

// Whether the task of a number stands in a queue; a number that is no task's stands nowhere.
pub fn stands_in(state: &Words, u: u32, place: u32, object: u32) -> bool
    ensures { result ≡ stands_in (kernel state.now) (queue place object) u }
{
    let found = TaskNumber::from_word(u);
    let Some(t) = found else {
        return false;
    };
    if state::task::place(state, t) != place {
        return false;
    }
    state::task::object(state, t) == object
}

// The attribute of a mutex, a buffer or a pool by its number, 0 where there is none.
fn mutex_attribute(state: &Words, n: u32) -> u32
    ensures { result ≡ numbered (kernel state.now).mutexes.attribute ! n }
{
    let found = MutexNumber::from_word(n);
    let Some(m) = found else {
        return 0;
    };
    state::mutex::attribute(state, m)
}

fn buffer_attribute(state: &Words, n: u32) -> u32
    ensures { result ≡ numbered (kernel state.now).buffers.attribute ! n }
{
    let found = BufferNumber::from_word(n);
    let Some(b) = found else {
        return 0;
    };
    state::buffer::attribute(state, b)
}

fn pool_attribute(state: &Words, n: u32) -> u32
    ensures { result ≡ numbered (kernel state.now).pools.attribute ! n }
{
    let found = PoolNumber::from_word(n);
    let Some(p) = found else {
        return 0;
    };
    state::pool::attribute(state, p)
}

// The current priority of a task by its number, 0 where there is none.
pub fn current(state: &Words, u: u32) -> u32
    ensures { result ≡ numbered (kernel state.now).tasks.current ! u }
{
    let found = TaskNumber::from_word(u);
    let Some(t) = found else {
        return 0;
    };
    state::task::current(state, t)
}

// Whether a queue goes by current priority, and not by arrival alone.
pub fn by_priority(state: &Words, place: u32, object: u32) -> bool
    ensures { result ≡ by_priority (facts (kernel state.now)) (queue place object) }
{
    if place == READY {
        return true;
    }
    if place == LOCKING {
        return BY_ARRIVAL < mutex_attribute(state, object);
    }
    if place == SENDING {
        return buffer_attribute(state, object) == BY_PRIORITY;
    }
    if place == GETTING {
        return pool_attribute(state, object) % PROTECTION == BY_PRIORITY;
    }
    false
}

// The longest-standing task of a queue, 0 if nobody stands there.
fn oldest(state: &Words, place: u32, object: u32) -> u32
    ensures { result ≡ head_of (select (stands_in (kernel state.now) (queue place object)) (kernel state.now).arrivals) }
{
    for i in 0..PLACES {
        let u = task(state, i);
        if stands_in(state, u, place, object) {
            return u;
        }
    }
    0
}

// The better of the best so far, 0 for none, and a task that arrived after it.
fn better_of(state: &Words, best: u32, u: u32) -> u32
    ensures { result ≡ better (numbered (kernel state.now).tasks.current) best u }
{
    if best == 0 {
        return u;
    }
    if current(state, u) < current(state, best) {
        u
    } else {
        best
    }
}

// The best so far once one more number of the arrival order has been seen.
fn best_with(state: &Words, best: u32, u: u32, place: u32, object: u32) -> u32
    ensures { result ≡ cond (stands_in (kernel state.now) (queue place object) u) (better (numbered (kernel state.now).tasks.current) best u) best }
{
    if stands_in(state, u, place, object) {
        better_of(state, best, u)
    } else {
        best
    }
}

// The most urgent task of a queue, of several the longest-standing, 0 if nobody stands there.
fn most_urgent(state: &Words, place: u32, object: u32) -> u32
    ensures { result ≡ head_of (sorted (kernel state.now).tasks.current (select (stands_in (kernel state.now) (queue place object)) (kernel state.now).arrivals)) }
{
    let mut best: u32 = 0;
    for i in 0..PLACES {
        best = best_with(state, best, task(state, i), place, object);
    }
    best
}

// The first of a queue.
pub fn front(state: &Words, place: u32, object: u32) -> Option<TaskNumber>
    ensures { result ≡ maybe_task (queue_front (kernel state.now) (queue place object)) }
{
    if by_priority(state, place, object) {
        TaskNumber::from_word(most_urgent(state, place, object))
    } else {
        TaskNumber::from_word(oldest(state, place, object))
    }
}

// Whether a task would be the first of a queue if it arrived there now.
pub fn would_head(state: &Words, place: u32, object: u32, t: TaskNumber) -> bool
    ensures { result ≡ heads_queue (kernel state.now) (queue place object) t.0 }
{
    let found = front(state, place, object);
    let Some(first) = found else {
        return true;
    };
    if first.word() == t.word() {
        return true;
    }
    if by_priority(state, place, object) {
        return state::task::current(state, t) < state::task::current(state, first);
    }
    false
}
