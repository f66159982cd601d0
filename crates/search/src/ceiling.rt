// "a base above the ceiling of a mutex that task holds or waits for", for any base, also one that is not yet set.
ghost use Rattle.std.specs.Prelude.{ℕ, ◌≡◌, ◌≤◌, ◌&&◌, ◌||◌, eqb, ltb};
ghost use Rattle.model.specs.Sizes.{mutexes};
ghost use Rattle.model.specs.Lists.{◌!◌, any, up_to};
ghost use Rattle.model.specs.Facts.{queue, locking, ceilinged};
ghost use Rattle.model.specs.Kernel.{stands_in};
ghost use Rattle.model.specs.Refusal.{above_ceiling};
ghost use Rattle.model.specs.Words.{kernel};

use model::attribute::CEILINGED;
use model::number::{MutexNumber, TaskNumber};
use state::layout::Words;
use state::task::LOCKING;

// The mutex that a task waits for, 0 for none. It is read here once, and not for each mutex.
fn awaited(state: &Words, t: TaskNumber) -> u32
    ensures { (m : ℕ) → 1 ≤ m → eqb result m ≡ stands_in (kernel state.now) (queue locking m) t.0 }
{
    let Some(u) = TaskNumber::from_word(t.word()) else {
        return 0;
    };
    if state::task::place(state, u) != LOCKING {
        return 0;
    }
    state::task::object(state, u)
}

// The sentence of one mutex, by the mutex that the task waits for; above is more urgent, a lesser number.
fn above_ceiling(state: &Words, base: u32, t: TaskNumber, awaited: u32, m: MutexNumber) -> bool
    ensures { result ≡ eqb ((kernel state.now).mutexes.attribute ! m.0) ceilinged && (eqb ((kernel state.now).mutexes.holder ! m.0) t.0 || eqb awaited m.0) && ltb base ((kernel state.now).mutexes.ceiling ! m.0) }
{
    // most mutexes end here
    let top = state::mutex::ceiling(state, m);
    if top <= base {
        return false;
    }
    let attribute = state::mutex::attribute(state, m);
    let holder = state::mutex::holder(state, m);
    let n = t.word();
    let waits = awaited == m.word();
    (attribute == CEILINGED) & ((holder == n) | waits)
}

// The same of any mutex.
pub fn above_any_ceiling(state: &Words, base: u32, t: TaskNumber) -> bool
    ensures { result ≡ any (above_ceiling (kernel state.now) base t.0) (up_to mutexes) }
{
    let mutex = awaited(state, t);
    MutexNumber::any(move |m| above_ceiling(state, base, t, mutex, m))
}
