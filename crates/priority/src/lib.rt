// Current priorities: a task's own priority, the walks that raise those that it leads to, and all of them worked out afresh.
#![tactic(auto)]

mod own;
mod walk;

ghost use Rattle.std.specs.Prelude.{◌≤◌};
ghost use Rattle.model.specs.Sizes.{tasks, mutexes};
ghost use Rattle.model.specs.Kernel.{with_current};
ghost use Rattle.model.specs.World.{recompute};
ghost use Rattle.model.specs.Words.{kernel};
ghost use Rattle.state.specs.Words.{Represents};
ghost use Rattle.priority.specs.Own.{base_of};
ghost use Rattle.priority.specs.Afresh.{at_bases, at_own, holder_at_own, passed_on, worked_out};

use model::number::TaskNumber;
use model::sizes::{MUTEXES, TASKS};
use ready::renew_bits;
use state::layout::Words;
use state::task;

// Every current priority becomes the effective one, whatever the words hold, and the bits of the priorities that have a ready task go with
// them.
pub fn recompute(state: &mut Words)
    ensures { Represents state.new (recompute (kernel state.old)) }
{
    work_out(state);
    renew_bits(state);
}

// The current priorities alone: each starts from the task's own, and then each task passes its current priority on.
pub fn work_out(state: &mut Words)
    ensures { Represents state.new (worked_out (kernel state.old)) }
{
    start_from_own(state);
    for n in 0..TASKS {
        pass_on(state, n + 1);
    }
}

// Every current priority becomes the task's own. Few mutexes have ceilings, so only the tasks that hold one are asked for more than their
// base priorities.
fn start_from_own(state: &mut Words)
    ensures { Represents state.new (at_own (kernel state.old)) }
{
    start_from_bases(state);
    for n in 0..MUTEXES {
        set_holder_to_own(state, n + 1);
    }
}

// Every current priority becomes the task's base priority. Entry 0, which is no task's, becomes 0.
fn start_from_bases(state: &mut Words)
    ensures { Represents state.new (at_bases (kernel state.old)) }
{
    task::set_every_current(state, 0);
    for n in 0..TASKS {
        set_to_base(state, n + 1);
    }
}

// The current priority of the task of a number becomes its base priority.
fn set_to_base(state: &mut Words, n: u32)
    requires le_n { 1 ≤ n }
    requires n_le_tasks { n ≤ tasks }
    ensures { Represents state.new (with_current (kernel state.old) n (base_of (kernel state.old) n)) }
{
    let Some(t) = TaskNumber::from_word(n) else {
        return;
    };
    let p = task::base(state, t);
    task::set_current(state, t, p);
}

// That of the task that holds a mutex whose ceiling counts, if any, becomes its own.
fn set_holder_to_own(state: &mut Words, n: u32)
    requires le_n { 1 ≤ n }
    requires n_le_mutexes { n ≤ mutexes }
    ensures { Represents state.new (holder_at_own (kernel state.old) n) }
{
    let Some(t) = own::ceiling_holder(state, n) else {
        return;
    };
    let p = own::own_priority(state, t);
    task::set_current(state, t, p);
}

// The tasks that the task of a number leads to are raised to its current priority.
fn pass_on(state: &mut Words, n: u32)
    requires le_n { 1 ≤ n }
    requires n_le_tasks { n ≤ tasks }
    ensures { Represents state.new (passed_on (kernel state.old) n) }
{
    let Some(t) = TaskNumber::from_word(n) else {
        return;
    };
    let Some(m) = walk::awaited_mutex(state, t) else {
        return;
    };
    let p = task::current(state, t);
    walk::raise_mutex(state, m, p);
}
