// Queues: the arrival order, kept in place; the first of any queue; the task that runs next.
#![tactic(auto)]

pub mod arrival;
pub mod front;
pub mod next;
