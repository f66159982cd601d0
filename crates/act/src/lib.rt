// The acts that effects are made of, over the lent words and areas and the place where the log goes on: waits begin and end, mutexes are given
// up, tasks become dormant, a millisecond passes.
#![tactic(auto)]

pub mod mutex;
pub mod task;
pub mod wait;
pub mod waits;
