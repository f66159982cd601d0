// The status of an object, as the manual's tk_ref calls give it: the rows of the tables that `board` fills, and what each holds.
#![tactic(auto)]

pub mod buffer;
pub mod mutex;
pub mod pool;
pub mod row;
pub mod task;
mod waiter;
