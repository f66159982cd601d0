// The calls of mutexes: of each, the first refusal in the order of document 01's table, and what it does once none applies.
#![tactic(auto)]

pub mod create;
pub mod delete;
pub mod lock;
pub mod unlock;
