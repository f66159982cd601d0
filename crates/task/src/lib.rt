// The calls of tasks: of each, the first refusal in the order of document 01's table, and what it does once none applies.
#![tactic(auto)]

pub mod change;
pub mod create;
pub mod run;
