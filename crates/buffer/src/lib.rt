// The calls of message buffers: of each, the first refusal in the order of document 01's table, and what it does once none applies.
#![tactic(auto)]

pub mod create;
pub mod delete;
pub mod receive;
pub mod send;
