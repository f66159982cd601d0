// Messages: how they lie in a buffer's region and in the outbox, and the next one to be received.
#![tactic(auto)]

pub mod copy;
pub mod next;
pub mod outbox;
mod part;
pub mod region;
pub mod room;
pub mod store;
