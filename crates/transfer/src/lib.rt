// Messages go into and out of a buffer's region, and waiting senders are served at the end of a call.
#![tactic(auto)]

pub mod drain;
pub mod store;
