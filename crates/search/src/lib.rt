// What calls and the check of a state look for: a number or a block that is not in use, the room that is left for pools, a ceiling
// that a base is above, a sender whose message fits.
#![tactic(auto)]

pub mod block;
pub mod ceiling;
pub mod room;
pub mod sender;
pub mod unused;
