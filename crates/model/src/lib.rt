// What every other crate speaks of: sizes, numbers of objects, attributes, calls, answers, error codes, the table of kinds and the tags of a log.
// The definitions that contracts cite are in specs/.
#![tactic(auto)]

pub mod attribute;
pub mod bytes;
pub mod call;
pub mod code;
pub mod item;
pub mod kind;
pub mod number;
pub mod sizes;
pub mod stream;
