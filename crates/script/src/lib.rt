// The bytes of scripts and logs: records are read and written, and the items of a log are appended to a lent area.
// The definitions that contracts cite are those of `model`, and in specs/ where the bytes go in an area.
#![tactic(auto)]

pub mod body;
pub mod field;
pub mod log;
pub mod place;
pub mod reader;
pub mod writer;
