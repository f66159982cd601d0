// Texts that people read: the names of calls, fields and errors, numbers, messages, and the lines that show a script as it runs.
#![tactic(auto)]

pub mod item;
pub mod names;
pub mod number;
pub mod place;
pub mod quoted;
pub mod turn;
