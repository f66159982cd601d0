// The text of the status board: a table each of tasks, mutexes, buffers and pools, and the whole of what the wall shows.
#![tactic(auto)]

pub mod buffer;
pub mod cell;
pub mod column;
pub mod mutex;
pub mod pool;
pub mod table;
pub mod task;
pub mod wall;
