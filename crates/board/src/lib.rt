// The status board: the manual's tk_ref_tsk, tk_ref_mtx, tk_ref_mbf and tk_ref_mpf for all objects at once. The caller lends a table of rows; row n,
// counted from 1, is object n's, and only rows of objects that exist are written. The kernel is lent by `&` and is not altered.
//
// One generic function fills a table, over any kind of row; the four are that function at the four kinds. The crate `board_c` hands them to C.
#![tactic(auto)]

pub mod buffer;
mod fill;
pub mod mutex;
pub mod pool;
pub mod table;
pub mod task;
