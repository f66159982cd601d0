// The table of tasks.
ghost use Rattle.std.specs.Prelude.{◌≡◌};
ghost use Rattle.board.specs.Boards.{task_board};
ghost use Rattle.board.specs.Table.{board};

use super::fill::{answer, fill_board};
use model::sizes::TASKS;
use status::row::TaskRow;

// A table has a row for each.
pub const ROWS: usize = TASKS as usize;

// The manual's tk_ref_tsk, of all tasks at once.
#[tactic(auto, unfolding(crate::specs::Boards::task_board))]
pub fn shinepod_ref_tsk(state: &[u32], store: &[u8], outbox: &[u8], rows: &mut [TaskRow]) -> i32
    ensures { board result rows.new ≡ task_board state.now store.now outbox.now rows.old }
{
    answer(fill_board(state, store, outbox, rows))
}
