// The tables by value, for whoever has no slice of rows to lend. A table of blank rows is lent. Of a valid state a
// row that is blank afterwards is of no object; of any other all are blank.
ghost use Rattle.std.specs.Prelude.{◌≡◌, replicate};
ghost use Rattle.board.specs.Boards.{task_board, mutex_board, buffer_board, pool_board};
ghost use Rattle.board.specs.Table.{board_of};
ghost use Rattle.model.specs.Lent.{is_valid};
ghost use Rattle.model.specs.Sizes.{tasks, mutexes, buffers, pools};
ghost use Rattle.status.specs.Blank.{blank_task, blank_mutex, blank_buffer, blank_pool};

use super::fill::fill_board;
use super::{buffer, mutex, pool, task};
use status::row::{BufferRow, MutexRow, PoolRow, Row, TaskRow};

fn table<R: Row, const N: usize>(state: &[u32], store: &[u8], outbox: &[u8]) -> [R; N]
    ensures { result ≡ (board_of (is_valid state.now store.now outbox.now) R.Of.LAST (R.exists state.now) (R.row_of state.now store.now outbox.now) (replicate N R.blank)).rows }
{
    let mut rows = [R::blank(); N];
    // a table that could not be filled is handed over blank
    let _ = fill_board(state, store, outbox, &mut rows);
    rows
}

#[tactic(auto, unfolding(crate::specs::Boards::task_board))]
pub fn task_table(state: &[u32], store: &[u8], outbox: &[u8]) -> [TaskRow; task::ROWS]
    ensures { result ≡ (task_board state.now store.now outbox.now (replicate tasks blank_task)).rows }
{
    table(state, store, outbox)
}

#[tactic(auto, unfolding(crate::specs::Boards::mutex_board))]
pub fn mutex_table(state: &[u32], store: &[u8], outbox: &[u8]) -> [MutexRow; mutex::ROWS]
    ensures { result ≡ (mutex_board state.now store.now outbox.now (replicate mutexes blank_mutex)).rows }
{
    table(state, store, outbox)
}

#[tactic(auto, unfolding(crate::specs::Boards::buffer_board))]
pub fn buffer_table(state: &[u32], store: &[u8], outbox: &[u8]) -> [BufferRow; buffer::ROWS]
    ensures { result ≡ (buffer_board state.now store.now outbox.now (replicate buffers blank_buffer)).rows }
{
    table(state, store, outbox)
}

#[tactic(auto, unfolding(crate::specs::Boards::pool_board))]
pub fn pool_table(state: &[u32], store: &[u8], outbox: &[u8]) -> [PoolRow; pool::ROWS]
    ensures { result ≡ (pool_board state.now store.now outbox.now (replicate pools blank_pool)).rows }
{
    table(state, store, outbox)
}
