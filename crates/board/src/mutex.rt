// The table of mutexes.
ghost use Rattle.std.specs.Prelude.{◌≡◌};
ghost use Rattle.board.specs.Boards.{mutex_board};
ghost use Rattle.board.specs.Table.{board};

use super::fill::{answer, fill_board};
use model::sizes::MUTEXES;
use status::row::MutexRow;

// A table has a row for each.
pub const ROWS: usize = MUTEXES as usize;

// The manual's tk_ref_mtx, of all mutexes at once.
#[tactic(auto, unfolding(crate::specs::Boards::mutex_board))]
pub fn shinepod_ref_mtx(state: &[u32], store: &[u8], outbox: &[u8], rows: &mut [MutexRow]) -> i32
    ensures { board result rows.new ≡ mutex_board state.now store.now outbox.now rows.old }
{
    answer(fill_board(state, store, outbox, rows))
}
