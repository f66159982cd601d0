// The table of buffers.
ghost use Rattle.std.specs.Prelude.{◌≡◌};
ghost use Rattle.board.specs.Boards.{buffer_board};
ghost use Rattle.board.specs.Table.{board};

use super::fill::{answer, fill_board};
use model::sizes::BUFFERS;
use status::row::BufferRow;

// A table has a row for each.
pub const ROWS: usize = BUFFERS as usize;

// The manual's tk_ref_mbf, of all buffers at once.
#[tactic(auto, unfolding(crate::specs::Boards::buffer_board))]
pub fn shinepod_ref_mbf(state: &[u32], store: &[u8], outbox: &[u8], rows: &mut [BufferRow]) -> i32
    ensures { board result rows.new ≡ buffer_board state.now store.now outbox.now rows.old }
{
    answer(fill_board(state, store, outbox, rows))
}
