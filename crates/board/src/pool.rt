// The table of pools.
ghost use Rattle.std.specs.Prelude.{◌≡◌};
ghost use Rattle.board.specs.Boards.{pool_board};
ghost use Rattle.board.specs.Table.{board};

use super::fill::{answer, fill_board};
use model::sizes::POOLS;
use status::row::PoolRow;

// A table has a row for each.
pub const ROWS: usize = POOLS as usize;

// The manual's tk_ref_mpf, of all pools at once.
#[tactic(auto, unfolding(crate::specs::Boards::pool_board))]
pub fn shinepod_ref_mpf(state: &[u32], store: &[u8], outbox: &[u8], rows: &mut [PoolRow]) -> i32
    ensures { board result rows.new ≡ pool_board state.now store.now outbox.now rows.old }
{
    answer(fill_board(state, store, outbox, rows))
}
