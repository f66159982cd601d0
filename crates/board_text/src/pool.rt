// The table of pools.
ghost use Rattle.board_text.specs.Tables.{pool_table};

use super::cell::Cell;
use super::column::{Column, put_cell};
use super::table::Tabled;
use model::sizes::LARGEST_WORD;
use status::row::PoolRow;

impl Tabled for PoolRow {
    ghost table = { pool_table };

    #[tactic(auto, unfolding(crate::specs::Column::in_column, crate::specs::Tables::pool_table))]
    fn header() -> &'static [u8] {
        b"pool  free blocks  first waiter\n"
    }

    #[tactic(auto, unfolding(crate::specs::Tables::pool_table))]
    fn nothing() -> &'static [u8] {
        b"no pools\n"
    }

    #[tactic(auto, unfolding(crate::specs::Tables::pool_table))]
    fn shown(self) -> bool {
        self.free != LARGEST_WORD
    }

    fn put_row(self, text: &mut [u8], at: usize, n: u32) -> usize {
        let next = put_cell(text, at, Column::Right(4), Cell::Number(n));
        let next = put_cell(text, next, Column::Right(11), Cell::Number(self.free));
        put_cell(text, next, Column::Last, Cell::Task(self.waiter))
    }
}
