// The table of mutexes.
ghost use Rattle.board_text.specs.Tables.{mutex_table};

use super::cell::Cell;
use super::column::{Column, put_cell};
use super::table::Tabled;
use model::sizes::LARGEST_WORD;
use status::row::MutexRow;

impl Tabled for MutexRow {
    ghost table = { mutex_table };

    #[tactic(auto, unfolding(crate::specs::Column::in_column, crate::specs::Tables::mutex_table))]
    fn header() -> &'static [u8] {
        b"mutex  holder   first waiter\n"
    }

    #[tactic(auto, unfolding(crate::specs::Tables::mutex_table))]
    fn nothing() -> &'static [u8] {
        b"no mutexes\n"
    }

    #[tactic(auto, unfolding(crate::specs::Tables::mutex_table))]
    fn shown(self) -> bool {
        self.holder != LARGEST_WORD
    }

    fn put_row(self, text: &mut [u8], at: usize, n: u32) -> usize {
        let next = put_cell(text, at, Column::Right(5), Cell::Number(n));
        let next = put_cell(text, next, Column::Left(7), Cell::Task(self.holder));
        put_cell(text, next, Column::Last, Cell::Task(self.waiter))
    }
}
