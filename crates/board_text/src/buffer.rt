// The table of buffers.
ghost use Rattle.board_text.specs.Tables.{buffer_table};

use super::cell::Cell;
use super::column::{Column, put_cell};
use super::table::Tabled;
use model::sizes::LARGEST_WORD;
use status::row::BufferRow;

impl Tabled for BufferRow {
    ghost table = { buffer_table };

    #[tactic(auto, unfolding(crate::specs::Column::in_column, crate::specs::Tables::buffer_table))]
    fn header() -> &'static [u8] {
        b"buffer  free bytes  room for maxmsz  next message  first receiver  first sender\n"
    }

    #[tactic(auto, unfolding(crate::specs::Tables::buffer_table))]
    fn nothing() -> &'static [u8] {
        b"no buffers\n"
    }

    #[tactic(auto, unfolding(crate::specs::Tables::buffer_table))]
    fn shown(self) -> bool {
        self.free != LARGEST_WORD
    }

    fn put_row(self, text: &mut [u8], at: usize, n: u32) -> usize {
        let next = put_cell(text, at, Column::Right(6), Cell::Number(n));
        let next = put_cell(text, next, Column::Right(10), Cell::Number(self.free));
        let next = put_cell(text, next, Column::Right(15), Cell::Signed(self.room));
        let next = put_cell(text, next, Column::Right(12), Cell::Length(self.next));
        let next = put_cell(text, next, Column::Left(14), Cell::Task(self.receiver));
        put_cell(text, next, Column::Last, Cell::Task(self.sender))
    }
}
