// The table of tasks.
ghost use Rattle.board_text.specs.Tables.{task_table};

use super::cell::Cell;
use super::column::{Column, put_cell};
use super::table::Tabled;
use model::sizes::LARGEST_WORD;
use status::row::TaskRow;

impl Tabled for TaskRow {
    ghost table = { task_table };

    #[tactic(auto, unfolding(crate::specs::Column::in_column, crate::specs::Tables::task_table))]
    fn header() -> &'static [u8] {
        b"task  state    base  current  waits for  time left\n"
    }

    #[tactic(auto, unfolding(crate::specs::Tables::task_table))]
    fn nothing() -> &'static [u8] {
        b"no tasks\n"
    }

    #[tactic(auto, unfolding(crate::specs::Tables::task_table))]
    fn shown(self) -> bool {
        self.state != LARGEST_WORD
    }

    fn put_row(self, text: &mut [u8], at: usize, n: u32) -> usize {
        let next = put_cell(text, at, Column::Right(4), Cell::Number(n));
        let next = put_cell(text, next, Column::Left(7), Cell::State(self.state));
        let next = put_cell(text, next, Column::Right(4), Cell::Number(self.base));
        let next = put_cell(text, next, Column::Right(7), Cell::Number(self.current));
        let next = put_cell(
            text,
            next,
            Column::Left(9),
            Cell::Awaited(self.kind, self.object),
        );
        put_cell(text, next, Column::Last, Cell::Time(self.left))
    }
}
