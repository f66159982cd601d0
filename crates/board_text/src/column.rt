// How a cell stands in its column.
ghost use Rattle.std.specs.Prelude.{◌-◌};
ghost use Rattle.script.specs.Place.{Wrote};
ghost use Rattle.board_text.specs.Cell.{cell_text};
ghost use Rattle.board_text.specs.Column.{spaces, in_column};

use super::cell::{Cell, put_content};
use script::place::put;

// At the right or at the left of a column that is so wide; or in the last column, where the line ends behind it.
#[derive(Clone, Copy)]
pub enum Column {
    Right(usize),
    Left(usize),
    Last,
}

// No cell is longer.
const CELL_BYTES: usize = 32;

fn put_spaces(text: &mut [u8], at: usize, n: usize) -> usize
    ensures { Wrote text.old at (spaces n) text.new result }
{
    let mut next = at;
    for _ in 0..n {
        next = put(text, next, b" ");
    }
    next
}

fn put_in_column(text: &mut [u8], at: usize, column: Column, cell: &[u8]) -> usize
    ensures { Wrote text.old at (in_column column cell.now) text.new result }
{
    match column {
        Column::Right(width) => {
            let next = put_spaces(text, at, width.saturating_sub(cell.len()));
            let next = put(text, next, cell);
            put(text, next, b"  ")
        }
        Column::Left(width) => {
            let next = put(text, at, cell);
            let next = put_spaces(text, next, width.saturating_sub(cell.len()));
            put(text, next, b"  ")
        }
        Column::Last => {
            let next = put(text, at, cell);
            put(text, next, b"\n")
        }
    }
}

// A cell goes to a place of its own first, since its column has to know how long it is.
pub(crate) fn put_cell(text: &mut [u8], at: usize, column: Column, cell: Cell) -> usize
    ensures { Wrote text.old at (in_column column (cell_text cell)) text.new result }
{
    let mut content = [0u8; CELL_BYTES];
    let n = put_content(&mut content, 0, cell);
    put_in_column(text, at, column, &content[..n])
}
