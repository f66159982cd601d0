// The functions of this crate print by themselves: their contracts say each byte, in fixed memory, which Display does not.
// What the tables have in common beside their cells: a header above the rows that are shown, and one line where none is.
ghost use Rattle.std.specs.Prelude.{◌≡◌, ◌<◌, ◌^◌, length};
ghost use Rattle.board_text.specs.Column.{header};
ghost use Rattle.board_text.specs.Table.{Table, row_line, table_text, unless};
ghost use Rattle.script.specs.Place.{Appends, Wrote};
ghost use Rattle.text.specs.Names.{ascii};

use script::place::put;

// A kind of row, and how a table of it reads.
pub(crate) trait Tabled: Copy {
    ghost table: { Table Self };

    // The titles, and what stands where no row is shown, each as a line.
    fn header() -> &'static [u8]
        ensures { result.now ≡ header table.columns };

    fn nothing() -> &'static [u8]
        ensures { result.now ≡ ascii table.nothing };

    // Whether the row was written: the others are blank.
    fn shown(self) -> bool
        ensures { result ≡ table.shown self };

    // The line of object n.
    fn put_row(self, text: &mut [u8], at: usize, n: u32) -> usize
        ensures { Wrote text.old at (row_line table n self) text.new result };
}

// A line that stands only where none is there yet.
#[tactic(auto, using(crate::proofs::Rows::not_there))]
fn put_unless(text: &mut [u8], at: usize, any: bool, line: &[u8]) -> usize
    ensures { Appends text.old at (unless any line.now) text.new result }
{
    if any { at } else { put(text, at, line) }
}

// A row's number has 32 bits.
pub(crate) fn put_table<R: Tabled>(text: &mut [u8], at: usize, rows: &[R]) -> usize
    requires { length rows.now < 2 ^ 32 }
    ensures { Wrote text.old at (table_text R.table rows.now) text.new result }
{
    let mut next = at;
    let mut any = false;
    for (i, row) in rows.iter().enumerate() {
        if !row.shown() {
            continue;
        }
        let first = put_unless(text, next, any, R::header());
        next = row.put_row(text, first, i as u32 + 1);
        any = true;
    }
    put_unless(text, next, any, R::nothing())
}
