// What stands in a cell of a table, put at a place of a lent text.
ghost use Rattle.script.specs.Place.{Appends, Wrote};
ghost use Rattle.board_text.specs.Cell.{state_name, object_name, awaited_text, task_text, length_text, time_text, cell_text};

use model::kind::{CRE_MBF, CRE_MPF, CRE_MTX};
use script::place::put;
use status::row::{TTS_DMT, TTS_RDY, TTS_RUN, TTS_WAI};
use text::number::{put_number, put_signed};

// Kinds and states are numbers here, as in the rows, which C sees.
const MUTEX: u32 = CRE_MTX as u32;

const BUFFER: u32 = CRE_MBF as u32;

const POOL: u32 = CRE_MPF as u32;

// A number; one with a sign; a task's state; what a task waits for, by its creating kind and its number; milliseconds left; a task; the length of a message.
#[derive(Clone, Copy)]
pub enum Cell {
    Number(u32),
    Signed(i32),
    State(u32),
    Awaited(u32, u32),
    Time(i32),
    Task(u32),
    Length(u32),
}

fn put_state(text: &mut [u8], at: usize, state: u32) -> usize
    ensures { Appends text.old at (state_name state) text.new result }
{
    match state {
        TTS_RUN => put(text, at, b"running"),
        TTS_RDY => put(text, at, b"ready"),
        TTS_WAI => put(text, at, b"waiting"),
        TTS_DMT => put(text, at, b"dormant"),
        _ => at,
    }
}

// The name of what a kind creates, with a space behind it; nothing for a kind that creates nothing to wait for.
fn put_object(text: &mut [u8], at: usize, kind: u32) -> usize
    ensures { Appends text.old at (object_name kind) text.new result }
{
    match kind {
        MUTEX => put(text, at, b"mutex "),
        BUFFER => put(text, at, b"buffer "),
        POOL => put(text, at, b"pool "),
        _ => at,
    }
}

#[tactic(auto, using(crate::proofs::Cells::dash, crate::proofs::Cells::no_dash), unfolding(crate::specs::Cell::awaited_text))]
fn put_awaited(text: &mut [u8], at: usize, kind: u32, object: u32) -> usize
    ensures { Wrote text.old at (awaited_text kind object) text.new result }
{
    if kind == 0 {
        return put(text, at, b"-");
    }
    let next = put_object(text, at, kind);
    put_number(text, next, object as usize)
}

#[tactic(auto, using(crate::proofs::Cells::dash, crate::proofs::Cells::no_dash), unfolding(crate::specs::Cell::task_text))]
fn put_task(text: &mut [u8], at: usize, task: u32) -> usize
    ensures { Wrote text.old at (task_text task) text.new result }
{
    if task == 0 {
        return put(text, at, b"-");
    }
    let next = put(text, at, b"task ");
    put_number(text, next, task as usize)
}

#[tactic(auto, using(crate::proofs::Cells::dash, crate::proofs::Cells::no_dash), unfolding(crate::specs::Cell::length_text))]
fn put_length(text: &mut [u8], at: usize, n: u32) -> usize
    ensures { Wrote text.old at (length_text n) text.new result }
{
    if n == 0 {
        return put(text, at, b"-");
    }
    put_number(text, at, n as usize)
}

fn put_time(text: &mut [u8], at: usize, left: i32) -> usize
    ensures { Wrote text.old at (time_text left) text.new result }
{
    if left < 0 {
        return put(text, at, b"endless");
    }
    if left == 0 {
        return put(text, at, b"-");
    }
    let next = put_signed(text, at, left);
    put(text, next, b" ms")
}

#[tactic(auto, using(crate::proofs::Cells::told), unfolding(crate::specs::Cell::cell_text))]
pub(crate) fn put_content(text: &mut [u8], at: usize, cell: Cell) -> usize
    ensures { Wrote text.old at (cell_text cell) text.new result }
{
    match cell {
        Cell::Number(n) => put_number(text, at, n as usize),
        Cell::Signed(z) => put_signed(text, at, z),
        Cell::State(state) => put_state(text, at, state),
        Cell::Awaited(kind, object) => put_awaited(text, at, kind, object),
        Cell::Time(left) => put_time(text, at, left),
        Cell::Task(task) => put_task(text, at, task),
        Cell::Length(n) => put_length(text, at, n),
    }
}
