// The line of an item of a log, from the bytes that begin with it.
ghost use Rattle.std.specs.Prelude.{◌≡◌};
ghost use Rattle.script.specs.Place.{Wrote};
ghost use Rattle.text.specs.Item.{answer_text, task_text, ended_text, received_text, block_text, runs_text, item_bytes, item_text, item_line};

use super::number::{put_code, put_number, put_signed};
use super::quoted::put_quoted;
use model::bytes::byte;
use model::item;
use model::sizes::MESSAGE_BYTES;
use script::field::field;
use script::place::{part, put};

fn put_answer(line: &mut [u8], at: usize, item: &[u8]) -> usize
    ensures { Wrote line.old at (answer_text item.now) line.new result }
{
    let next = put(line, at, b"answer ");
    put_code(line, next, field(part(item, 1, 4), 0))
}

// The task that an item is about.
fn put_task(line: &mut [u8], at: usize, item: &[u8]) -> usize
    ensures { Wrote line.old at (task_text item.now) line.new result }
{
    let next = put(line, at, b"task ");
    put_number(line, next, byte(item, 1) as usize)
}

fn put_ended(line: &mut [u8], at: usize, item: &[u8]) -> usize
    ensures { Wrote line.old at (ended_text item.now) line.new result }
{
    let next = put_task(line, at, item);
    let next = put(line, next, b": wait ended, ");
    put_code(line, next, field(part(item, 2, 4), 0))
}

fn put_received(line: &mut [u8], at: usize, item: &[u8]) -> usize
    ensures { Wrote line.old at (received_text item.now) line.new result }
{
    let next = put_task(line, at, item);
    let next = put(line, next, b": message ");
    put_quoted(line, next, part(item, 2, MESSAGE_BYTES))
}

fn put_block(line: &mut [u8], at: usize, item: &[u8]) -> usize
    ensures { Wrote line.old at (block_text item.now) line.new result }
{
    let next = put_task(line, at, item);
    let next = put(line, next, b": block ");
    put_signed(line, next, field(part(item, 2, 4), 0))
}

fn put_runs(line: &mut [u8], at: usize, item: &[u8]) -> usize
    ensures { Wrote line.old at (runs_text item.now) line.new result }
{
    if byte(item, 1) == 0 {
        return put(line, at, b"runs no task");
    }
    let next = put(line, at, b"runs ");
    put_task(line, next, item)
}

fn put_item(line: &mut [u8], at: usize, item: &[u8]) -> usize
    ensures { Wrote line.old at (item_text item.now) line.new result }
{
    let tag = byte(item, 0);
    match tag {
        item::ANSWER => put_answer(line, at, item),
        item::WAITS => put(line, at, b"waits"),
        item::EXITS => put(line, at, b"exits"),
        item::ENDED => put_ended(line, at, item),
        item::MESSAGE => put_received(line, at, item),
        item::BLOCK => put_block(line, at, item),
        item::RUNS => put_runs(line, at, item),
        _ => put(line, at, b"no item"),
    }
}

// How many bytes an item has, by its tag.
pub(crate) fn item_length(tag: u8) -> usize
    ensures { result ≡ item_bytes tag }
{
    match tag {
        item::ANSWER => 5,
        item::WAITS => 1,
        item::EXITS => 1,
        item::ENDED => 6,
        item::MESSAGE => MESSAGE_BYTES + 2,
        item::BLOCK => 6,
        item::RUNS => 2,
        _ => 1,
    }
}

// The line of the item that bytes of a log begin with.
pub(crate) fn put_item_line(line: &mut [u8], at: usize, item: &[u8]) -> usize
    ensures { Wrote line.old at (item_line item.now) line.new result }
{
    let next = put(line, at, b"  ");
    let next = put_item(line, next, item);
    put(line, next, b"\n")
}
