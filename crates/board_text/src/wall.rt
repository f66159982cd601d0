// The whole of what the wall shows: where a script ends or stops, and the four tables.
ghost use Rattle.std.specs.Prelude.{◌≡◌, length};
ghost use Rattle.script.specs.Place.{Wrote};
ghost use Rattle.text.specs.Line.{IsFront};
ghost use Rattle.text.specs.Turn.{text_bytes};
ghost use Rattle.board_text.specs.Wall.{tables_text, wall_text};

use super::table::put_table;
use model::call::Progress;
use model::sizes::{BUFFERS, MUTEXES, POOLS, TASKS};
use script::place::put;
use status::row::{BufferRow, MutexRow, PoolRow, TaskRow};
use text::turn::turn_text;

// The four tables, an empty line between them. They stay four parameters, each as `board::table` gives it: docs/WALL.md names
// `put_wall`, and these two functions alone take them.
pub fn put_tables(
    text: &mut [u8],
    at: usize,
    tasks: [TaskRow; TASKS as usize],
    mutexes: [MutexRow; MUTEXES as usize],
    buffers: [BufferRow; BUFFERS as usize],
    pools: [PoolRow; POOLS as usize],
) -> usize
    ensures { Wrote text.old at (tables_text tasks mutexes buffers pools) text.new result }
{
    let next = put_table(text, at, &tasks);
    let next = put(text, next, b"\n");
    let next = put_table(text, next, &mutexes);
    let next = put(text, next, b"\n");
    let next = put_table(text, next, &buffers);
    let next = put(text, next, b"\n");
    put_table(text, next, &pools)
}

// At the front of the area: the line that `show` writes last, of the place where a script ends or stops, and the tables. All of it fits.
pub fn put_wall(
    text: &mut [u8],
    script: &[u8],
    place: usize,
    tasks: [TaskRow; TASKS as usize],
    mutexes: [MutexRow; MUTEXES as usize],
    buffers: [BufferRow; BUFFERS as usize],
    pools: [PoolRow; POOLS as usize],
) -> usize
    requires { length text.old ≡ text_bytes }
    ensures { IsFront text.new result (wall_text script.now place tasks mutexes buffers pools) }
{
    let next = turn_text(text, script, place, Progress::Over, b"");
    let next = put(text, next, b"\n");
    put_tables(text, next, tasks, mutexes, buffers, pools)
}
