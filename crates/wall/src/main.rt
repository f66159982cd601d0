// Reads a script from standard input, runs it, and writes for a wall display where it ends or stops and the four tables of the status board.
#![tactic(auto)]

ghost use Rattle.std.specs.Prelude.{◌≡◌, length};
ghost use Rattle.text.specs.Line.{IsFront};
ghost use Rattle.text.specs.Turn.{text_bytes};
ghost use Rattle.act.specs.Held.{areas};
ghost use Rattle.wall.specs.Walled.{RunsToEnd, board_text, ShowsBoard};

use board::table::{buffer_table, mutex_table, pool_table, task_table};
use board_text::wall::put_wall;
use model::call::{Cursor, Progress};
use model::sizes::{LOG_BYTES, OUTBOX_BYTES, STORE_BYTES};
use model::stream::{STDERR, STDIN, STDOUT};
use run::run_record;
use run::turn::INPUT_BYTES;
use state::layout::WORDS;
use text::turn::TEXT_BYTES;

// From the first record on: a script has no more records than bytes, and the end is a place, too. Answers the place where it ends or stops.
fn run_all(
    state: &mut [u32],
    store: &mut [u8],
    outbox: &mut [u8],
    log: &mut [u8],
    script: &[u8],
) -> usize
    ensures { RunsToEnd (areas state.old store.old outbox.old log.old) script.now (areas state.new store.new outbox.new log.new) result }
{
    let mut at = Cursor { at: 0 };
    for _ in 0..INPUT_BYTES {
        let ran = run_record(state, store, outbox, log, script, at);
        let progress = ran.progress;
        match progress {
            Progress::Answered { answer: _, next } => at = next,
            Progress::Over => return at.at,
            Progress::NoArea => return at.at,
        }
    }
    at.at
}

// The text of a place of the script and of the four tables of what is lent, at the front of the area.
fn show_board(
    text: &mut [u8],
    state: &[u32],
    store: &[u8],
    outbox: &[u8],
    script: &[u8],
    place: usize,
) -> usize
    requires { length text.old ≡ text_bytes }
    ensures { IsFront text.new result (board_text script.now place state.now store.now outbox.now) }
{
    let tasks = task_table(state, store, outbox);
    let mutexes = mutex_table(state, store, outbox);
    let buffers = buffer_table(state, store, outbox);
    let pools = pool_table(state, store, outbox);
    put_wall(text, script, place, tasks, mutexes, buffers, pools)
}

// The whole script, and then the board.
fn run_and_show(
    state: &mut [u32],
    store: &mut [u8],
    outbox: &mut [u8],
    log: &mut [u8],
    text: &mut [u8],
    script: &[u8],
) -> usize
    requires { length text.old ≡ text_bytes }
    ensures { ShowsBoard (areas state.old store.old outbox.old log.old) script.now (areas state.new store.new outbox.new log.new) text.new result }
{
    let place = run_all(state, store, outbox, log, script);
    show_board(text, state, store, outbox, script, place)
}

fn main() {
    let mut state = [0u32; WORDS];
    let mut store = [0u8; STORE_BYTES];
    let mut outbox = [0u8; OUTBOX_BYTES];
    let mut log = [0u8; LOG_BYTES];
    let mut text = [0u8; TEXT_BYTES];
    let mut input = [0u8; INPUT_BYTES];
    // the array has as many words as a state
    state::make_fresh(&mut state);
    let n = io::read_full(STDIN, &mut input);
    let shown = run_and_show(
        &mut state,
        &mut store,
        &mut outbox,
        &mut log,
        &mut text,
        &input[..n],
    );
    if !io::write_all(STDOUT, &text[..shown]) {
        io::write_all(STDERR, b"wall: the board could not be written\n");
    }
}
