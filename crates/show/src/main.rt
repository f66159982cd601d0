// Reads a script from standard input and writes what happens in it as lines that people can read: each record's call, and then its log.
#![tactic(auto)]

ghost use Rattle.std.specs.Prelude.{◌≡◌, is_ok, length};
ghost use Rattle.text.specs.Turn.{text_bytes};
ghost use Rattle.act.specs.Held.{areas};
ghost use Rattle.run.specs.Turns.{RunsAll};
ghost use Rattle.show.specs.Shown.{ShowsTurn};

use model::call::Cursor;
use model::sizes::{LOG_BYTES, OUTBOX_BYTES, STORE_BYTES};
use model::stream::{STDERR, STDIN, STDOUT};
use run::turn::{INPUT_BYTES, Unwritten, turn_of};
use run::{Ran, run_record};
use state::layout::WORDS;
use text::turn::{TEXT_BYTES, turn_text};

// The record at a place is run, and what happens is written: the record's line, and the lines of its log.
fn take_turn(
    state: &mut [u32],
    store: &mut [u8],
    outbox: &mut [u8],
    log: &mut [u8],
    text: &mut [u8],
    script: &[u8],
    at: Cursor,
) -> Result<Option<Cursor>, Unwritten>
    requires { length text.old ≡ text_bytes }
    ensures { ShowsTurn (areas state.old store.old outbox.old log.old) script.now at.at (areas state.new store.new outbox.new log.new) text.new result }
{
    let Ran { progress, written } = run_record(state, store, outbox, log, script, at);
    let n = turn_text(text, script, at.at, progress, &log[..written]);
    turn_of(progress, io::write_all(STDOUT, &text[..n]))
}

// From the first record on: a script has no more records than bytes, and the end is a place, too. An error says that something could not be written.
fn run_all(
    state: &mut [u32],
    store: &mut [u8],
    outbox: &mut [u8],
    log: &mut [u8],
    text: &mut [u8],
    script: &[u8],
) -> Result<(), Unwritten>
    requires { length text.old ≡ text_bytes }
    ensures { RunsAll (areas state.old store.old outbox.old log.old) script.now (areas state.new store.new outbox.new log.new) (is_ok result) }
{
    let mut at = Cursor { at: 0 };
    for _ in 0..INPUT_BYTES {
        let Some(next) = take_turn(state, store, outbox, log, text, script, at)? else {
            return Ok(());
        };
        at = next;
    }
    Ok(())
}

fn main() {
    let mut state = [0u32; WORDS];
    let mut store = [0u8; STORE_BYTES];
    let mut outbox = [0u8; OUTBOX_BYTES];
    let mut log = [0u8; LOG_BYTES];
    let mut text = [0u8; TEXT_BYTES];
    let mut input = [0u8; INPUT_BYTES];
    state::make_fresh(&mut state);
    let n = io::read_full(STDIN, &mut input);
    let written = run_all(
        &mut state,
        &mut store,
        &mut outbox,
        &mut log,
        &mut text,
        &input[..n],
    );
    if written.is_err() {
        io::write_all(STDERR, b"show: the lines could not be written\n");
    }
}
