// The text of a turn: what stands at a place of a script, and below it what came of the record there.
ghost use Rattle.std.specs.Prelude.{◌≤◌, ◌≡◌, length};
ghost use Rattle.model.specs.Sizes.{log_bytes};
ghost use Rattle.script.specs.Place.{Wrote};
ghost use Rattle.text.specs.Line.{IsFront};
ghost use Rattle.text.specs.Turn.{log_text, outcome_lines, turn_text, text_bytes};

use super::item::{item_length, put_item_line};
use super::place::put_place_line;
use model::call::Progress;
use model::sizes::LOG_BYTES;

// No line is longer.
const LINE_BYTES: usize = 256;

// No turn's text is longer: the place has a line, and no more items are in a log than bytes.
pub const TEXT_BYTES: usize = (LOG_BYTES + 1) * LINE_BYTES;

// A log, item by item.
fn put_log(text: &mut [u8], at: usize, log: &[u8]) -> usize
    ensures { Wrote text.old at (log_text log.now) text.new result }
{
    let mut next = at;
    let mut rest = log;
    while let [tag, ..] = rest {
        next = put_item_line(text, next, rest);
        let length = item_length(*tag).min(rest.len());
        rest = &rest[length..];
    }
    next
}

// What came of a record. Where the script is over there is no more to show, since the place's line says why.
fn put_outcome(text: &mut [u8], at: usize, progress: Progress, log: &[u8]) -> usize
    ensures { Wrote text.old at (outcome_lines progress log.now) text.new result }
{
    match progress {
        Progress::Answered { answer: _, next: _ } => put_log(text, at, log),
        Progress::Over => at,
        Progress::NoArea => at,
    }
}

// The text of a turn, at the front of the area.
pub fn turn_text(
    text: &mut [u8],
    script: &[u8],
    place: usize,
    progress: Progress,
    log: &[u8],
) -> usize
    requires text_len { length text.old ≡ text_bytes }
    requires log_len_bound { length log.now ≤ log_bytes }
    ensures { IsFront text.new result (turn_text script.now place progress log.now) }
{
    let next = put_place_line(text, 0, script, place);
    put_outcome(text, next, progress, log)
}
