// Turns a text of calls, a line each, into the bytes of a script, or says which line is wrong and why.
#![tactic(auto)]

mod assembler;
mod field;
mod line;
mod message;
mod name;
mod number;
mod reason;
mod word;

use assembler::{WrongLine, assemble};
use model::sizes::SCRIPT_BYTES;
use model::stream::{STDERR, STDIN, STDOUT};
use reason::{REPORT_BYTES, Reason, put_long_text, put_report};
use script::place::part;

// The longest text, and a byte more: with it one sees that the text is longer.
const TEXT_BYTES: usize = 262_144;

const INPUT_BYTES: usize = TEXT_BYTES + 1;

// Says what is wrong with a line. False where that can't be written.
fn complain(line: usize, reason: Reason) -> bool {
    let mut area = [0u8; REPORT_BYTES];
    let n = put_report(&mut area, line, reason);
    io::write_all(STDERR, part(&area, 0, n))
}

// Says that the text is too long. False where that can't be written.
fn complain_of_length() -> bool {
    let mut area = [0u8; REPORT_BYTES];
    let n = put_long_text(&mut area, TEXT_BYTES);
    io::write_all(STDERR, part(&area, 0, n))
}

fn main() {
    let mut text = [0u8; INPUT_BYTES];
    let mut script = [0u8; SCRIPT_BYTES];
    let n = io::read_full(STDIN, &mut text);
    if TEXT_BYTES < n {
        complain_of_length();
        return;
    }
    match assemble(part(&text, 0, n), &mut script) {
        Ok(length) => {
            if !io::write_all(STDOUT, part(&script, 0, length)) {
                io::write_all(STDERR, b"assemble: the script could not be written\n");
            }
        }
        Err(WrongLine { line, reason }) => {
            complain(line, reason);
        }
    }
}
