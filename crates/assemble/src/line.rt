// A line: nothing, or the record of a call, written to the script.
ghost use Rattle.std.specs.Prelude.{◌≡◌, length};
ghost use Rattle.model.specs.Record.{kind_of, record_bytes};
ghost use Rattle.script.specs.Write.{message_length};
ghost use Rattle.assemble.specs.Lines.{Bytes, call_line, line_of, Extends};

use super::field::{FIELDS, read_fields};
use super::message::read_message;
use super::name::kind_named;
use super::reason::Reason;
use super::word::{is_over, skip_blanks, word, word_end};
use model::call::Call;
use model::sizes::MESSAGE_BYTES;
use script::body::body_parts;
use script::place::part;
use script::reader::call_of;
use script::writer::write_record;

// A call's record, if there is room for it.
fn write_call(script: &mut [u8], at: usize, call: Call, message: &[u8]) -> Result<usize, Reason>
    requires { length message.now ≡ message_length (kind_of call) }
    ensures { Extends script.old at (Bytes (record_bytes call message.now)) script.new result }
{
    Ok(write_record(script, at, call, message)?)
}

// What is behind a call's name, and then the record.
fn assemble_call(
    script: &mut [u8],
    at: usize,
    kind: u8,
    line: &[u8],
    from: usize,
) -> Result<usize, Reason>
    ensures { Extends script.old at (call_line kind line.now from) script.new result }
{
    let body = body_parts(kind).ok_or(Reason::UnknownCall)?;
    let mut values = [0i32; FIELDS];
    let count = body.fields / 4;
    let behind = read_fields(&mut values[..count], kind, line, from)?;
    let mut message = [0u8; MESSAGE_BYTES];
    let end = read_message(&mut message, body.message, line, behind)?;
    if !is_over(line, skip_blanks(line, end)) {
        return Err(Reason::LeftOver);
    }
    let call = call_of(kind, values[0], values[1], values[2]);
    write_call(script, at, call, part(&message, 0, body.message))
}

// A line.
pub(crate) fn assemble_line(script: &mut [u8], at: usize, line: &[u8]) -> Result<usize, Reason>
    ensures { Extends script.old at (line_of line.now) script.new result }
{
    let start = skip_blanks(line, 0);
    if is_over(line, start) {
        return Ok(at);
    }
    let kind = kind_named(word(line, start)).ok_or(Reason::UnknownCall)?;
    assemble_call(script, at, kind, line, word_end(line, start))
}
