// What is wrong with a line, and how that is said.
ghost use Rattle.std.specs.Prelude.{◌≡◌, length};
ghost use Rattle.script.specs.Place.{Wrote};
ghost use Rattle.text.specs.Line.{IsFront};
ghost use Rattle.assemble.specs.Reasons.{reason_of, longer_than, reason_text, report, long_text, report_bytes};

use model::sizes::{MESSAGE_BYTES, SCRIPT_BYTES};
use script::place::put;
use script::writer::WriteError;
use text::number::put_number;

#[derive(Clone, Copy)]
pub enum Reason {
    UnknownCall,
    FieldMissing,
    OtherField,
    NotANumber,
    BadMessage,
    LongMessage,
    LeftOver,
    LongScript,
}

impl From<WriteError> for Reason {
    ghost from_gives = { λ e r. r ≡ reason_of e };

    fn from(e: WriteError) -> Reason {
        match e {
            WriteError::NoRoom => Reason::LongScript,
            // never: the message is as long as the kind has it
            WriteError::WrongMessage => Reason::BadMessage,
        }
    }
}

// No `Display`: the bytes go to a place of a lent area of fixed size, and `Wrote` says exactly which.

// What has more bytes than it may have.
fn put_longer(area: &mut [u8], at: usize, what: &[u8], most: usize) -> usize
    ensures { Wrote area.old at (longer_than what.now most) area.new result }
{
    let next = put(area, at, what);
    let next = put(area, next, b" is longer than ");
    let next = put_number(area, next, most);
    put(area, next, b" bytes")
}

fn put_reason(area: &mut [u8], at: usize, reason: Reason) -> usize
    ensures { Wrote area.old at (reason_text reason) area.new result }
{
    match reason {
        Reason::UnknownCall => put(area, at, b"unknown call"),
        Reason::FieldMissing => put(area, at, b"a field is missing"),
        Reason::OtherField => put(area, at, b"this field has another name"),
        Reason::NotANumber => put(area, at, b"not a number of 32 bits"),
        Reason::BadMessage => put(area, at, b"bad message"),
        Reason::LongMessage => put_longer(area, at, b"the message", MESSAGE_BYTES),
        Reason::LeftOver => put(area, at, b"something is left over"),
        Reason::LongScript => put_longer(area, at, b"the script", SCRIPT_BYTES),
    }
}

// No report is longer.
pub(crate) const REPORT_BYTES: usize = 96;

// The line that says what is wrong with a line, at the front of the area.
pub(crate) fn put_report(area: &mut [u8], line: usize, reason: Reason) -> usize
    requires { length area.old ≡ report_bytes }
    ensures { IsFront area.new result (report line reason) }
{
    let next = put(area, 0, b"line ");
    let next = put_number(area, next, line);
    let next = put(area, next, b": ");
    let next = put_reason(area, next, reason);
    put(area, next, b"\n")
}

// The line that says that the text is longer than it may be, at the front of the area.
pub(crate) fn put_long_text(area: &mut [u8], most: usize) -> usize
    requires { length area.old ≡ report_bytes }
    ensures { IsFront area.new result (long_text most) }
{
    let next = put_longer(area, 0, b"the text", most);
    put(area, next, b"\n")
}
