// A message between quotes.
ghost use Rattle.std.specs.Prelude.{◌≡◌};
ghost use Rattle.script.specs.Place.{Wrote};
ghost use Rattle.text.specs.Quoted.{plain, shown_byte, trimmed, quoted};

use super::number::put_hex;
use script::place::put;

// Printable ASCII, and neither a quote nor a backslash.
#[tactic(auto, unfolding(crate::specs::Quoted::plain))]
fn stands_for_itself(b: u8) -> bool
    ensures { result ≡ plain b }
{
    (b' ' <= b) & (b <= b'~') & (b != b'"') & (b != b'\\')
}

fn put_byte(line: &mut [u8], at: usize, b: u8) -> usize
    ensures { Wrote line.old at (shown_byte b) line.new result }
{
    if stands_for_itself(b) {
        return put(line, at, &[b]);
    }
    let next = put(line, at, b"\\x");
    put_hex(line, next, b)
}

// A message without the zeros at its end.
fn trimmed(message: &[u8]) -> &[u8]
    ensures { result.now ≡ trimmed message.now }
{
    let mut rest = message;
    while let [before @ .., 0] = rest {
        rest = before;
    }
    rest
}

pub fn put_quoted(line: &mut [u8], at: usize, message: &[u8]) -> usize
    ensures { Wrote line.old at (quoted message.now) line.new result }
{
    let mut next = put(line, at, b"\"");
    for &b in trimmed(message) {
        next = put_byte(line, next, b);
    }
    put(line, next, b"\"")
}
