// The message of a send.
ghost use Rattle.std.specs.Prelude.{◌≡◌, ◌<◌, length, IfSome};
ghost use Rattle.assemble.specs.Messages;
ghost use Rattle.assemble.specs.Read.{read};

use super::reason::Reason;
use super::word::{ends_word, rest, skip_blanks};

// What stands at a place of a message: a byte, with the next place, or its end, with the place behind it.
#[derive(Clone, Copy)]
pub enum Piece {
    Byte { value: u8, next: usize },
    End(usize),
}

// A byte of two hexadecimal digits.
#[tactic(auto, using(std::proofs::lemmas::Bool::Decides::nat_tests), unfolding(crate::specs::Messages::hex_byte))]
fn hex_byte(high: u8, low: u8, next: usize) -> Option<Piece>
    ensures { result ≡ Messages.hex_byte high low next }
{
    let high = hex_value(high)?;
    let low = hex_value(low)?;
    Some(Piece::Byte {
        value: 16 * high + low,
        next,
    })
}

#[tactic(auto, using(std::proofs::lemmas::Bool::Decides::nat_tests), unfolding(crate::specs::Messages::hex_value))]
fn hex_value(c: u8) -> Option<u8>
    ensures value { result ≡ Messages.hex_value c }
    ensures bound { IfSome result (λ d. d < 16) }
{
    let digit = char::from(c).to_digit(16)?;
    Some(digit as u8)
}

// The two forms of a message: they share no more than the two digits.

// Between quotes.
#[tactic(auto, using(std::proofs::lemmas::Bool::Decides::nat_tests), unfolding(crate::specs::Messages::quoted_piece))]
fn quoted_piece(line: &[u8], at: usize) -> Option<Piece>
    ensures { result ≡ Messages.quoted_piece line.now at }
{
    match *line.get(at)? {
        b'"' => Some(Piece::End(at + 1)),
        b'\\' => escaped(line, at),
        value => Some(Piece::Byte {
            value,
            next: at + 1,
        }),
    }
}

// Behind a backslash: any byte, in hexadecimal.
#[tactic(auto, using(std::proofs::lemmas::Bool::Decides::nat_tests), unfolding(crate::specs::Messages::escaped))]
fn escaped(line: &[u8], at: usize) -> Option<Piece>
    ensures { result ≡ Messages.escaped line.now at }
{
    let [_, b'x', high, low, ..] = rest(line, at) else {
        return None;
    };
    hex_byte(*high, *low, at + 4)
}

// In hexadecimal, up to the word's end.
#[tactic(auto, using(std::proofs::lemmas::Bool::Decides::nat_tests), unfolding(crate::specs::Messages::hex_piece))]
fn hex_piece(line: &[u8], at: usize) -> Option<Piece>
    ensures { result ≡ Messages.hex_piece line.now at }
{
    match rest(line, at) {
        [] => Some(Piece::End(at)),
        [c, ..] if ends_word(*c) => Some(Piece::End(at)),
        [high, low, ..] => hex_byte(*high, *low, at + 2),
        _ => None,
    }
}

fn piece_at(quoted: bool, line: &[u8], at: usize) -> Result<Piece, Reason>
    ensures { result ≡ Messages.piece_at quoted line.now at }
{
    let piece = if quoted {
        quoted_piece(line, at)
    } else {
        hex_piece(line, at)
    };
    piece.ok_or(Reason::BadMessage)
}

// The bytes from a place on.
fn bytes_from(message: &mut [u8], quoted: bool, line: &[u8], from: usize) -> Result<usize, Reason>
    ensures { read message.new result ≡ Messages.bytes_from quoted (length message.old) 0 message.old line.now from }
{
    let mut at = from;
    for byte in message.iter_mut() {
        match piece_at(quoted, line, at)? {
            Piece::Byte { value, next } => {
                *byte = value;
                at = next;
            }
            Piece::End(next) => {
                return Ok(next);
            }
        }
    }
    ended(piece_at(quoted, line, at)?)
}

// Where a message that takes no more bytes goes on.
fn ended(p: Piece) -> Result<usize, Reason>
    ensures { result ≡ Messages.ended p }
{
    match p {
        Piece::Byte { value: _, next: _ } => Err(Reason::LongMessage),
        Piece::End(next) => Ok(next),
    }
}

// The message at a place, over what the area has.
#[tactic(auto, using(std::proofs::lemmas::Bool::Decides::nat_tests), unfolding(crate::specs::Messages::message_at))]
fn message_at(message: &mut [u8], line: &[u8], at: usize) -> Result<usize, Reason>
    ensures { read message.new result ≡ Messages.message_at message.old line.now at }
{
    match line.get(at) {
        None | Some(b'#') => Ok(at),
        Some(b'"') => bytes_from(message, true, line, at + 1),
        Some(b'x') => bytes_from(message, false, line, at + 1),
        Some(_) => Err(Reason::BadMessage),
    }
}

// The message behind a call's fields, where the kind has one.
#[tactic(auto, using(std::proofs::lemmas::Bool::Decides::nat_tests), unfolding(crate::specs::Messages::message_read))]
pub(crate) fn read_message(
    message: &mut [u8],
    size: usize,
    line: &[u8],
    from: usize,
) -> Result<usize, Reason>
    ensures { read message.new result ≡ Messages.message_read message.old size line.now from }
{
    if size == 0 {
        return Ok(from);
    }
    message_at(message, line, skip_blanks(line, from))
}
