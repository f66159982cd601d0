// The line of what stands at a place of a script.
ghost use Rattle.std.specs.Prelude.{◌≡◌, drop};
ghost use Rattle.script.specs.Place.{Wrote};
ghost use Rattle.text.specs.Names.{template};
ghost use Rattle.text.specs.Place.{word_value, letter, with_values, first_word, message_text, unknown_text, cut_text, here_text, too_long_text, place_line};

use super::names::template;
use super::number::{put_hex, put_number, put_signed};
use super::quoted::put_quoted;
use model::call::Cursor;
use model::kind::body_length;
use model::sizes::SCRIPT_BYTES;
use script::field::field;
use script::place::put;
use script::reader::message;

// What follows a word of a template: behind a field's name its number.
fn put_value(line: &mut [u8], at: usize, body: &[u8], word: usize) -> usize
    ensures { Wrote line.old at (word_value body.now word) line.new result }
{
    if word == 0 {
        return at;
    }
    let next = put(line, at, b"=");
    put_signed(line, next, field(body, word - 1))
}

// A letter of a template, and before a space what follows the word that ends there.
fn put_letter(line: &mut [u8], at: usize, body: &[u8], word: usize, c: u8) -> usize
    ensures { Wrote line.old at (letter body.now word c) line.new result }
{
    if c == b' ' {
        let next = put_value(line, at, body, word);
        put(line, next, &[c])
    } else {
        put(line, at, &[c])
    }
}

// A template with what follows each of its words.
fn put_words(line: &mut [u8], at: usize, template: &[u8], body: &[u8]) -> usize
    ensures { Wrote line.old at (with_values body.now 0 template.now) line.new result }
{
    let mut next = at;
    let mut word = 0;
    for &c in template {
        next = put_letter(line, next, body, word, c);
        if c == b' ' {
            word += 1;
        }
    }
    put_value(line, next, body, word)
}

// The call's name and its fields.
fn put_call(line: &mut [u8], at: usize, kind: u8, body: &[u8]) -> usize
    ensures { Wrote line.old at (with_values body.now 0 (template kind)) line.new result }
{
    put_words(line, at, template(kind), body)
}

// The first word of a template.
fn first_word(template: &[u8]) -> &[u8]
    ensures { result.now ≡ first_word template.now }
{
    let space = template.iter().position(|c| *c == b' ');
    &template[..space.unwrap_or(template.len())]
}

// The call's name alone.
fn put_name(line: &mut [u8], at: usize, kind: u8) -> usize
    ensures { Wrote line.old at (first_word (template kind)) line.new result }
{
    put(line, at, first_word(template(kind)))
}

fn put_message(line: &mut [u8], at: usize, message: &[u8]) -> usize
    ensures { Wrote line.old at (message_text message.now) line.new result }
{
    if message.is_empty() {
        return at;
    }
    let next = put(line, at, b" ");
    put_quoted(line, next, message)
}

fn put_unknown(line: &mut [u8], at: usize, kind: u8) -> usize
    ensures { Wrote line.old at (unknown_text kind) line.new result }
{
    let next = put(line, at, b"stopped: kind ");
    let next = put_hex(line, next, kind);
    put(line, next, b" hex is unknown")
}

fn put_cut(line: &mut [u8], at: usize, kind: u8, needs: usize, has: usize) -> usize
    ensures { Wrote line.old at (cut_text kind needs has) line.new result }
{
    let next = put(line, at, b"stopped: ");
    let next = put_name(line, next, kind);
    let next = put(line, next, b" needs ");
    let next = put_number(line, next, needs);
    let next = put(line, next, b" bytes and has ");
    put_number(line, next, has)
}

fn put_here(line: &mut [u8], at: usize, script: &[u8], place: usize) -> usize
    ensures { Wrote line.old at (here_text (drop place script.now)) line.new result }
{
    if script.len() <= place {
        return put(line, at, b"end");
    }
    let kind = script[place];
    let start = place + 1;
    let body = &script[start..];
    let Some(needs) = body_length(kind) else {
        return put_unknown(line, at, kind);
    };
    if body.len() < needs {
        return put_cut(line, at, kind, needs, body.len());
    }
    let next = put_call(line, at, kind, body);
    put_message(line, next, message(script, Cursor { at: place }))
}

fn put_too_long(line: &mut [u8], at: usize) -> usize
    ensures { Wrote line.old at too_long_text line.new result }
{
    let next = put(line, at, b"the script is longer than ");
    let next = put_number(line, next, SCRIPT_BYTES);
    put(line, next, b" bytes\n")
}

// The line of a place.
pub(crate) fn put_place_line(line: &mut [u8], at: usize, script: &[u8], place: usize) -> usize
    ensures { Wrote line.old at (place_line script.now place) line.new result }
{
    if SCRIPT_BYTES < script.len() {
        return put_too_long(line, at);
    }
    let next = put_number(line, at, place);
    let next = put(line, next, b": ");
    let next = put_here(line, next, script, place);
    put(line, next, b"\n")
}
