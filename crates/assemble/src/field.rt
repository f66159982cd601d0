// The fields of a call.
ghost use Rattle.std.specs.Prelude.{◌≡◌, length};
ghost use Rattle.assemble.specs.Fields.{name_length, number_from, field_of, field_at, fields_from, fields_read};
ghost use Rattle.assemble.specs.Read.{read};

use super::number::number_at;
use super::reason::Reason;
use super::word::{is_over, skip_blanks, word, word_end};
use text::names::template;

// No call has more fields.
pub(crate) const FIELDS: usize = 3;

// The place of a word's first `=`, or its end.
fn name_length(word: &[u8]) -> usize
    ensures { result ≡ name_length word.now }
{
    word.iter().take_while(|c| **c != b'=').count()
}

// The number that a word is from a place on.
#[tactic(auto, unfolding(crate::specs::Fields::number_from))]
fn number_from(word: &[u8], from: usize) -> Result<i32, Reason>
    ensures { result ≡ number_from word.now from }
{
    number_at(word, from).ok_or(Reason::NotANumber)
}

// The field of this name that a word is.
#[tactic(auto, using(std::proofs::lemmas::Bool::Decides::nat_tests), unfolding(crate::specs::Fields::field_of))]
fn field_of(name: &[u8], word: &[u8]) -> Result<i32, Reason>
    ensures { result ≡ field_of name.now word.now }
{
    let n = name_length(word);
    if word.len() <= n {
        return number_from(word, 0);
    }
    if &word[..n] == name {
        number_from(word, n + 1)
    } else {
        Err(Reason::OtherField)
    }
}

// The field of this name at a place.
#[tactic(auto, using(std::proofs::lemmas::Bool::Decides::nat_tests), unfolding(crate::specs::Fields::field_at))]
fn field_at(name: &[u8], line: &[u8], at: usize) -> Result<i32, Reason>
    ensures { result ≡ field_at name.now line.now at }
{
    if is_over(line, at) {
        return Err(Reason::FieldMissing);
    }
    field_of(name, word(line, at))
}

// As many fields as there are values, from a place on, by their names from a place on.
fn fields_from(
    values: &mut [i32],
    names: &[u8],
    from: usize,
    line: &[u8],
    start: usize,
) -> Result<usize, Reason>
    ensures { read values.new result ≡ fields_from (length values.old) 0 values.old names.now from line.now start }
{
    let mut t = from;
    let mut at = start;
    for value in values.iter_mut() {
        t = skip_blanks(names, t);
        at = skip_blanks(line, at);
        *value = field_at(word(names, t), line, at)?;
        t = word_end(names, t);
        at = word_end(line, at);
    }
    Ok(at)
}

// The fields of a kind's call.
#[tactic(auto, unfolding(crate::specs::Fields::fields_read))]
pub(crate) fn read_fields(
    values: &mut [i32],
    kind: u8,
    line: &[u8],
    at: usize,
) -> Result<usize, Reason>
    ensures { read values.new result ≡ fields_read (length values.old) values.old kind line.now at }
{
    let names = template(kind);
    fields_from(values, names, word_end(names, 0), line, at)
}
