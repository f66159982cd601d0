// Words that are numbers.
ghost use Rattle.std.specs.Prelude.{◌≡◌};
ghost use Rattle.assemble.specs.Numbers;

use super::word::rest;

// The largest magnitude of a field.
const LARGEST: u32 = 0x8000_0000;

// A digit more behind a number. None if that is too large, or if it is no digit.
#[tactic(auto, using(std::proofs::lemmas::Bool::Decides::nat_tests), unfolding(crate::specs::Numbers::with_digit))]
fn with_digit(n: u32, c: u8) -> Option<u32>
    ensures { result ≡ Numbers.with_digit n c }
{
    let digit = char::from(c).to_digit(10)?;
    let more = n.checked_mul(10)?.checked_add(digit)?;
    if more <= LARGEST { Some(more) } else { None }
}

// What a word's digits come to, from a place on: one digit at least.
fn magnitude(word: &[u8], from: usize) -> Option<u32>
    ensures { result ≡ Numbers.magnitude word.now from }
{
    let digits = rest(word, from);
    if digits.is_empty() {
        return None;
    }
    let mut n = 0;
    for c in digits {
        n = with_digit(n, *c)?;
    }
    Some(n)
}

#[tactic(auto, using(std::proofs::lemmas::Bool::Decides::nat_tests, std::proofs::lemmas::Int::ints), unfolding(crate::specs::Numbers::from_zero_up))]
fn from_zero_up(n: u32) -> Option<i32>
    ensures { result ≡ Numbers.from_zero_up n }
{
    0i32.checked_add_unsigned(n)
}

#[tactic(auto, using(std::proofs::lemmas::Bool::Decides::nat_tests, std::proofs::lemmas::Int::ints), unfolding(crate::specs::Numbers::below_zero))]
fn below_zero(n: u32) -> Option<i32>
    ensures { result ≡ Numbers.below_zero n }
{
    0i32.checked_sub_unsigned(n)
}

// The number that a word is from a place on.
#[tactic(auto, using(std::proofs::lemmas::Bool::Decides::nat_tests), unfolding(crate::specs::Numbers::number_at))]
pub(crate) fn number_at(word: &[u8], from: usize) -> Option<i32>
    ensures { result ≡ Numbers.number_at word.now from }
{
    if *word.get(from)? == b'-' {
        below_zero(magnitude(word, from + 1)?)
    } else {
        from_zero_up(magnitude(word, from)?)
    }
}
