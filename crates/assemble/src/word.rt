// The words of a line.
ghost use Rattle.std.specs.Prelude.{◌+◌, ◌≡◌, drop};
ghost use Rattle.assemble.specs.Words;

fn is_blank(c: u8) -> bool
    ensures { result ≡ Words.is_blank c }
{
    matches!(c, b' ' | b'\t' | b'\r')
}

pub(crate) fn ends_word(c: u8) -> bool
    ensures { result ≡ Words.ends_word c }
{
    is_blank(c) || c == b'#'
}

// What stands from a place on: nothing beyond the end.
pub(crate) fn rest(line: &[u8], at: usize) -> &[u8]
    ensures { result.now ≡ drop at line.now }
{
    line.get(at..).unwrap_or(&[])
}

// The place behind the blanks from a place on.
pub(crate) fn skip_blanks(line: &[u8], at: usize) -> usize
    ensures { result ≡ Words.word_start line.now at }
{
    at + rest(line, at).iter().take_while(|c| is_blank(**c)).count()
}

// The word at a place.
pub(crate) fn word(line: &[u8], at: usize) -> &[u8]
    ensures { result.now ≡ Words.word_at line.now at }
{
    let line = rest(line, at);
    let n = line.iter().take_while(|c| !ends_word(**c)).count();
    &line[..n]
}

// The place behind the word at a place.
pub(crate) fn word_end(line: &[u8], at: usize) -> usize
    ensures { result ≡ Words.word_end line.now at }
{
    at + word(line, at).len()
}

// Nothing more is on the line, but for a comment.
pub(crate) fn is_over(line: &[u8], at: usize) -> bool
    ensures { result ≡ Words.is_over (drop at line.now) }
{
    line.get(at).is_none_or(|c| *c == b'#')
}
