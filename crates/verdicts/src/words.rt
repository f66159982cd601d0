// Words from bytes, and the verdict on a lent state that comes as bytes.
ghost use Rattle.std.specs.Prelude.{◌≡◌, ◌+◌, ◌*◌, ◌≤◌, length};
ghost use Rattle.verdicts.specs.Words.{word_at, words_of};
ghost use Rattle.model.specs.Lent.{is_valid};

use model::bytes::number4;
use valid::is_valid;

// The word that begins at a place.
pub(crate) fn word(bytes: &[u8], at: usize) -> u32
    requires { at + 4 ≤ length bytes.now }
    ensures { result ≡ word_at bytes.now at }
{
    number4(bytes[at], bytes[at + 1], bytes[at + 2], bytes[at + 3])
}

fn fill(words: &mut [u32], bytes: &[u8])
    requires { 4 * length words.old ≤ length bytes.now }
    ensures { words.new ≡ words_of (length words.old) bytes.now }
{
    // a word for every four bytes of the other slice, so both go by the place
    for i in 0..words.len() {
        words[i] = word(bytes, 4 * i);
    }
}

// The verdict on a state that comes as bytes; its n words go to the front of a lent area.
pub(crate) fn verdict(area: &mut [u32], bytes: &[u8], n: usize, store: &[u8], outbox: &[u8]) -> bool
    requires n_in_bounds { n ≤ length area.old }
    requires n_in_bounds_2 { 4 * n ≤ length bytes.now }
    ensures { result ≡ is_valid (words_of n bytes.now) store.now outbox.now }
{
    fill(&mut area[0..n], bytes);
    is_valid(&area[0..n], store, outbox)
}
