// A frame: three numbers, the words of the state and the bytes of store and outbox; then the words, then both areas.
ghost use Rattle.std.specs.Prelude.{◌*◌, ◌≤◌, length};

use super::words::{verdict, word};
use model::sizes::{OUTBOX_BYTES, STORE_BYTES};
use model::stream::{STDIN, STDOUT};
use state::layout::WORDS;

const HEAD: usize = 12;

// A state may come with twice the words, and an area with twice the bytes, that it should have.
const MOST_WORDS: usize = 2 * WORDS;

const MOST_STORE: usize = 2 * STORE_BYTES;

const MOST_OUTBOX: usize = 2 * OUTBOX_BYTES;

// A frame that is too long or cut ends the run.
fn refuse() -> bool {
    io::write_all(STDOUT, b"?\n");
    false
}

fn write_verdict(valid: bool) -> bool {
    if valid {
        io::write_all(STDOUT, b"1\n")
    } else {
        io::write_all(STDOUT, b"0\n")
    }
}

// Reads n bytes to the front of an area.
fn read_front(area: &mut [u8], n: usize) -> bool
    requires { n ≤ length area.old }
{
    io::read_full(STDIN, &mut area[0..n]) == n
}

// What follows the three numbers, read to the front of lent areas.
fn judge_body(
    area: &mut [u32],
    w: &mut [u8],
    s: &mut [u8],
    o: &mut [u8],
    words: usize,
    store: usize,
    outbox: usize,
) -> bool
    requires words_in_bounds { words ≤ length area.old }
    requires words_in_bounds_2 { 4 * words ≤ length w.old }
    requires store_in_bounds { store ≤ length s.old }
    requires outbox_in_bounds { outbox ≤ length o.old }
{
    let has_words = read_front(w, 4 * words);
    let has_store = read_front(s, store);
    let has_outbox = read_front(o, outbox);
    if has_words & has_store & has_outbox {
        write_verdict(verdict(area, w, words, &s[0..store], &o[0..outbox]))
    } else {
        refuse()
    }
}

fn judge_sized(words: usize, store: usize, outbox: usize) -> bool
    requires words_le_most_words { words ≤ MOST_WORDS }
    requires store_le_most_store { store ≤ MOST_STORE }
    requires outbox_le_most_outbox { outbox ≤ MOST_OUTBOX }
{
    let mut area = [0u32; MOST_WORDS];
    let mut w = [0u8; 4 * MOST_WORDS];
    let mut s = [0u8; MOST_STORE];
    let mut o = [0u8; MOST_OUTBOX];
    judge_body(&mut area, &mut w, &mut s, &mut o, words, store, outbox)
}

// One frame; answers whether there may be more.
pub(crate) fn judge() -> bool {
    let mut head = [0u8; HEAD];
    let got = io::read_full(STDIN, &mut head);
    if got == 0 {
        return false;
    }
    let words = word(&head, 0) as usize;
    let store = word(&head, 4) as usize;
    let outbox = word(&head, 8) as usize;
    if got < HEAD || words > MOST_WORDS || store > MOST_STORE || outbox > MOST_OUTBOX {
        return refuse();
    }
    judge_sized(words, store, outbox)
}
