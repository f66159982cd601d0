// One priority's bit in a word.
ghost use Rattle.std.specs.Prelude.{◌≡◌};
ghost use Rattle.model.specs.Queue.{with_priority};

use model::sizes::PRIORITIES;

// The word with a priority's bit set or not; a number that is no priority has none.
pub(crate) fn with_priority(word: u32, p: u32, on: bool) -> u32
    ensures { result ≡ with_priority word p on }
{
    if p == 0 {
        return word;
    }
    if PRIORITIES < p {
        return word;
    }
    let bit = 1 << (p - 1);
    let set = word | bit;
    if on { set } else { set - bit }
}
