// The outbox: a part for each task, in order. A waiting sender's bytes lie at the start of its part, zeros behind them.
ghost use Rattle.std.specs.Prelude.{◌≡◌, [], length, take};
ghost use Rattle.model.specs.Lists.{padded};
ghost use Rattle.model.specs.Message.{outbox_message, with_outbox_message};

use super::copy::{copy_in, fill_zero};
use super::part::part_of;
use super::region::clear;
use model::number::TaskNumber;

// The first n bytes of m, and zeros up to the end of a slice.
fn fill(p: &mut [u8], m: &[u8], n: usize)
    ensures { p.new ≡ padded (length p.old) (take n m.now) }
{
    let count = n.min(m.len());
    copy_in(p, 0, m, count);
    fill_zero(p, count, p.len());
}

pub fn outbox_put(outbox: &mut [u8], t: TaskNumber, m: &[u8], n: usize)
    ensures { outbox.new ≡ with_outbox_message t.0 outbox.old (take n m.now) }
{
    let part = part_of(t, outbox.len());
    fill(&mut outbox[part], m, n);
}

pub fn outbox_clear(outbox: &mut [u8], t: TaskNumber)
    ensures { outbox.new ≡ with_outbox_message t.0 outbox.old [] }
{
    let part = part_of(t, outbox.len());
    clear(&mut outbox[part]);
}

// The first n bytes of a task's part, where they lie.
pub fn outbox_message<'a>(outbox: &'a [u8], t: TaskNumber, n: usize) -> &'a [u8]
    ensures { result.now ≡ outbox_message t.0 n outbox.now }
{
    let part = &outbox[part_of(t, outbox.len())];
    &part[..n.min(part.len())]
}
