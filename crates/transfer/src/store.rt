// A message goes behind the others of its buffer, and the oldest leaves it.
ghost use Rattle.std.specs.Prelude.{◌≡◌, true, length};
ghost use Rattle.model.specs.Act.{fits, store_message};
ghost use Rattle.model.specs.Effect.{take_oldest};
ghost use Rattle.model.specs.Words.{kernel};
ghost use Rattle.act.specs.Held.{DoesInStore};

use message::room::cost;
use message::store::{store_append, store_oldest_length, store_remove};
use model::number::BufferNumber;
use state::layout::Words;

// A message is stored. A caller has seen that it fits: else the bytes used need not be a word.
pub fn store_message(state: &mut Words, store: &mut [u8], b: BufferNumber, m: &[u8])
    requires { fits (kernel state.old) b.0 (length m.now) ≡ true }
    ensures { DoesInStore (λ w. store_message w b.0 m.now) state.old store.old state.new store.new }
{
    let used = state::buffer::used(state, b) as usize;
    let n = m.len();
    store_append(store, b, used, m, n);
    let after = used + cost(n as u32);
    state::buffer::set_used(state, b, after as u32);
}

// The oldest message leaves. On a damaged region it may seem to cost more than is used: then nothing is used.
pub fn take_oldest(state: &mut Words, store: &mut [u8], b: BufferNumber)
    ensures { DoesInStore (λ w. take_oldest w b.0) state.old store.old state.new store.new }
{
    let used = state::buffer::used(state, b) as usize;
    let gone = cost(store_oldest_length(store, b));
    store_remove(store, b);
    let after = used.saturating_sub(gone);
    state::buffer::set_used(state, b, after as u32);
}
