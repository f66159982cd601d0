// 01, "Sound": "numbers in range; unused entries as in the fresh bench". A test joins flags by `&` and `|`, which ask both sides, so that
// its answer is the definition's formula as it stands.
ghost use Rattle.std.specs.Prelude.{◌≡◌, ◌||◌, eqb, leb};
ghost use Rattle.model.specs.Sizes.{mutexes, pools};
ghost use Rattle.model.specs.Lists.{◌!◌, all, up_to, within};
ghost use Rattle.model.specs.Facts.{ready};
ghost use Rattle.model.specs.Valid.{task_range, mutex_range, buffer_range, pool_range};
ghost use Rattle.model.specs.Words.{kernel};

use model::attribute;
use model::attribute::CEILINGED;
use model::number::{BufferNumber, MutexNumber, PoolNumber, TaskNumber};
use model::sizes::{BLOCK_BYTES, BLOCKS, MESSAGE_BYTES, PRIORITIES, REGION_BYTES};
use state::layout::Words;
use state::task::{ABSENT, DORMANT, GETTING, READY};

// The largest bufsz and maxmsz, as words of the state.
const REGION: u32 = REGION_BYTES as u32;

const MESSAGE: u32 = MESSAGE_BYTES as u32;

// Whether a number is from the first to the second.
pub(crate) fn within(low: u32, high: u32, n: u32) -> bool
    ensures { result ≡ within low high n }
{
    (low <= n) & (n <= high)
}

// "numbers in range" of a task: its place and its priorities. An absent task's are 0.
pub(crate) fn task_range(state: &Words, t: TaskNumber) -> bool
    ensures { result ≡ task_range (kernel state.now) t.0 }
{
    let place = state::task::place(state, t);
    let initial = state::task::initial(state, t);
    let base = state::task::base(state, t);
    let unused = (place == ABSENT) & (initial == 0) & (base == 0);
    let used = within(DORMANT, GETTING, place)
        & within(1, PRIORITIES, initial)
        & within(1, PRIORITIES, base);
    unused | used
}

// "dormant ones hold no mutex": a holder is none, or a task that was started.
pub(crate) fn may_hold(state: &Words, n: u32) -> bool
    ensures { result ≡ eqb n 0 || leb ready ((kernel state.now).tasks.place ! n) }
{
    if n == 0 {
        return true;
    }
    let found = TaskNumber::from_word(n);
    let Some(t) = found else {
        return false;
    };
    let place = state::task::place(state, t);
    READY <= place
}

// "numbers in range" of a mutex: only attribute 3 has a ceiling.
fn mutex_range(state: &Words, m: MutexNumber) -> bool
    ensures { result ≡ mutex_range (kernel state.now) m.0 }
{
    let exists = state::mutex::exists(state, m);
    let attribute = state::mutex::attribute(state, m);
    let ceiling = state::mutex::ceiling(state, m);
    let holder = state::mutex::holder(state, m);
    let unused = (exists == 0) & (attribute == 0) & (ceiling == 0) & (holder == 0);
    let with = (attribute == CEILINGED) & within(1, PRIORITIES, ceiling);
    let without = (attribute != CEILINGED) & (ceiling == 0);
    let used = (exists == 1)
        & attribute::of_mutex(attribute)
        & (with | without)
        & may_hold(state, holder);
    unused | used
}

// "numbers in range" of a message buffer.
pub(crate) fn buffer_range(state: &Words, b: BufferNumber) -> bool
    ensures { result ≡ buffer_range (kernel state.now) b.0 }
{
    let exists = state::buffer::exists(state, b);
    let attribute = state::buffer::attribute(state, b);
    let bufsz = state::buffer::bufsz(state, b);
    let maxmsz = state::buffer::maxmsz(state, b);
    let bytes = state::buffer::used(state, b);
    let unused = (exists == 0) & (attribute == 0) & (bufsz == 0) & (maxmsz == 0) & (bytes == 0);
    let used = (exists == 1)
        & attribute::of_buffer(attribute)
        & (bufsz <= REGION)
        & within(1, MESSAGE, maxmsz)
        & (bytes <= bufsz);
    unused | used
}

// "numbers in range" of a fixed pool.
fn pool_range(state: &Words, p: PoolNumber) -> bool
    ensures { result ≡ pool_range (kernel state.now) p.0 }
{
    let exists = state::pool::exists(state, p);
    let attribute = state::pool::attribute(state, p);
    let count = state::pool::count(state, p);
    let size = state::pool::size(state, p);
    let unused = (exists == 0) & (attribute == 0) & (count == 0) & (size == 0);
    let used = (exists == 1)
        & attribute::of_pool(attribute)
        & within(1, BLOCKS, count)
        & within(1, BLOCK_BYTES, size);
    unused | used
}

// The same of every mutex and every pool.
pub(crate) fn mutexes_in_range(state: &Words) -> bool
    ensures { result ≡ all (mutex_range (kernel state.now)) (up_to mutexes) }
{
    MutexNumber::every(|m| mutex_range(state, m))
}

pub(crate) fn pools_in_range(state: &Words) -> bool
    ensures { result ≡ all (pool_range (kernel state.now)) (up_to pools) }
{
    PoolNumber::every(|p| pool_range(state, p))
}
