// The task that runs next.
ghost use Rattle.std.specs.Prelude.{◌≡◌, ◌&&◌, eqb};
ghost use Rattle.model.specs.Lists.{◌!◌};
ghost use Rattle.model.specs.Number.{maybe_task};
ghost use Rattle.model.specs.Facts.{ready_queue};
ghost use Rattle.model.specs.Kernel.{numbered, stands_in};
ghost use Rattle.model.specs.World.{running};
ghost use Rattle.model.specs.Valid.{Bitmap};
ghost use Rattle.model.specs.Words.{kernel};

use super::front::{current, stands_in};
use model::number::TaskNumber;
use model::sizes::{PLACES, PRIORITIES};
use state::arrival::task;
use state::bitmap::bits;
use state::layout::Words;
use state::task::READY;

// Whether the task of a number stands in the ready queue, at a priority.
fn ready_at(state: &Words, u: u32, p: u32) -> bool
    ensures { result ≡ (stands_in (kernel state.now) ready_queue u && eqb (numbered (kernel state.now).tasks.current ! u) p) }
{
    if stands_in(state, u, READY, 0) {
        current(state, u) == p
    } else {
        false
    }
}

// Found priority by priority, oldest first, stopping at the first found. No priority before the first that has a bit has a ready task; without
// a bit the search begins behind the last.
pub fn next_to_run(state: &Words) -> Option<TaskNumber>
    requires { Bitmap (kernel state.now) }
    ensures { result ≡ maybe_task (running (kernel state.now)) }
{
    let mut found = None;
    let first = u32::trailing_zeros(bits(state)) + 1;
    'search: for p in first..=PRIORITIES {
        for i in 0..PLACES {
            let u = task(state, i);
            if ready_at(state, u, p) {
                found = TaskNumber::from_word(u);
                break 'search;
            }
        }
    }
    found
}
