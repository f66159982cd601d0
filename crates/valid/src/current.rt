// 01, "Sound": "priorities [..] as worked out afresh", and by 02, request Three, "the bits as worked out afresh". Priorities are worked out on a
// copy, and the copy's are compared.
ghost use Rattle.std.specs.Prelude.{◌≡◌};
ghost use Rattle.model.specs.Sizes.{tasks};
ghost use Rattle.model.specs.Lists.{all, up_to};
ghost use Rattle.model.specs.Valid.{TaskLists, current_priorities, right_bitmap};
ghost use Rattle.model.specs.Words.{kernel};
ghost use Rattle.valid.specs.Parts.{same_current};

use model::number::TaskNumber;
use priority::work_out;
use ready::fresh_bits;
use state::bitmap::bits;
use state::layout::Words;

// Whether a task has the same current priority in two states, and whether every task has.
fn same_current(state: &Words, other: &Words, t: TaskNumber) -> bool
    ensures { result ≡ same_current (kernel state.now) (kernel other.now) t.0 }
{
    state::task::current(state, t) == state::task::current(other, t)
}

fn same_currents(state: &Words, other: &Words) -> bool
    ensures { result ≡ all (same_current (kernel state.now) (kernel other.now)) (up_to tasks) }
{
    TaskNumber::every(move |t| same_current(state, other, t))
}

pub(crate) fn priorities(state: &Words) -> bool
    requires { TaskLists (kernel state.now).tasks }
    ensures { result ≡ current_priorities (kernel state.now) }
{
    let mut afresh = *state;
    work_out(&mut afresh);
    same_currents(state, &afresh)
}

pub(crate) fn bitmap(state: &Words) -> bool
    ensures { result ≡ right_bitmap (kernel state.now) }
{
    bits(state) == fresh_bits(state)
}
