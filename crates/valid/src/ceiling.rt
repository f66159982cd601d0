// 01, "Sound": "no base above a held or awaited ceiling".
ghost use Rattle.std.specs.Prelude.{◌≡◌};
ghost use Rattle.model.specs.Sizes.{mutexes};
ghost use Rattle.model.specs.Lists.{all, up_to};
ghost use Rattle.model.specs.Valid.{ceiling};
ghost use Rattle.model.specs.Words.{kernel};

use model::number::TaskNumber;
use search::ceiling::above_any_ceiling;
use state::layout::Words;

// The sentence of one task and every mutex.
pub(crate) fn ceilings_of(state: &Words, t: TaskNumber) -> bool
    ensures { result ≡ all (ceiling (kernel state.now) t.0) (up_to mutexes) }
{
    let base = state::task::base(state, t);
    !above_any_ceiling(state, base, t)
}
