// "First waiter": the first of a queue's order.
ghost use Rattle.std.specs.Prelude.{◌≡◌};
ghost use Rattle.model.specs.Facts.{queue};
ghost use Rattle.model.specs.Words.{kernel};
ghost use Rattle.model.specs.World.{queue_front};

use model::number::task_word;
use queue::front::front;
use state::layout::Words;

// A number, 0 for none, as C sees it in the rows. The first of a queue, which is named by the place that its tasks have and the number of the object that they wait for.
pub fn first_of(state: &Words, place: u32, object: u32) -> u32
    ensures { result ≡ queue_front (kernel state.now) (queue place object) }
{
    task_word(front(state, place, object))
}
