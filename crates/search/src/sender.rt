// Senders: whether there are any, and the first of a buffer whose message fits.
ghost use Rattle.std.specs.Prelude.{◌≡◌, cond, length, eqb};
ghost use Rattle.model.specs.Sizes.{tasks};
ghost use Rattle.model.specs.Lists.{◌!◌, any, up_to};
ghost use Rattle.model.specs.Facts.{queue, sending};
ghost use Rattle.model.specs.Number.{maybe_task};
ghost use Rattle.model.specs.World.{queue_front};
ghost use Rattle.model.specs.Act.{first_fits};
ghost use Rattle.model.specs.Words.{kernel};

use message::room::room;
use model::number::{BufferNumber, TaskNumber};
use queue::front::front;
use state::layout::Words;
use state::task::SENDING;

fn sends(state: &Words, t: TaskNumber) -> bool
    ensures { result ≡ eqb ((kernel state.now).tasks.place ! t.0) sending }
{
    state::task::place(state, t) == SENDING
}

// Whether any task waits to send.
pub fn anyone_sends(state: &Words) -> bool
    ensures { result ≡ any (λ t. eqb ((kernel state.now).tasks.place ! t) sending) (up_to tasks) }
{
    TaskNumber::any(|t| sends(state, t))
}

// The first sender of a buffer, if its message fits.
pub fn first_fitting(state: &Words, b: BufferNumber) -> Option<TaskNumber>
    ensures { result ≡ maybe_task (cond (first_fits (kernel state.now) b.0) (queue_front (kernel state.now) (queue sending b.0)) 0) }
{
    let found = front(state, SENDING, b.word());
    let Some(t) = found else {
        return None;
    };
    let used = state::buffer::used(state, b);
    let bufsz = state::buffer::bufsz(state, b);
    let length = state::task::argument(state, t);
    if room(bufsz, used, length) < 0 {
        return None;
    }
    found
}
