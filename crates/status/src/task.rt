// The row of a task.
ghost use Rattle.std.specs.Prelude.{◌≡◌};
ghost use Rattle.model.specs.Valid.{Bitmap};
ghost use Rattle.model.specs.Sizes.{tasks};
ghost use Rattle.model.specs.Words.{kernel};
ghost use Rattle.status.specs.Blank.{blank_task};
ghost use Rattle.status.specs.Rows.{AskedOf, is_there, task_state, awaited_kind, TimeFits, shown_time, task_row};

use super::row::{Row, TTS_DMT, TTS_RDY, TTS_RUN, TTS_WAI, TaskRow};
use model::kind::{CRE_MBF, CRE_MPF, CRE_MTX};
use model::number::{Task, TaskNumber, task_word};
use model::sizes::{ENDLESS, LARGEST_WORD};
use queue::next::next_to_run;
use state::layout::Words;
use state::task::{ABSENT, DORMANT, GETTING, LOCKING, READY, RECEIVING, SENDING};

// "1 running, 2 ready, 4 waiting, 16 dormant".
#[tactic(auto, unfolding(crate::specs::Rows::task_state))]
fn task_state(state: &Words, t: TaskNumber) -> u32
    requires { Bitmap (kernel state.now) }
    ensures { result ≡ task_state (kernel state.now) t.0 }
{
    let place = state::task::place(state, t);
    if place == DORMANT {
        return TTS_DMT;
    }
    if place != READY {
        return TTS_WAI;
    }
    if task_word(next_to_run(state)) == t.word() {
        TTS_RUN
    } else {
        TTS_RDY
    }
}

// The kind of the call that created what the task waits for, 0 if it does not wait.
#[tactic(auto, unfolding(crate::specs::Rows::awaited_kind))]
fn awaited_kind(state: &Words, t: TaskNumber) -> u32
    ensures { result ≡ awaited_kind (kernel state.now) t.0 }
{
    let place = state::task::place(state, t);
    match place {
        LOCKING => CRE_MTX as u32,
        SENDING => CRE_MBF as u32,
        RECEIVING => CRE_MBF as u32,
        GETTING => CRE_MPF as u32,
        _ => 0,
    }
}

// "-1 for endless". No wait of a valid state has more milliseconds left than a field can hold.
#[tactic(auto, unfolding(crate::specs::Rows::shown_time))]
fn shown_time(left: u32) -> i32
    requires { TimeFits left }
    ensures { result ≡ shown_time left }
{
    if left == ENDLESS { -1 } else { left as i32 }
}

#[tactic(auto, unfolding(crate::specs::Rows::is_there))]
impl Row for TaskRow {
    ghost exists = { λ w. is_there (kernel w).tasks.place };

    ghost row_of = { λ w store outbox. task_row (kernel w) };

    ghost blank = { blank_task };

    type Of = Task;

    fn exists(state: &Words, t: TaskNumber) -> bool
        ensures { result ≡ is_there (kernel state.now).tasks.place t.0 }
    {
        state::task::place(state, t) != ABSENT
    }

    fn row(state: &Words, store: &[u8], outbox: &[u8], t: TaskNumber) -> TaskRow
        requires { AskedOf tasks (is_there (kernel state.now).tasks.place) state.now store.now outbox.now t.0 }
        ensures { result ≡ task_row (kernel state.now) t.0 }
    {
        TaskRow {
            state: task_state(state, t),
            base: state::task::base(state, t),
            current: state::task::current(state, t),
            kind: awaited_kind(state, t),
            object: state::task::object(state, t),
            left: shown_time(state::task::left(state, t)),
        }
    }

    fn blank() -> TaskRow {
        TaskRow {
            state: LARGEST_WORD,
            base: LARGEST_WORD,
            current: LARGEST_WORD,
            kind: LARGEST_WORD,
            object: LARGEST_WORD,
            left: -1,
        }
    }
}
