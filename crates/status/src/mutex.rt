// The row of a mutex.
ghost use Rattle.std.specs.Prelude.{◌≡◌};
ghost use Rattle.model.specs.Sizes.{mutexes};
ghost use Rattle.model.specs.Words.{kernel};
ghost use Rattle.status.specs.Blank.{blank_mutex};
ghost use Rattle.status.specs.Rows.{AskedOf, is_there, mutex_row};

use super::row::{MutexRow, Row};
use super::waiter::first_of;
use model::number::{Mutex, MutexNumber};
use model::sizes::LARGEST_WORD;
use state::layout::Words;
use state::task::LOCKING;

#[tactic(auto, unfolding(crate::specs::Rows::is_there, crate::specs::Rows::mutex_row))]
impl Row for MutexRow {
    ghost exists = { λ w. is_there (kernel w).mutexes.exists };

    ghost row_of = { λ w store outbox. mutex_row (kernel w) };

    ghost blank = { blank_mutex };

    type Of = Mutex;

    fn exists(state: &Words, m: MutexNumber) -> bool
        ensures { result ≡ is_there (kernel state.now).mutexes.exists m.0 }
    {
        state::mutex::exists(state, m) != 0
    }

    fn row(state: &Words, store: &[u8], outbox: &[u8], m: MutexNumber) -> MutexRow
        requires { AskedOf mutexes (is_there (kernel state.now).mutexes.exists) state.now store.now outbox.now m.0 }
        ensures { result ≡ mutex_row (kernel state.now) m.0 }
    {
        MutexRow {
            holder: state::mutex::holder(state, m),
            waiter: first_of(state, LOCKING, m.word()),
        }
    }

    fn blank() -> MutexRow {
        MutexRow {
            holder: LARGEST_WORD,
            waiter: LARGEST_WORD,
        }
    }
}
