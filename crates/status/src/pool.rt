// The row of a pool.
ghost use Rattle.std.specs.Prelude.{◌≡◌};
ghost use Rattle.model.specs.Sizes.{pools};
ghost use Rattle.model.specs.Words.{kernel};
ghost use Rattle.pool_account.specs.Statements.{free};
ghost use Rattle.status.specs.Blank.{blank_pool};
ghost use Rattle.status.specs.Rows.{AskedOf, is_there, pool_row};

use super::row::{PoolRow, Row};
use super::waiter::first_of;
use model::number::{Pool, PoolNumber};
use model::sizes::LARGEST_WORD;
use state::layout::Words;
use state::task::GETTING;

// How many blocks are free.
fn free_count(state: &Words, p: PoolNumber) -> u32
    ensures { result ≡ free (kernel state.now).pools p.0 }
{
    let count = state::pool::count(state, p);
    let mut free: u32 = 0;
    for i in 0..count {
        let flag = state::pool::taken(state, p, i + 1);
        if flag == 0 {
            free += 1;
        }
    }
    free
}

#[tactic(auto, unfolding(crate::specs::Rows::is_there, crate::specs::Rows::pool_row))]
impl Row for PoolRow {
    ghost exists = { λ w. is_there (kernel w).pools.exists };

    ghost row_of = { λ w store outbox. pool_row (kernel w) };

    ghost blank = { blank_pool };

    type Of = Pool;

    fn exists(state: &Words, p: PoolNumber) -> bool
        ensures { result ≡ is_there (kernel state.now).pools.exists p.0 }
    {
        state::pool::exists(state, p) != 0
    }

    fn row(state: &Words, store: &[u8], outbox: &[u8], p: PoolNumber) -> PoolRow
        requires { AskedOf pools (is_there (kernel state.now).pools.exists) state.now store.now outbox.now p.0 }
        ensures { result ≡ pool_row (kernel state.now) p.0 }
    {
        PoolRow {
            free: free_count(state, p),
            waiter: first_of(state, GETTING, p.word()),
        }
    }

    fn blank() -> PoolRow {
        PoolRow {
            free: LARGEST_WORD,
            waiter: LARGEST_WORD,
        }
    }
}
