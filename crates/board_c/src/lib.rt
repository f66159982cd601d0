// The status board for C: `board`'s four functions under the names that include/shinepod.h declares, each with the clauses of the one that it calls. A
// slice is handed over as a pointer and a length.
#![tactic(auto)]

ghost use Rattle.std.specs.Prelude.{◌≡◌};
ghost use Rattle.board.specs.Table.{board};
ghost use Rattle.board.specs.Boards.{task_board, mutex_board, buffer_board, pool_board};

use board::{buffer, mutex, pool, task};
use status::row::{BufferRow, MutexRow, PoolRow, TaskRow};

// The manual's tk_ref_tsk, of all tasks at once.
#[unsafe(no_mangle)]
pub extern "C" fn shinepod_ref_tsk(
    state: &[u32],
    store: &[u8],
    outbox: &[u8],
    rows: &mut [TaskRow],
) -> i32
    ensures { board result rows.new ≡ task_board state.now store.now outbox.now rows.old }
{
    task::shinepod_ref_tsk(state, store, outbox, rows)
}

// The manual's tk_ref_mtx, of all mutexes at once.
#[unsafe(no_mangle)]
pub extern "C" fn shinepod_ref_mtx(
    state: &[u32],
    store: &[u8],
    outbox: &[u8],
    rows: &mut [MutexRow],
) -> i32
    ensures { board result rows.new ≡ mutex_board state.now store.now outbox.now rows.old }
{
    mutex::shinepod_ref_mtx(state, store, outbox, rows)
}

// The manual's tk_ref_mbf, of all buffers at once.
#[unsafe(no_mangle)]
pub extern "C" fn shinepod_ref_mbf(
    state: &[u32],
    store: &[u8],
    outbox: &[u8],
    rows: &mut [BufferRow],
) -> i32
    ensures { board result rows.new ≡ buffer_board state.now store.now outbox.now rows.old }
{
    buffer::shinepod_ref_mbf(state, store, outbox, rows)
}

// The manual's tk_ref_mpf, of all pools at once.
#[unsafe(no_mangle)]
pub extern "C" fn shinepod_ref_mpf(
    state: &[u32],
    store: &[u8],
    outbox: &[u8],
    rows: &mut [PoolRow],
) -> i32
    ensures { board result rows.new ≡ pool_board state.now store.now outbox.now rows.old }
{
    pool::shinepod_ref_mpf(state, store, outbox, rows)
}
