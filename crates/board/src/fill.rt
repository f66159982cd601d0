// What a board call does, over any kind of row.
ghost use Rattle.std.specs.Prelude.{◌≡◌};
ghost use Rattle.board.specs.Table.{answer_code, board, board_of};
ghost use Rattle.model.specs.Lent.{is_valid};

use model::code::{E_OK, Error};
use model::number::{Number, Object};
use status::row::Row;
use valid::is_valid;

// "An unsound state is -5, then fewer [rows than objects] is -17, with nothing written"; else the rows of the objects that exist are written, and no others.
pub fn fill_board<R: Row>(
    state: &[u32],
    store: &[u8],
    outbox: &[u8],
    rows: &mut [R],
) -> Result<(), Error>
    ensures { board (answer_code result) rows.new ≡ board_of (is_valid state.now store.now outbox.now) R.Of.LAST (R.exists state.now) (R.row_of state.now store.now outbox.now) rows.old }
{
    if !is_valid(state, store, outbox) {
        return Err(Error::Sys);
    }
    // a valid state has as many words
    let Some(words) = state.as_array() else {
        return Err(Error::Sys);
    };
    if rows.len() < R::Of::LAST as usize {
        return Err(Error::Par);
    }
    // the rows go by the objects' numbers, and rows behind the last object are left out
    for i in 0..R::Of::LAST {
        let Some(n) = Number::<R::Of>::from_word(i + 1) else {
            continue;
        };
        if R::exists(words, n) {
            rows[i as usize] = R::row(words, store, outbox, n);
        }
    }
    Ok(())
}

// As C gets it.
pub fn answer(filled: Result<(), Error>) -> i32
    ensures { result ≡ answer_code filled }
{
    match filled {
        Ok(_) => E_OK,
        Err(e) => e.code(),
    }
}
