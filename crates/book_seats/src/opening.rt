//! A table is made.
ghost use Rattle.std.specs.Prelude.{◌≡◌, ◌<◌, IfOk, []};
ghost use Rattle.book_seats.specs.Views.{writer};

use crate::board::{Board, Token};
use sec_base::NoMemory;
use std::alloc::Global;

/// A table with the seat of its writer, who knows of no note and no clerk.
pub fn open_board<T>(alloc: Global) -> Result<(Board<T>, Token<T>), NoMemory>
    ensures words { IfOk result (λ made. 0 < made.0.shared.table_id.words) }
    ensures token { IfOk result (λ made. (made.1.table_id ≡ made.0.shared.table_id)
        × (made.1.me ≡ (writer 0 [], []))) }
{
    match Board::of_words(alloc, &[0], &()) {
        Ok(made) => Ok(made),
        Err(_) => Err(NoMemory),
    }
}
