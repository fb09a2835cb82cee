//! The stamps that an initiator gives.

use ap_exchange::Stamps;
use table_rows::{Cells, Said};

/// Says the stamp for the moment of a part, `None` where there is none.
fn next(cells: &mut Cells<'_>, said: &mut Said, stamps: &mut Stamps, part: &str) {
    let mut one = Cells::new(cells.alloc(), part, ' ');
    let now = one.moment();
    cells.expect(one.are_well());
    match stamps.next(now) {
        Some(stamp) => said.moment(stamp),
        None => said.word("None"),
    }
}

/// The stamps for the moments of a cell, one after the other.
pub fn answer(cells: &mut Cells<'_>, said: &mut Said) {
    let mut stamps = Stamps::new();
    for part in cells.word().split(',') {
        next(cells, said, &mut stamps, part);
        said.join(",");
    }
}
