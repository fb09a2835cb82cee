//! Exchanges of both ends of SASL GSSAPI, and those in which one octet is altered.

use crate::sasl_change::Change;
use crate::sasl_exchange::{Plan, run};
use sasl_layer::Wish;
use table_rows::{Cells, Said};
use table_setting::{Setting, say_list};

/// The cells of a wish: its mask and its size.
fn wish_in(cells: &mut Cells<'_>) -> Option<Wish> {
    let mask = cells.number();
    let size = cells.word_number();
    let wish = if mask < 8 {
        Wish::new(mask as u8, size)
    } else {
        None
    };
    cells.expect(wish.is_some());
    wish
}

/// By the cells of both wishes, the change of a message, and how many octets are sent, what becomes of an exchange.
pub fn exchanged(setting: &Setting, cells: &mut Cells<'_>, said: &mut Said) {
    let server = wish_in(cells);
    let client = wish_in(cells);
    let change = Change {
        step: cells.number(),
        how: cells.word(),
        octets: cells.octets(),
        place: 0,
        bits: 0,
    };
    let count = cells.number();
    if let Some((server, client)) = server.zip(client) {
        let plan = Plan {
            server,
            client,
            count,
        };
        run(said, setting, &plan, &change);
    }
    drop(change);
}

/// What becomes of the exchange of all layers, by which one octet of data is sent, where an octet is altered.
fn said_at(setting: &Setting, cells: &Cells<'_>, step: u64, place: u64, bits: u8) -> Said {
    let alloc = cells.alloc();
    let mut said = Said::new(alloc);
    let change = Change {
        step,
        how: "at",
        octets: Vec::new(alloc),
        place,
        bits,
    };
    if let Some(wish) = Wish::new(7, 65_536) {
        let plan = Plan {
            server: wish,
            client: wish,
            count: 1,
        };
        run(&mut said, setting, &plan, &change);
    }
    drop(change);
    said
}

/// By the cells of a message, the bits that are turned, and the first and the last octet, what becomes of an exchange where each of these is
/// altered; places at which it is another thing than at the first are said with it.
pub fn altered(setting: &Setting, cells: &mut Cells<'_>, said: &mut Said) {
    let step = cells.number();
    let bits: [u8; 1] = cells.exactly();
    let bits = bits[0];
    let (first, last) = (cells.number(), cells.number());
    cells.expect(first <= last && last < 65_536);
    let all = said_at(setting, cells, step, first, bits);
    for place in first..last {
        let next = said_at(setting, cells, step, place.saturating_add(1), bits);
        if next.told() != all.told() {
            said.number(place.saturating_add(1));
            say_list(said, &next);
        }
        drop(next);
    }
    say_list(said, &all);
    drop(all);
}
