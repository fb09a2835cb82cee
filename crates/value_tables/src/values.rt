//! Moments, object identifiers, and what octets, texts and items show.

use sec_base::{Items, Moment, Octets, Oid, Text};
use table_rows::{Cells, Said};

/// Says a moment's total, seconds and microseconds, the total of the moment that is a span later, and whether it is before the greatest.
fn moment_said(said: &mut Said, moment: Moment, span: u64) {
    said.number(moment.total());
    said.number(moment.secs());
    said.number(moment.micros() as u64);
    said.number(moment.later(span).total());
    let is_before = moment < Moment::greatest();
    said.word(if is_before { "before" } else { "greatest" });
}

/// The moment of the cells seconds, microseconds and span, where there is one.
pub fn moment(cells: &mut Cells<'_>, said: &mut Said) {
    let (secs, micros, span) = (cells.number(), cells.word_number(), cells.number());
    match Moment::new(secs, micros) {
        Some(moment) => moment_said(said, moment, span),
        None => said.word("None"),
    }
}

/// The content of the object identifier that octets are.
pub fn oid(cells: &mut Cells<'_>, said: &mut Said) {
    let content = cells.octets();
    match Oid::new(content.as_slice()) {
        Some(oid) => said.octets(oid.content()),
        None => said.word("None"),
    }
}

/// Says whether a value is the same as another.
fn same(said: &mut Said, is_same: bool) {
    said.word(if is_same { "same" } else { "another" });
}

/// What octets show, and whether a copy of them is the same.
fn octets_said(said: &mut Said, given: &[u8]) {
    match (
        Octets::of(said.alloc(), given),
        Octets::of(said.alloc(), given),
    ) {
        (Ok(octets), Ok(other)) => {
            said.octets(octets.as_slice());
            let copy = Octets::from_vec(octets.into_vec());
            same(said, copy == other);
        }
        _ => said.starve(),
    }
}

/// What a text shows, and whether it is `a`; `none` where octets are no text.
fn text_said(said: &mut Said, given: &[u8]) {
    let Ok(given) = str::from_utf8(given) else {
        said.word("none");
        return;
    };
    match (Text::of(said.alloc(), given), Text::of(said.alloc(), "a")) {
        (Ok(text), Ok(other)) => {
            said.octets(text.as_str().as_bytes());
            same(said, text == other);
        }
        _ => said.starve(),
    }
}

/// What items show, whether they are those of another list, and how many they are.
fn items_said(said: &mut Said, items: Vec<u8>, other: Vec<u8>) {
    let (items, other) = (Items::of(items), Items::of(other));
    said.octets(items.as_slice());
    same(said, items == other);
    said.number(items.into_vec().len() as u64);
}

/// What a row of octets shows as `octets`, as a `text` (whether it is `a`), and as `items` (whether they are 3 and 4).
pub fn shown(cells: &mut Cells<'_>, said: &mut Said) {
    let kind = cells.word();
    let given = cells.octets();
    match kind {
        "octets" => octets_said(said, given.as_slice()),
        "text" => text_said(said, given.as_slice()),
        "items" => match Vec::from_slice(cells.alloc(), &[3u8, 4]) {
            Ok(other) => items_said(said, given, other),
            Err(_) => said.starve(),
        },
        _ => cells.expect(false),
    }
}
