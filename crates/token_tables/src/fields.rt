//! Fields under explicit tags: a list under tag 0, octets under tag 1 and a text under tag 3, of which the latter two may be left out.

use crate::values::refused;
use der_core::{Reader, Writer, field, optional, put_field, put_optional};
use sec_base::{Items, NoMemory, Octets, Oid, Text};
use std::alloc::Global;
use table_rows::{Cells, Said};

/// Says the identifiers of a list with commas between them.
pub fn identifiers(said: &mut Said, list: &[Oid]) {
    for (at, oid) in list.iter().enumerate() {
        said.listed(at);
        said.octets(oid.content());
    }
}

/// Writes the list and the octets.
fn put(
    out: &mut Writer,
    alloc: Global,
    list: &Items<Oid>,
    octets: &Option<Octets>,
) -> Result<(), NoMemory> {
    put_field(alloc, out, 0xa0, list)?;
    put_optional(alloc, out, 0xa1, octets)
}

/// The list and the octets as they are written again.
fn written(alloc: Global, list: &Items<Oid>, octets: &Option<Octets>) -> Option<Octets> {
    let mut out = Writer::new(alloc).ok()?;
    put(&mut out, alloc, list, octets).ok()?;
    out.finish().ok()
}

/// Says the list, the tag behind it and the octets.
fn front_said(said: &mut Said, list: &Items<Oid>, next: Option<u8>, octets: &Option<Octets>) {
    identifiers(said, list.as_slice());
    match next {
        Some(tag) => said.octets(&[tag]),
        None => said.word("end"),
    }
    match octets {
        Some(octets) => said.hex(octets.as_slice()),
        None => said.word("none"),
    }
}

/// Says the text, how many octets are left behind it, and the list and the octets as they are written again.
fn back_said(said: &mut Said, text: &Option<Text>, left: usize, written: Option<Octets>) {
    match text {
        Some(text) => said.hex(text.as_str().as_bytes()),
        None => said.word("none"),
    }
    said.number(left as u64);
    match written {
        Some(written) => said.octets(written.as_slice()),
        None => said.starve(),
    }
}

/// Says what stands in a reader behind the octets, and all fields.
fn behind_octets(
    said: &mut Said,
    reader: &mut Reader,
    list: &Items<Oid>,
    next: Option<u8>,
    octets: &Option<Octets>,
) {
    match optional(said.alloc(), reader, 0xa3) {
        Ok(text) => {
            front_said(said, list, next, octets);
            let written = written(said.alloc(), list, octets);
            back_said(said, &text, reader.left(), written);
        }
        Err(refusal) => refused(said, refusal),
    }
}

/// Says what stands in a reader behind the list, and all fields.
fn behind_list(said: &mut Said, reader: &mut Reader, list: &Items<Oid>) {
    let next = reader.peek();
    match optional(said.alloc(), reader, 0xa1) {
        Ok(octets) => behind_octets(said, reader, list, next, &octets),
        Err(refusal) => refused(said, refusal),
    }
}

/// The cell octets: the list, the tag behind it, the octets, the text, how many octets are left, and the first two written again.
pub fn read(cells: &mut Cells<'_>, said: &mut Said) {
    let octets = cells.octets();
    let mut reader = Reader::new(octets.as_slice());
    match field(cells.alloc(), &mut reader, 0xa0) {
        Ok(list) => behind_list(said, &mut reader, &list),
        Err(refusal) => refused(said, refusal),
    }
}
