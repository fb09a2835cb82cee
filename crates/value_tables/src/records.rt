//! The records of a stream that comes in pieces, and the stream of a record.

use rpc_msgs::{next_record, write_record};
use sec_base::{LinkFault, MemLink};
use std::alloc::Global;
use table_rows::{Cells, Said};

/// More records than a line of a table has.
const MOST: u32 = 100;

/// The octets that a record may have.
const LIMIT: usize = 131_072;

/// A link with this stream, in pieces of so many octets.
fn link(alloc: Global, size: usize, input: Vec<u8>) -> Option<MemLink> {
    match vec![in alloc; size; input.len()] {
        Ok(pieces) => Some(MemLink::new(alloc, input, pieces, Vec::new(alloc))),
        Err(_) => None,
    }
}

/// Says a record, `e` where it is empty.
fn record(said: &mut Said, record: &[u8]) {
    if record.is_empty() {
        said.word("e");
    } else {
        said.octets(record);
    }
}

/// Has the end of so many records stand behind them.
fn ends(said: &mut Said, number: u32) {
    if number == 0 {
        said.word("-");
    }
    said.join(":");
}

/// Says the next record of an open link or its end, and answers whether the link goes on.
fn goes_on(said: &mut Said, link: &mut MemLink, number: u32) -> bool {
    if link.is_closed() {
        return false;
    }
    match next_record(said.alloc(), link) {
        Ok(Some(next)) => {
            said.listed(number as usize);
            record(said, next.as_slice());
            true
        }
        Ok(None) => {
            ends(said, number);
            said.word("Ended");
            false
        }
        Err(refusal) => {
            ends(said, number);
            said.form(&refusal);
            false
        }
    }
}

/// Says the records of a link and its end.
fn records(said: &mut Said, link: &mut MemLink) {
    for number in 0..MOST {
        if !goes_on(said, link, number) {
            return;
        }
    }
}

/// The records of a stream and its end, by the cells size of the pieces and stream.
pub fn in_pieces(cells: &mut Cells<'_>, said: &mut Said) {
    let (size, input) = (cells.number(), cells.octets());
    match link(cells.alloc(), size as usize, input) {
        Some(link) => {
            let mut link = link;
            records(said, &mut link);
        }
        None => said.starve(),
    }
}

/// The stream that a record is written as.
pub fn framed(cells: &mut Cells<'_>, said: &mut Said) {
    let alloc = cells.alloc();
    let record = cells.octets();
    let mut link = MemLink::new(alloc, Vec::new(alloc), Vec::new(alloc), Vec::new(alloc));
    if record.len() > LIMIT {
        cells.expect(false);
    } else {
        match write_record(&mut link, record.as_slice()) {
            Ok(()) => said.octets(link.written()),
            Err(LinkFault) => cells.expect(false),
        }
    }
}
