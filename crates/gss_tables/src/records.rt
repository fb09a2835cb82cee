//! The records of a stream.

use rpc_msgs::{RecordRefusal, next_record};
use sec_base::{MemLink, Octets};
use std::alloc::Global;
use table_rows::{Cells, Said};
use table_setting::{link, say_list};

/// More records than a line of a table has.
pub const MOST: u32 = 1000;

/// The next record of an open link; None of a closed one.
pub fn next(alloc: Global, link: &mut MemLink) -> Option<Result<Option<Octets>, RecordRefusal>> {
    if link.is_closed() {
        return None;
    }
    Some(next_record(alloc, link))
}

/// Says the octets of a record, `e` where it is empty, and a comma before the next.
fn say_record(records: &mut Said, record: &[u8]) {
    if record.is_empty() {
        records.word("e");
    } else {
        records.octets(record);
    }
    records.join(",");
}

/// Says what comes next of a stream, and answers whether it was a record: else it is said how the stream ended.
fn is_record(alloc: Global, link: &mut MemLink, records: &mut Said, end: &mut Said) -> bool {
    match next(alloc, link) {
        Some(Ok(Some(record))) => {
            say_record(records, record.as_slice());
            true
        }
        Some(Ok(None)) => {
            end.word("Ended");
            false
        }
        Some(Err(refusal)) => {
            end.form(&refusal);
            false
        }
        None => {
            end.starve();
            false
        }
    }
}

/// Says the records of a stream up to its end, and that end.
fn hear(alloc: Global, link: &mut MemLink, records: &mut Said, end: &mut Said) {
    for _ in 0..MOST {
        if !is_record(alloc, link, records, end) {
            return;
        }
    }
}

/// By the cell of a stream, its records and its end.
pub fn answer(cells: &mut Cells<'_>, said: &mut Said) {
    let alloc = cells.alloc();
    let cell = cells.word();
    let mut link = link(cells, cell);
    let mut records = Said::new(alloc);
    let mut end = Said::new(alloc);
    hear(alloc, &mut link, &mut records, &mut end);
    say_list(said, &records);
    said.join(":");
    say_list(said, &end);
}
