//! Numbers and octets in XDR, both ways.

use crate::messages::written_as;
use rpc_msgs::{XdrReader, XdrRefusal, XdrWriter};
use sec_base::{NoMemory, Octets};
use std::alloc::Global;
use table_rows::{Cells, Said};

/// More octets than a row has.
const MOST: usize = 65_536;

/// Says a refusal by its reason and place.
pub fn refused(said: &mut Said, refusal: XdrRefusal) {
    said.form(&refusal.why);
    said.number(refusal.at as u64);
}

/// Octets of variable length as they are written, none where they are too long.
fn opaque(alloc: Global, value: &[u8]) -> Result<Octets, NoMemory> {
    let mut out = XdrWriter::new(alloc);
    if value.len() <= MOST {
        out.opaque(value)?;
    }
    Ok(out.finish())
}

/// The octets of variable length that stand in front and how many were read, or why there are none, by the cells limit and octets.
pub fn opaques(cells: &mut Cells<'_>, said: &mut Said) {
    let (limit, octets) = (cells.word_number(), cells.octets());
    let mut reader = XdrReader::new(octets.as_slice());
    match reader.opaque(limit) {
        Ok(value) => {
            let place = reader.place();
            let front = octets.get(..place).unwrap_or(&[]);
            written_as(said, front, opaque(cells.alloc(), value));
            said.octets(value);
            said.number(place as u64);
        }
        Err(refusal) => refused(said, refusal),
    }
}

/// A number and octets as they are written.
fn written(alloc: Global, number: u32, octets: &[u8]) -> Result<Octets, NoMemory> {
    let mut out = XdrWriter::new(alloc);
    out.word(number)?;
    out.octets(octets)?;
    Ok(out.finish())
}

/// Says octets, the number that is read there, and whether octets are left.
fn read_again(said: &mut Said, octets: &[u8]) {
    said.octets(octets);
    let mut reader = XdrReader::new(octets);
    match reader.word() {
        Ok(number) => said.number(number as u64),
        Err(refusal) => refused(said, refusal),
    }
    match reader.end() {
        Ok(()) => said.word("Ended"),
        Err(refusal) => refused(said, refusal),
    }
}

/// What is written for the cells number and octets, then the number that is read there, and whether octets are left.
pub fn words(cells: &mut Cells<'_>, said: &mut Said) {
    let (number, octets) = (cells.word_number(), cells.octets());
    match written(cells.alloc(), number, octets.as_slice()) {
        Ok(written) => read_again(said, written.as_slice()),
        Err(NoMemory) => said.starve(),
    }
}
