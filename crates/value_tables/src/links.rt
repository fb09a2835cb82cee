//! Links and ports in memory.

use sec_base::{Link, LinkFault, MemLink, MemPort, NoMemory, Port};
use std::alloc::Global;
use table_rows::{Cells, Said};

/// The numbers of the next cell, `-` where there is none.
pub fn numbers(cells: &mut Cells<'_>) -> Vec<u64> {
    let mut numbers = Vec::new(cells.alloc());
    let cell = cells.word();
    if cell != "-" {
        for number in cell.split(',') {
            let number = cells.number_in(number);
            let is_added = numbers.push(number).is_ok();
            cells.expect(is_added);
        }
    }
    numbers
}

/// The sizes of the next cell, `-` where there is none.
fn sizes(cells: &mut Cells<'_>) -> Vec<usize> {
    let mut sizes = Vec::new(cells.alloc());
    for number in numbers(cells).as_slice() {
        let is_added = sizes.push(*number as usize).is_ok();
        cells.expect(is_added);
    }
    sizes
}

/// Says what a read into a buffer answers, and the whole buffer then.
fn read(said: &mut Said, link: &mut MemLink, buffer: &mut [u8]) {
    if link.is_closed() {
        return;
    }
    match link.read(buffer) {
        Ok(count) => {
            said.number(count as u64);
            said.join(":");
            said.octets(buffer);
        }
        Err(LinkFault) => said.word("LinkFault"),
    }
}

/// Says what a write of octets answers.
fn write(said: &mut Said, link: &mut MemLink, octets: &[u8]) {
    if link.is_closed() {
        return;
    }
    match link.write(octets) {
        Ok(count) => said.number(count as u64),
        Err(LinkFault) => said.word("LinkFault"),
    }
}

/// Says what a step answers: `read`, `close`, or octets to write.
fn step(cells: &mut Cells<'_>, said: &mut Said, link: &mut MemLink, buffer: &mut [u8], step: &str) {
    match step {
        "read" => read(said, link, buffer),
        "close" => {
            link.close();
            said.word("closed");
        }
        octets => write(said, link, cells.octets_in(octets).as_slice()),
    }
}

/// Says what was written to a link and taken from it, how many of its calls failed, and whether it is closed.
fn link_said(said: &mut Said, link: &MemLink) {
    said.octets(link.written());
    said.octets(link.taken());
    said.number(link.faults());
    said.word(if link.is_closed() { "closed" } else { "open" });
}

/// What a link answers, by the cells input, sizes of pieces, numbers of the calls that fail, and steps. Reads go into a buffer of 8.
pub fn linked(cells: &mut Cells<'_>, said: &mut Said) {
    let (input, pieces, failing) = (cells.octets(), sizes(cells), numbers(cells));
    let mut link = MemLink::new(cells.alloc(), input, pieces, failing);
    let mut buffer = [0; 8];
    for (at, word) in cells.word().split(',').enumerate() {
        said.listed(at);
        step(cells, said, &mut link, &mut buffer, word);
    }
    link_said(said, &link);
}

/// Says what a port answers: what its next link gives into a buffer of 2, or None, or a fault.
fn accepted(said: &mut Said, port: &mut MemPort<MemLink>) {
    match port.accept() {
        Ok(Some(link)) => {
            let mut link = link;
            read(said, &mut link, &mut [0; 2]);
        }
        Ok(None) => said.word("None"),
        Err(fault) => said.form(&fault),
    }
}

/// A port with links of two inputs, whose calls of these numbers fail.
fn port(
    alloc: Global,
    first: Vec<u8>,
    second: Vec<u8>,
    failing: Vec<u64>,
) -> Result<MemPort<MemLink>, NoMemory> {
    let mut links = Vec::new(alloc);
    links.push(MemLink::new(alloc, first, Vec::new(alloc), Vec::new(alloc)))?;
    links.push(MemLink::new(alloc, second, Vec::new(alloc), Vec::new(alloc)))?;
    Ok(MemPort::new(links, failing))
}

/// Says what a port answers four times, and how many calls failed.
fn port_said(said: &mut Said, port: &mut MemPort<MemLink>) {
    for at in 0..4 {
        said.listed(at);
        accepted(said, port);
    }
    said.number(port.faults());
}

/// What a port answers, by the cells of two links and of the numbers of the calls that fail.
pub fn ported(cells: &mut Cells<'_>, said: &mut Said) {
    let (first, second, failing) = (cells.octets(), cells.octets(), numbers(cells));
    match port(cells.alloc(), first, second, failing) {
        Ok(port) => {
            let mut port = port;
            port_said(said, &mut port);
        }
        Err(NoMemory) => said.starve(),
    }
}
