//! Sinks, clocks, draws and shelves in memory.

use crate::links::numbers;
use sec_base::{
    Clock, Draw, LoadRefusal, MemClock, MemDraw, MemShelf, MemSink, Moment, NamedFile, Octets,
    Shelf, Sink, SinkFault, Text,
};
use table_rows::{Cells, Said};

/// What a sink answers, what was written and how many writes failed, by the cells numbers of the writes that fail, and octets.
pub fn sunk(cells: &mut Cells<'_>, said: &mut Said) {
    let mut sink = MemSink::new(cells.alloc(), numbers(cells));
    for (at, part) in cells.word().split(',').enumerate() {
        said.listed(at);
        match sink.write(cells.octets_in(part).as_slice()) {
            Ok(()) => said.word("Ok"),
            Err(SinkFault) => said.word("SinkFault"),
        }
    }
    said.octets(sink.written());
    said.number(sink.faults());
}

/// The moments of the next cell, `-` where there is none.
fn moments(cells: &mut Cells<'_>) -> Vec<Moment> {
    let alloc = cells.alloc();
    let mut moments = Vec::new(alloc);
    let cell = cells.word();
    if cell != "-" {
        for part in cell.split(',') {
            let mut part = Cells::new(alloc, part, ' ');
            let is_added = moments.push(part.moment()).is_ok();
            cells.expect(is_added && part.are_well());
        }
    }
    moments
}

/// The totals of the moments that a clock gives when it is asked three times, and how many it gave.
pub fn clocked(cells: &mut Cells<'_>, said: &mut Said) {
    let mut clock = MemClock::new(moments(cells));
    for at in 0..3 {
        said.listed(at);
        said.number(clock.now().total());
    }
    said.number(clock.count());
}

/// The octets with which a draw over a list fills five octets, twice.
pub fn drawn(cells: &mut Cells<'_>, said: &mut Said) {
    let mut draw = MemDraw::new(cells.octets());
    let mut first = [9; 5];
    draw.fill(&mut first);
    said.octets(&first);
    let mut second = [9; 5];
    draw.fill(&mut second);
    said.octets(&second);
}

/// Adds a file `name=content`, and answers whether it could.
fn is_added(cells: &mut Cells<'_>, files: &mut Vec<NamedFile>, part: &str) -> bool {
    let (name, content) = part.split_once('=').unwrap_or((part, ""));
    let content = Octets::from_vec(cells.octets_in(content));
    match Text::of(cells.alloc(), name) {
        Ok(name) => files.push(NamedFile { name, content }).is_ok(),
        Err(_) => false,
    }
}

/// A shelf by the cells files, `name=content` with commas between them, and numbers of the calls that fail.
pub fn shelf(cells: &mut Cells<'_>) -> MemShelf {
    let mut files = Vec::new(cells.alloc());
    for part in cells.word().split(',') {
        let is_added = is_added(cells, &mut files, part);
        cells.expect(is_added);
    }
    MemShelf::new(cells.alloc(), files, numbers(cells))
}

/// Says what a shelf answers to `name:limit`.
fn loaded(cells: &mut Cells<'_>, said: &mut Said, shelf: &mut MemShelf, part: &str) {
    let (name, limit) = part.split_once(':').unwrap_or((part, ""));
    match shelf.load(said.alloc(), name, cells.number_in(limit) as usize) {
        Ok(content) => said.octets(content.as_slice()),
        Err(LoadRefusal::NoMemory) => said.starve(),
        Err(refusal) => said.form(&refusal),
    }
}

/// Says the names that a shelf was asked, and how many calls failed.
pub fn shelf_said(said: &mut Said, shelf: &MemShelf) {
    for (at, name) in shelf.asked().iter().enumerate() {
        said.listed(at);
        said.word(name.as_str());
    }
    said.number(shelf.faults());
}

/// What a shelf answers, by the cells files, numbers of the calls that fail, and `name:limit` with commas between them.
pub fn shelved(cells: &mut Cells<'_>, said: &mut Said) {
    let mut shelf = shelf(cells);
    for (at, part) in cells.word().split(',').enumerate() {
        said.listed(at);
        loaded(cells, said, &mut shelf, part);
    }
    shelf_said(said, &shelf);
}
