//! The files and octets that rows name, and the devices in memory that runs go by.
//!
//! None of these fails: what isn't in its form is noted among the cells, and where memory wants, a device has less than its row says, which
//! the row's answer then shows.

ghost use Rattle.std.specs.Prelude.{◌≡◌, false};

use crate::names::{octets_by_name, octets_in};
use sec_base::{
    Link, MemClock, MemDraw, MemLink, MemShelf, MemSink, Moment, NamedFile, Octets, Text,
};
use std::alloc::Global;
use table_rows::{Cells, Said};

/// The texts of `shelf.txt` and `octets.txt`: a line is a name and octets.
#[derive(Drop)]
pub struct Files {
    pub shelf: String,
    pub octets: String,
}

/// Adds the file of a line, and answers whether it could.
fn is_shelved(alloc: Global, files: &mut Vec<NamedFile>, line: &str) -> bool {
    let mut cells = Cells::new(alloc, line, ' ');
    let name = cells.word();
    let content = Octets::from_vec(cells.octets());
    match Text::of(alloc, name) {
        Ok(name) => files.push(NamedFile { name, content }).is_ok() && cells.are_well(),
        Err(_) => false,
    }
}

impl Files {
    /// A shelf with all files, whose loads of these numbers fail.
    pub fn shelf(&self, cells: &mut Cells<'_>, failing: Vec<u64>) -> MemShelf {
        let alloc = cells.alloc();
        let mut files = Vec::new(alloc);
        for line in self.shelf.lines() {
            if !line.starts_with('#') {
                let is_well = is_shelved(alloc, &mut files, line);
                cells.expect(is_well);
            }
        }
        MemShelf::new(alloc, files, failing)
    }

    /// The octets of the next cell, which may name them.
    pub fn octets(&self, cells: &mut Cells<'_>) -> Vec<u8> {
        octets_by_name(cells, self.octets.as_str())
    }

    /// The octets of a part of a cell, which may name them.
    pub fn octets_in(&self, cells: &mut Cells<'_>, part: &str) -> Vec<u8> {
        octets_in(cells, part, self.octets.as_str())
    }

    /// A link whose stream is a cell's octets, which may name them, and whose calls of these numbers fail.
    pub fn link(&self, cells: &mut Cells<'_>, cell: &str, failing: Vec<u64>) -> MemLink
        ensures { ⟦<MemLink as Link>⟧.closed result ≡ false }
    {
        link_by(cells, cell, self.octets.as_str(), failing)
    }
}

/// Adds the number of a part, and answers whether it could.
fn is_counted(numbers: &mut Vec<u64>, part: &str) -> bool {
    match part.parse::<u64>() {
        Ok(number) => numbers.push(number).is_ok(),
        Err(_) => false,
    }
}

/// The numbers of a cell, between which a comma stands; `-` has none.
pub fn numbers_of(cells: &mut Cells<'_>, cell: &str) -> Vec<u64> {
    let mut numbers = Vec::new(cells.alloc());
    if cell != "-" {
        for part in cell.split(',') {
            let is_well = is_counted(&mut numbers, part);
            cells.expect(is_well);
        }
    }
    numbers
}

/// The numbers of the next cell, between which a comma stands; `-` has none.
pub fn numbers(cells: &mut Cells<'_>) -> Vec<u64> {
    let cell = cells.word();
    numbers_of(cells, cell)
}

/// Adds a word, and answers whether it could.
fn is_spelled(alloc: Global, words: &mut Vec<Text>, word: &str) -> bool {
    match Text::of(alloc, word) {
        Ok(word) => words.push(word).is_ok(),
        Err(_) => false,
    }
}

/// The words of a text, between which this mark stands; `-` has none.
pub fn words_of(cells: &mut Cells<'_>, text: &str, mark: char) -> Vec<Text> {
    let alloc = cells.alloc();
    let mut words = Vec::new(alloc);
    if text != "-" {
        for word in text.split(mark) {
            let is_well = is_spelled(alloc, &mut words, word);
            cells.expect(is_well);
        }
    }
    words
}

/// The words of the next cell, between which `|` stands; `-` has none.
pub fn words(cells: &mut Cells<'_>) -> Vec<Text> {
    let cell = cells.word();
    words_of(cells, cell, '|')
}

/// 1,000,000 seconds.
pub fn present() -> Moment {
    Moment::new(1_000_000, 0).unwrap_or(Moment::start())
}

/// A clock that stands at this moment.
pub fn clock(alloc: Global, moment: Moment) -> MemClock {
    let mut moments = Vec::new(alloc);
    let _ = moments.push(moment);
    MemClock::new(moments)
}

/// Adds the octets of a read, and answers whether it could.
fn is_given(input: &mut Vec<u8>, sizes: &mut Vec<usize>, octets: &[u8]) -> bool {
    input.extend_from_slice(octets).is_ok() && sizes.push(octets.len()).is_ok()
}

/// A link whose stream is this cell's octets, which may name those in this text. Where a `|` stands between them, a read ends. The calls of
/// these numbers fail.
fn link_by(cells: &mut Cells<'_>, cell: &str, text: &str, failing: Vec<u64>) -> MemLink
    ensures { ⟦<MemLink as Link>⟧.closed result ≡ false }
{
    let alloc = cells.alloc();
    let (mut input, mut sizes) = (Vec::new(alloc), Vec::new(alloc));
    for part in cell.split('|') {
        let octets = octets_in(cells, part, text);
        let is_well = is_given(&mut input, &mut sizes, octets.as_slice());
        cells.expect(is_well);
    }
    MemLink::new(alloc, input, sizes, failing)
}

/// A link whose stream is this cell's octets.
pub fn link(cells: &mut Cells<'_>, cell: &str) -> MemLink
    ensures { ⟦<MemLink as Link>⟧.closed result ≡ false }
{
    let alloc = cells.alloc();
    link_by(cells, cell, "", Vec::new(alloc))
}

/// What a run goes by beside its link and its files: a clock that stands, random octets that count 00, 01 and so on, and both streams.
#[derive(Drop)]
pub struct Devices {
    pub clock: MemClock,
    pub draw: MemDraw,
    pub out: MemSink,
    pub err: MemSink,
}

impl Devices {
    /// The devices at this moment, whose writes of these numbers fail on standard output and on standard error.
    pub fn new(alloc: Global, moment: Moment, out: Vec<u64>, err: Vec<u64>) -> Devices {
        Devices {
            clock: clock(alloc, moment),
            draw: MemDraw::new(Vec::new(alloc)),
            out: MemSink::new(alloc, out),
            err: MemSink::new(alloc, err),
        }
    }

    /// Says what was written on both streams.
    pub fn say(&self, said: &mut Said) {
        said.octets(self.out.written());
        said.octets(self.err.written());
    }
}

/// Says what was said apart, `-` for nothing.
pub fn say_list(said: &mut Said, list: &Said) {
    match list.told() {
        Some("") => said.word("-"),
        Some(list) => said.word(list),
        None => said.starve(),
    }
}
