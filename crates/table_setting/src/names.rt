//! Cells that a name stands for.

use std::alloc::Global;
use table_rows::Cells;

/// The cell behind this name in a text whose lines are a name and a cell.
pub fn named<'a>(text: &'a str, name: &str) -> Option<&'a str> {
    for line in text.lines() {
        if let Some((first, rest)) = line.split_once(' ') {
            if first == name {
                return Some(rest);
            }
        }
    }
    None
}

/// The cell that a part of a cell stands for: itself, or behind `@` that of its name in this text, `@` where it has none.
fn meant<'a>(text: &'a str, part: &'a str) -> &'a str {
    match part.strip_prefix('@') {
        Some(name) => named(text, name).unwrap_or("@"),
        None => part,
    }
}

/// Adds a part so many times, and answers whether it could.
fn is_added(all: &mut Vec<u8>, part: &[u8], times: u32) -> bool {
    for _ in 0..times {
        if all.extend_from_slice(part).is_err() {
            return false;
        }
    }
    true
}

/// Adds a part of a cell, `times*part` so many times, and answers whether it could.
fn is_read(alloc: Global, text: &str, said: &str, all: &mut Vec<u8>) -> bool {
    let (times, part) = said.split_once('*').unwrap_or(("1", said));
    let mut cells = Cells::new(alloc, meant(text, part), ' ');
    let octets = cells.octets();
    match times.parse::<u32>() {
        Ok(times) => cells.are_well() && is_added(all, octets.as_slice(), times),
        Err(_) => false,
    }
}

/// The octets of a part of a cell: its own parts, between which `+` stands; `times*part` is a part so many times, and `@name` the octets of
/// this name in the text.
pub fn octets_in(cells: &mut Cells<'_>, part: &str, text: &str) -> Vec<u8> {
    let alloc = cells.alloc();
    let mut all = Vec::new(alloc);
    for said in part.split('+') {
        let is_well = is_read(alloc, text, said, &mut all);
        cells.expect(is_well);
    }
    all
}

/// The same of the next cell.
pub fn octets_by_name(cells: &mut Cells<'_>, text: &str) -> Vec<u8> {
    let cell = cells.word();
    octets_in(cells, cell, text)
}
