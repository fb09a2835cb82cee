//! A connection over a link that gives its octets in pieces, and whose calls may fail; the gate has no answer.

use crate::served::{Answers, list_gate};
use gss_server::{KeepAll, Kept, Served, serve_link};
use sec_base::{MemDraw, MemLink, Moment};
use sha1::Sha1;
use std::alloc::Global;
use table_rows::{Cells, Said};
use table_setting::{Files, clock, numbers};

/// Pieces of one size, as many as octets.
fn pieces(cells: &mut Cells<'_>, size: usize, count: usize) -> Vec<usize> {
    let mut pieces = Vec::new(cells.alloc());
    for _ in 0..count {
        cells.expect(pieces.push(size).is_ok());
    }
    pieces
}

/// The most octets that are said as they are.
const MOST: usize = 1024;

/// Says octets, or how many they are and their SHA-1 where they are more than the most.
fn say_written(said: &mut Said, octets: &[u8]) {
    if octets.len() <= MOST {
        return said.octets(octets);
    }
    let mut hasher = Sha1::new();
    hasher.update(octets);
    said.number(octets.len() as u64);
    said.join(":");
    said.octets(&hasher.finalize());
}

/// Says what is written on a connection, its end, how many answers were kept, how many of the link's calls failed, and how many octets
/// were read.
fn say(said: &mut Said, served: &Served<MemLink>, kept: &[Kept]) {
    say_written(said, served.link.written());
    said.form(&served.end);
    said.number(kept.len() as u64);
    said.number(served.link.faults());
    said.number(served.link.taken().len() as u64);
}

/// Says what a connection over a link with this stream comes to.
fn serve(
    alloc: Global,
    gate: &mut Answers,
    input: Vec<u8>,
    pieces: Vec<usize>,
    failing: Vec<u64>,
    said: &mut Said,
) {
    let link = MemLink::new(alloc, input, pieces, failing);
    let mut clock = clock(alloc, Moment::start());
    let mut draw = MemDraw::new(Vec::new(alloc));
    let mut keeper = KeepAll::new(alloc);
    let served = serve_link(alloc, link, &mut keeper, gate, &mut clock, &mut draw, 128);
    say(said, &served, keeper.all.as_slice());
}

/// By the cells size of a read, numbers of failing calls and stream, what a connection comes to.
pub fn answer(files: &Files, cells: &mut Cells<'_>, said: &mut Said) {
    let alloc = cells.alloc();
    let size = cells.word_number() as usize;
    let failing = numbers(cells);
    let input = files.octets(cells);
    let pieces = pieces(cells, size, input.len());
    match list_gate(alloc, Vec::new(alloc)) {
        Ok(mut gate) => serve(alloc, &mut gate, input, pieces, failing, said),
        Err(_) => said.starve(),
    }
}
