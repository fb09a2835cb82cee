//! What a server answers to datagrams, over a book of its own.

use crate::connections::book_of;
use crate::entries::entries_in;
use crate::served::{BookGate, gate_of};
use accept_book::Entry;
use again_gate::AgainGate;
use datagram_post::MemPost;
use gss_server::KeepAll;
use rpc_datagram::serve;
use sec_base::{MemDraw, Octets};
use std::alloc::Global;
use table_rows::{Cells, Said};
use table_setting::{Files, Setting, clock, present, say_list};

/// The most contexts of the book.
const CONTEXTS: usize = 64;

/// The width of its windows.
const WIDTH: u32 = 128;

/// The limits of the book, as rows have them: its contexts, marks and entries, and the width of its windows.
const LIMITS: &str = "64:64:64:128";

/// How many octets of a result are kept: those of a name, as WHOAMI spells it.
const MOST_KEPT: u32 = 260;

/// What comes in one wait, `-` for nothing.
fn one(files: &Files, cells: &mut Cells<'_>, part: &str) -> Option<Octets> {
    if part == "-" {
        return None;
    }
    Some(Octets::from_vec(files.octets_in(cells, part)))
}

/// What comes in the waits of a cell, between which a comma stands.
fn coming(files: &Files, cells: &mut Cells<'_>, waits: &str) -> Vec<Option<Octets>> {
    let mut coming = Vec::new(cells.alloc());
    for part in waits.split(',') {
        let is_well = coming.push(one(files, cells, part)).is_ok();
        cells.expect(is_well);
    }
    coming
}

/// A gate that keeps so many calls of a context, over a book of its own.
fn keeping_gate(alloc: Global, setting: &Setting, kept: u32) -> Option<AgainGate<BookGate>> {
    if kept == 0 {
        return None;
    }
    let book = book_of(alloc, setting, "ks", LIMITS, present())?;
    AgainGate::new(alloc, gate_of(book), CONTEXTS, kept, MOST_KEPT).ok()
}

/// Says what was sent, `-` for nothing.
fn say_sent(sent: &[Octets], said: &mut Said) {
    if sent.is_empty() {
        said.word("-");
    }
    for octets in sent {
        said.octets(octets.as_slice());
        said.join(",");
    }
    said.join(" ");
}

/// Says the calls of a log, `-` for none.
fn say_calls(alloc: Global, entries: &[Entry], said: &mut Said) {
    let mut calls = Said::new(alloc);
    for entry in entries {
        if let Entry::Call {
            id,
            seq,
            procedure,
            args: _,
        } = entry
        {
            calls.number(*id);
            calls.join(":");
            calls.number(*seq as u64);
            calls.join(":");
            calls.number(*procedure as u64);
            calls.join(",");
        }
    }
    say_list(said, &calls);
}

/// Says the calls of the log of a gate's book.
fn say_left(alloc: Global, gate: AgainGate<BookGate>, said: &mut Said) {
    let (seat, _, _) = gate.into_gate().into_parts();
    say_calls(alloc, entries_in(seat.log()), said);
    drop(seat);
}

/// Serves what comes, and says what was sent, the calls of the log, how many answers were kept, and the end.
fn say_served(
    alloc: Global,
    gate: AgainGate<BookGate>,
    coming: Vec<Option<Octets>>,
    said: &mut Said,
) {
    let mut gate = gate;
    let most = coming.len() as u64;
    let mut post = MemPost::new(alloc, coming, Vec::new(alloc));
    let mut keeper = KeepAll::new(alloc);
    let mut clock = clock(alloc, present());
    let mut draw = MemDraw::new(Vec::new(alloc));
    let end = serve(
        alloc,
        &mut post,
        &mut keeper,
        &mut gate,
        &mut clock,
        &mut draw,
        WIDTH,
        most,
    );
    say_sent(post.sent(), said);
    say_left(alloc, gate, said);
    said.number(keeper.all.len() as u64);
    said.form(&end);
}

/// By the cells how many calls are kept of a context, and what comes in each wait, what a server sends, and what it has then.
pub fn answer(setting: &Setting, files: &Files, cells: &mut Cells<'_>, said: &mut Said) {
    let alloc = cells.alloc();
    let (kept, waits) = (cells.word_number(), cells.word());
    let coming = coming(files, cells, waits);
    match keeping_gate(alloc, setting, kept) {
        Some(gate) => say_served(alloc, gate, coming, said),
        None => {
            drop(coming);
            said.starve();
        }
    }
}
