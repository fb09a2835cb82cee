//! Whole connections over one book.

ghost use Rattle.std.specs.Prelude.{◌≤◌, ◌<◌, IfSome};

use crate::entries;
use crate::records::{MOST, next};
use crate::served::{BookGate, gate_of};
use accept_book::{Keeping, Limits, OwnSeat};
use gss_server::{Answered, Gate, KeepNothing, answer_record, serve_link};
use sec_base::{Clock, Draw, MemClock, MemDraw, Moment};
use std::alloc::Global;
use table_rows::{Cells, Said};
use table_setting::{Setting, link, present, say_list};

/// The limits of a cell `contexts:marks:log:width`; None where one is past what a book takes.
pub fn limits_of(alloc: Global, cell: &str) -> Option<Limits>
    ensures contexts { IfSome result (λ limits. limits.contexts ≤ 65536) }
    ensures some_mark { IfSome result (λ limits. 0 < limits.marks) }
    ensures marks { IfSome result (λ limits. limits.marks ≤ 1000000) }
    ensures entries { IfSome result (λ limits. limits.log ≤ 4000000) }
    ensures some_width { IfSome result (λ limits. 0 < limits.width) }
    ensures width { IfSome result (λ limits. limits.width ≤ 1024) }
{
    let mut parts = Cells::new(alloc, cell, ':');
    let contexts = parts.word_number() as usize;
    let marks = parts.word_number() as usize;
    let log = parts.word_number() as usize;
    let width = parts.word_number();
    if contexts > 65_536 || marks == 0 || marks > 1_000_000 {
        return None;
    }
    if log > 4_000_000 || width == 0 || width > 1024 {
        return None;
    }
    Some(Limits {
        contexts,
        marks,
        log,
        width,
        keeping: Keeping {
            entries: true,
            digest: false,
        },
    })
}

/// A book of this offer's letters, under these limits and from this moment on.
pub fn book_of(
    alloc: Global,
    setting: &Setting,
    letters: &str,
    limits: &str,
    start: Moment,
) -> Option<OwnSeat> {
    let limits = limits_of(alloc, limits)?;
    let setup = setting.acceptor(alloc, letters)?;
    OwnSeat::open(alloc, setup, limits, start).ok()
}

/// What a gate's records are answered by beside it: a clock, random octets that count, and the width of the windows.
#[derive(Drop)]
pub struct Desk {
    clock: MemClock,
    draw: MemDraw,
    width: u32,
}

/// A clock that gives the moments of a cell, between which a comma stands.
fn clock_of(cells: &mut Cells<'_>, nows: &str) -> MemClock {
    let alloc = cells.alloc();
    let mut moments = Vec::new(alloc);
    for part in nows.split(',') {
        let mut parts = Cells::new(alloc, part, ' ');
        let is_well = moments.push(parts.moment()).is_ok();
        cells.expect(is_well && parts.are_well());
    }
    MemClock::new(moments)
}

/// The width of the windows under the limits of a cell.
fn width_of(alloc: Global, limits: &str) -> u32 {
    match limits_of(alloc, limits) {
        Some(limits) => limits.width,
        None => 0,
    }
}

/// A desk before its first connection, by the cells of limits and moments.
pub fn desk_of(cells: &mut Cells<'_>, limits: &str, nows: &str) -> Desk {
    let alloc = cells.alloc();
    Desk {
        clock: clock_of(cells, nows),
        draw: MemDraw::new(Vec::new(alloc)),
        width: width_of(alloc, limits),
    }
}

/// The answer to a record by this gate, at the desk's next moment.
pub fn answered<G: Gate>(alloc: Global, gate: &mut G, desk: &mut Desk, record: &[u8]) -> Answered {
    let now = desk.clock.now();
    let mut draws = [0; 82];
    desk.draw.fill(&mut draws);
    answer_record(alloc, gate, record, now, &draws, desk.width)
}

/// Says the numbers of the rules by which the records of a connection are answered by this gate, in order.
pub fn rule<G: Gate>(
    cells: &mut Cells<'_>,
    gate: &mut G,
    desk: &mut Desk,
    input: &str,
    said: &mut Said,
) {
    let alloc = cells.alloc();
    let mut link = link(cells, input);
    let mut rules = Said::new(alloc);
    for _ in 0..MOST {
        match next(alloc, &mut link) {
            Some(Ok(Some(record))) => {
                let answered = answered(alloc, gate, desk, record.as_slice());
                rules.number(answered.rule as u64);
                rules.join(",");
            }
            _ => break,
        }
    }
    say_list(said, &rules);
    said.join("/");
}

/// Says what is written on a connection that this gate serves, and its end apart.
pub fn serve<G: Gate>(
    cells: &mut Cells<'_>,
    gate: &mut G,
    desk: &mut Desk,
    input: &str,
    said: &mut Said,
    ends: &mut Said,
) {
    let alloc = cells.alloc();
    let link = link(cells, input);
    let Desk { clock, draw, width } = desk;
    let served = serve_link(alloc, link, &mut KeepNothing, gate, clock, draw, *width);
    said.octets(served.link.written());
    said.join("/");
    ends.form(&served.end);
    ends.join("/");
}

/// Says what is written on the connections of a line, and their ends.
fn serve_all(
    cells: &mut Cells<'_>,
    gate: &mut BookGate,
    desk: &mut Desk,
    inputs: &str,
    said: &mut Said,
) {
    let mut ends = Said::new(cells.alloc());
    for input in inputs.split('/') {
        serve(cells, gate, desk, input, said, &mut ends);
    }
    said.join(" ");
    say_list(said, &ends);
}

/// Says the rules of the connections of a line, over a book of their own.
fn rule_apart(
    setting: &Setting,
    cells: &mut Cells<'_>,
    limits: &str,
    nows: &str,
    inputs: &str,
    said: &mut Said,
) {
    let Some(book) = book_of(cells.alloc(), setting, "ks", limits, present()) else {
        return said.starve();
    };
    let mut gate = gate_of(book);
    let mut desk = desk_of(cells, limits, nows);
    for input in inputs.split('/') {
        rule(cells, &mut gate, &mut desk, input, said);
    }
    said.join(" ");
}

/// By the cells limits, moments and streams, what is written on the connections and their ends, the rules, and the log.
pub fn answer(setting: &Setting, cells: &mut Cells<'_>, said: &mut Said) {
    let (limits, nows, inputs) = (cells.word(), cells.word(), cells.word());
    let alloc = cells.alloc();
    let Some(book) = book_of(alloc, setting, "ks", limits, present()) else {
        return cells.expect(false);
    };
    let mut gate = gate_of(book);
    let mut desk = desk_of(cells, limits, nows);
    serve_all(cells, &mut gate, &mut desk, inputs, said);
    rule_apart(setting, cells, limits, nows, inputs, said);
    entries::logged(alloc, said, entries::entries_in(gate.seat.log()), " ");
}
