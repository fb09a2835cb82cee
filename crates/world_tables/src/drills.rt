//! What a drill prints.

ghost use Rattle.std.specs.Prelude.{◌≡◌, Some, map};
ghost use Rattle.drill_plan.specs.Sessions.{blank_objects, session_count};
ghost use Rattle.drill_plan.specs.Words.{plan_of};

use drill_command::run_drill;
use drill_plan::{Plan, add_object, drill_sessions};
use mech_objects::{KerberosMech, Mech, ScramMech};
use sec_base::{MemSink, Text};
use std::alloc::{AllocError, Global};
use std::str::from_utf8;
use table_rows::{Cells, Said};
use table_setting::words_of;

/// The status at want of memory.
const OUT_OF_MEMORY: u8 = 8;

/// A sink, whose first write fails where `fails`.
fn sink(alloc: Global, fails: bool) -> MemSink {
    let mut failing = Vec::new(alloc);
    if fails {
        let _ = failing.push(1);
    }
    MemSink::new(alloc, failing)
}

/// Says the lines that were written to a sink.
fn say_lines(said: &mut Said, sink: &MemSink) {
    for line in from_utf8(sink.written()).unwrap_or("no text").lines() {
        said.word(line);
    }
}

/// The status of a drill with these objects.
fn status_by(
    alloc: Global,
    words: &[Text],
    mechs: Vec<Box<dyn Mech>>,
    out: &mut MemSink,
    err: &mut MemSink,
) -> u8
    requires { (plan : Plan) → plan_of words.now ≡ Some plan
        → map meaning mechs.items ≡ blank_objects (session_count plan.calls) }
{
    run_drill(alloc, words, mechs, out, err).status
}

/// The status of a drill, for which a blank object is made for each of its sessions.
fn status_of(
    alloc: Global,
    words: &[Text],
    out: &mut MemSink,
    err: &mut MemSink,
) -> Result<u8, AllocError> {
    let mut mechs: Vec<Box<dyn Mech>> = Vec::new(alloc);
    for number in 0..drill_sessions(words).unwrap_or(0) {
        if number % 2 == 0 {
            add_object(
                &mut mechs,
                number,
                Box::new(alloc, KerberosMech::new(alloc))?,
            )?;
        } else {
            add_object(&mut mechs, number, Box::new(alloc, ScramMech::new(alloc))?)?;
        }
    }
    Ok(status_by(alloc, words, mechs, out, err))
}

/// By the cells of its words and of the sink that fails, `out`, `err` or `-`, the status of a drill and what it prints.
pub fn answer(cells: &mut Cells<'_>, said: &mut Said) {
    let alloc = cells.alloc();
    let cell = cells.word();
    let words = words_of(cells, cell, ',');
    let failing = cells.word();
    let mut out = sink(alloc, failing == "out");
    let mut err = sink(alloc, failing == "err");
    let status = status_of(alloc, words.as_slice(), &mut out, &mut err);
    said.number(status.unwrap_or(OUT_OF_MEMORY) as u64);
    say_lines(said, &out);
    say_lines(said, &err);
}
