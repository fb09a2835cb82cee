//! A whole session of a client over a link whose calls may fail, and the creation of one.

ghost use Rattle.std.specs.Prelude.{◌≡◌, ◌≤◌, true, map};
ghost use Rattle.init_ends.specs.Arming.{AreStandard};
ghost use Rattle.init_ends.specs.Objects.{is_own_list};
ghost use Rattle.gss_client.specs.Start.{start_means};

use crate::endings::say_ended;
use crate::sessions::{begin, talk};
use gss_client::{Parting, Session, Start, Talk};
use mech_objects::Mech;
use posts_client::Procedure;
use rpc_msgs::opaque_alone;
use sec_base::{MemDraw, MemLink};
use std::alloc::Global;
use table_rows::{Cells, Said};
use table_setting::{Files, Setting, numbers, saying};

/// The procedure of the next cell's number.
fn procedure(cells: &mut Cells<'_>) -> Procedure {
    match cells.word() {
        "0" => Procedure::Null,
        "1" => Procedure::Echo,
        "2" => Procedure::Whoami,
        "3" => Procedure::Post,
        "4" => Procedure::Count,
        _ => {
            cells.expect(false);
            Procedure::Null
        }
    }
}

/// Says how a session ended.
fn say_parted(said: &mut Said, parting: Parting) {
    match parting {
        Parting::Refused(refusal) => say_ended(said, refusal),
        parting => said.form(&parting),
    }
}

/// Says the outcome of a session, its results and its end.
fn say_talk(said: &mut Said, talk: &Talk) {
    match &talk.outcome {
        Some(outcome) => saying::outcome(said, outcome),
        None => said.word("-"),
    }
    for result in talk.results.as_slice() {
        said.join(",");
        said.octets(result.as_slice());
    }
    said.join(",");
    say_parted(said, talk.parting);
}

/// A link with the cells of the calls that fail and of its stream.
fn link_of(files: &Files, cells: &mut Cells<'_>) -> MemLink {
    let alloc = cells.alloc();
    let failing = numbers(cells);
    let input = files.octets(cells);
    MemLink::new(alloc, input, Vec::new(alloc), failing)
}

/// What is called, and how often.
#[derive(Drop)]
struct Calls {
    procedure: Procedure,
    args: Vec<u8>,
    times: u32,
}

/// The cells of procedure, arguments and times.
fn calls_of(files: &Files, cells: &mut Cells<'_>) -> Calls {
    Calls {
        procedure: procedure(cells),
        args: files.octets(cells),
        times: cells.word_number(),
    }
}

/// Says what a whole session comes to.
fn hold(alloc: Global, link: &mut MemLink, start: Start, calls: &Calls, said: &mut Said)
    requires list { is_own_list (start_means start meaning).setup.list ≡ true }
    requires first { 1 ≤ start.first }
    requires last { start.first ≤ 0x7fffffff }
{
    let (procedure, times) = (calls.procedure, calls.times);
    let args = calls.args.as_slice();
    if link.is_closed() || args.len() > 65_540 {
        return said.starve();
    }
    let mut draw = MemDraw::new(Vec::new(alloc));
    let talk = Session::hold(alloc, link, &mut draw, start, &procedure, args, times);
    say_talk(said, &talk);
}

/// By the cells list, service, first number, procedure, arguments, times, failing calls and stream, what a whole session comes to.
pub fn hold_all(
    setting: &Setting,
    files: &Files,
    mechs: Vec<Box<dyn Mech>>,
    cells: &mut Cells<'_>,
    said: &mut Said,
)
    requires { AreStandard (map meaning mechs.items) }
{
    let start = begin(setting, mechs, cells);
    let calls = calls_of(files, cells);
    let mut link = link_of(files, cells);
    match start {
        Some(start) => hold(cells.alloc(), &mut link, start, &calls, said),
        None => cells.expect(false),
    }
}

/// By the cells list, service, first number, failing calls and stream, what a creation comes to.
pub fn create(
    setting: &Setting,
    files: &Files,
    mechs: Vec<Box<dyn Mech>>,
    cells: &mut Cells<'_>,
    said: &mut Said,
)
    requires { AreStandard (map meaning mechs.items) }
{
    let start = begin(setting, mechs, cells);
    let mut link = link_of(files, cells);
    match start {
        Some(start) => talk(cells.alloc(), &mut link, start, "d", said),
        None => cells.expect(false),
    }
}

/// By the cells limit and body, the octets of a body of at most so many, or why there are none.
pub fn open_body(files: &Files, cells: &mut Cells<'_>, said: &mut Said) {
    let limit = cells.word_number();
    let body = files.octets(cells);
    match opaque_alone(limit, body.as_slice()) {
        Ok(octets) => said.octets(octets),
        Err(refusal) => {
            said.form(&refusal.why);
            said.join(":");
            said.number(refusal.at as u64);
        }
    }
}
