//! A session of a client over a stream of replies.

ghost use Rattle.std.specs.Prelude.{◌≡◌, ◌≤◌, IfSome, true, map};
ghost use Rattle.init_ends.specs.Arming.{AreStandard};
ghost use Rattle.init_ends.specs.Ends.{setup_means};
ghost use Rattle.init_ends.specs.Objects.{is_own_list};
ghost use Rattle.gss_client.specs.Start.{start_means};

use crate::endings::say_ended;
use gss_client::{Service, Session, Start, Terms};
use init_ends::InitSetup;
use mech_objects::Mech;
use posts_program::numbers::{PROGRAM, VERSION};
use sec_base::MemLink;
use std::alloc::Global;
use table_rows::{Cells, Said};
use table_setting::{Setting, link, say_list, saying};

/// The service of the next cell's number.
fn service(cells: &mut Cells<'_>) -> Service {
    match cells.word() {
        "1" => Service::None,
        "2" => Service::Integrity,
        "3" => Service::Privacy,
        _ => {
            cells.expect(false);
            Service::None
        }
    }
}

/// The terms of calls to the program that is served.
pub fn terms_by(service: Service) -> Terms {
    Terms {
        service,
        program: PROGRAM,
        version: VERSION,
    }
}

/// What a session is begun with, by the cells of list, service and first number.
pub fn begin(setting: &Setting, mechs: Vec<Box<dyn Mech>>, cells: &mut Cells<'_>) -> Option<Start>
    requires { AreStandard (map meaning mechs.items) }
    ensures list { IfSome result (λ start. is_own_list (setup_means meaning start.setup).list
        ≡ true) }
    ensures first { IfSome result (λ start. 1 ≤ start.first) }
    ensures last { IfSome result (λ start. start.first ≤ 0x7fffffff) }
{
    let letters = cells.word();
    let service = service(cells);
    let first = cells.word_number();
    if first == 0 || first > 0x7fff_ffff {
        return None;
    }
    let alloc = cells.alloc();
    let facts = setting.initiator(alloc, letters)?;
    match InitSetup::armed(alloc, mechs, facts) {
        Ok(setup) => Some(Start {
            setup,
            terms: terms_by(service),
            first,
        }),
        Err(_) => None,
    }
}

/// The random octets of the call behind so many others: those behind the 66 of the first token, 16 a call.
fn confounder(before: u8) -> [u8; 16] {
    let mut octets = [0; 16];
    for number in 0..16u8 {
        octets[number as usize] = before
            .wrapping_mul(16)
            .wrapping_add(66)
            .wrapping_add(number);
    }
    octets
}

/// Says what the context's end answers.
fn destroy(alloc: Global, link: &mut MemLink, session: Session, said: &mut Said) {
    if link.is_closed() {
        return said.starve();
    }
    match session.destroy(alloc, link) {
        Ok(()) => said.word("Destroyed"),
        Err(refusal) => say_ended(said, refusal),
    }
}

/// Says what a call behind so many others answers; the session behind it.
fn call(
    alloc: Global,
    link: &mut MemLink,
    session: Session,
    procedure: u32,
    args: &[u8],
    before: u8,
    said: &mut Said,
) -> Option<Session> {
    if link.is_closed() || session.next_number() > 0x7fff_ffff || args.len() > 65_540 {
        said.starve();
        return None;
    }
    match session.call(alloc, link, procedure, args, &confounder(before)) {
        Ok((session, result)) => {
            said.octets(result.as_slice());
            Some(session)
        }
        Err(refusal) => {
            say_ended(said, refusal);
            None
        }
    }
}

/// Says what a step answers, `d` for the context's end or else a call `procedure:arguments`; the session behind it.
fn step(
    alloc: Global,
    link: &mut MemLink,
    session: Session,
    part: &str,
    before: u8,
    said: &mut Said,
) -> Option<Session> {
    said.join(",");
    if part == "d" {
        destroy(alloc, link, session, said);
        return None;
    }
    let mut parts = Cells::new(alloc, part, ':');
    let procedure = parts.word_number();
    let args = parts.octets();
    if !parts.are_well() {
        said.starve();
    }
    call(
        alloc,
        link,
        session,
        procedure,
        args.as_slice(),
        before,
        said,
    )
}

/// Says what a step answers, if a session is still open; the session behind it.
fn step_open(
    alloc: Global,
    link: &mut MemLink,
    open: Option<Session>,
    part: &str,
    before: u8,
    said: &mut Said,
) -> Option<Session> {
    match open {
        Some(session) => step(alloc, link, session, part, before, said),
        None => None,
    }
}

/// Says what the steps of a session answer, and whether it is open behind them.
fn follow(alloc: Global, link: &mut MemLink, session: Session, calls: &str, said: &mut Said) {
    let mut open = Some(session);
    let mut before = 0u8;
    for part in calls.split(',') {
        open = step_open(alloc, link, open, part, before, said);
        before = before.saturating_add(1);
    }
    if open.is_some() {
        said.join(",");
        said.word("Open");
    }
}

/// Says the outcome of a session, what its calls answer and its end.
pub fn talk(alloc: Global, link: &mut MemLink, start: Start, calls: &str, said: &mut Said)
    requires list { is_own_list (start_means start meaning).setup.list ≡ true }
    requires first { 1 ≤ start.first }
    requires last { start.first ≤ 0x7fffffff }
{
    if link.is_closed() {
        return said.starve();
    }
    match Session::create(alloc, link, start) {
        Err(refusal) => say_ended(said, refusal),
        Ok(session) => {
            saying::outcome(said, session.outcome());
            follow(alloc, link, session, calls, said);
        }
    }
}

/// By the cells list, service, first number, calls and stream, what a session writes; then its outcome, results and end.
pub fn answer(setting: &Setting, mechs: Vec<Box<dyn Mech>>, cells: &mut Cells<'_>, said: &mut Said)
    requires { AreStandard (map meaning mechs.items) }
{
    let alloc = cells.alloc();
    let start = begin(setting, mechs, cells);
    let (calls, stream) = (cells.word(), cells.word());
    let mut link = link(cells, stream);
    let mut talked = Said::new(alloc);
    match start {
        Some(start) => talk(alloc, &mut link, start, calls, &mut talked),
        None => cells.expect(false),
    }
    said.octets(link.written());
    say_list(said, &talked);
}
