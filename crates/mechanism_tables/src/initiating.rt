//! An initiator's end over the objects of Kerberos and SCRAM, and the replies to it.

ghost use Rattle.std.specs.Prelude.{◌≡◌, IfSome, map, true, false};
ghost use Rattle.spnego_core.specs.InitMech.{is_own_list, is_bare_list};
ghost use Rattle.init_ends.specs.Arming.{AreStandard};
ghost use Rattle.init_ends.specs.Ends.{end_by, holds, holds_after, setup_by, step_by};
ghost use Rattle.init_ends.specs.Objects as own_objects;
ghost use Rattle.mech_objects.specs.Made.{AreMade};

use crate::accepting::{say_more, token};
use init_ends::{InitEnd, InitSetup, InitStep, standard_mechs};
use mech_objects::{MadeMechs, Mech, make_mechs};
use spnego_core::{InitFacts, Outcome};
use table_rows::{Cells, Said};
use table_setting::{Setting, saying};

/// Says that the context stands.
fn say_done(said: &mut Said, outcome: &Outcome) {
    said.word("Done");
    said.join(":");
    saying::outcome(said, outcome);
}

/// Says what a step says, and gives the end that it leaves.
fn shown(said: &mut Said, step: InitStep) -> Option<InitEnd>
    requires { holds_after (step_by step meaning) ≡ true }
    ensures { IfSome result (λ end. holds (end_by end meaning) ≡ true) }
{
    match step {
        InitStep::More(end, token) => {
            say_more(said, token.as_slice());
            Some(end)
        }
        InitStep::Done(outcome) => {
            say_done(said, &outcome);
            None
        }
    }
}

/// Says what an end says to a reply, and gives the end that it leaves.
fn taken(cells: &mut Cells<'_>, said: &mut Said, end: InitEnd, reply: &[u8]) -> Option<InitEnd>
    requires { holds (end_by end meaning) ≡ true }
    ensures { IfSome result (λ next. holds (end_by next meaning) ≡ true) }
{
    match end.step(cells.alloc(), reply) {
        Ok(step) => shown(said, step),
        Err(refusal) => {
            saying::refusal(said, refusal);
            None
        }
    }
}

/// Says `reply=verdict` for a reply to this end, and gives the end that it leaves. To an end that is spent nothing more is said.
fn stepped(
    cells: &mut Cells<'_>,
    said: &mut Said,
    end: Option<InitEnd>,
    part: &str,
) -> Option<InitEnd>
    requires { IfSome end (λ e. holds (end_by e meaning) ≡ true) }
    ensures { IfSome result (λ next. holds (end_by next meaning) ≡ true) }
{
    let reply = token(cells, part);
    match end {
        None => None,
        Some(end) => {
            said.octets(reply.as_slice());
            said.join("=");
            taken(cells, said, end, reply.as_slice())
        }
    }
}

/// Says `reply=verdict` for each reply that is left of a row behind the first token.
fn followed(cells: &mut Cells<'_>, said: &mut Said, end: InitEnd)
    requires { holds (end_by end meaning) ≡ true }
{
    let mut parts = cells.rest().unwrap_or("").split(' ');
    let _first = parts.next();
    let mut next = Some(end);
    for part in parts {
        next = stepped(cells, said, next, part);
    }
    drop(next);
}

/// Says the first token of an initiator with this setup, and `reply=verdict` for each reply that is left of a row behind the first token.
fn talk_from(cells: &mut Cells<'_>, said: &mut Said, setup: InitSetup)
    requires { own_objects.is_own_list (setup_by setup meaning).list ≡ true }
{
    match InitEnd::start(cells.alloc(), setup) {
        Err(refusal) => saying::refusal(said, refusal),
        Ok((end, first)) => {
            said.octets(first.as_slice());
            followed(cells, said, end);
        }
    }
}

/// The same by these objects, which are armed with what the facts list.
fn talk_over(cells: &mut Cells<'_>, said: &mut Said, mechs: Vec<Box<dyn Mech>>, facts: InitFacts)
    requires blank { AreStandard (map meaning mechs.items) }
    requires list { is_own_list facts.list ≡ true }
    requires bare { facts.negotiates ≡ false → is_bare_list facts.list ≡ true }
{
    match InitSetup::armed(cells.alloc(), mechs, facts) {
        Ok(setup) => talk_from(cells, said, setup),
        Err(_) => said.starve(),
    }
}

/// The same by objects of Kerberos under both its names, and of SCRAM.
fn talk_by_all(cells: &mut Cells<'_>, said: &mut Said, made: MadeMechs, facts: InitFacts)
    requires made { AreMade made }
    requires list { is_own_list facts.list ≡ true }
    requires bare { facts.negotiates ≡ false → is_bare_list facts.list ≡ true }
{
    let MadeMechs {
        kerberos,
        microsoft,
        scram,
    } = made;
    let mechs = standard_mechs(cells.alloc(), kerberos, microsoft, scram).ok();
    match mechs.zip(Some(facts)) {
        Some((mechs, facts)) => talk_over(cells, said, mechs, facts),
        None => said.starve(),
    }
}

/// Says the first token of an initiator with these facts, and `reply=verdict` for each reply that is left of a row behind the first token.
pub fn talk(cells: &mut Cells<'_>, said: &mut Said, facts: InitFacts)
    requires list { is_own_list facts.list ≡ true }
    requires bare { facts.negotiates ≡ false → is_bare_list facts.list ≡ true }
{
    match make_mechs(cells.alloc()).zip(Some(facts)) {
        Some((made, facts)) => talk_by_all(cells, said, made, facts),
        None => said.starve(),
    }
}

/// What the setting's initiator says at first and to each reply of a row, which begins with the letters of the list.
pub fn answer(setting: &Setting, cells: &mut Cells<'_>, said: &mut Said) {
    let letters = cells.word();
    match setting.initiator(cells.alloc(), letters) {
        Some(facts) => talk(cells, said, facts),
        None => cells.expect(false),
    }
}

/// The first token, by the cells letters of the list and random octets.
pub fn first(setting: &Setting, cells: &mut Cells<'_>, said: &mut Said) {
    let letters = cells.word();
    let draws = cells.exactly();
    match setting.initiator_with(cells.alloc(), letters, draws) {
        Some(facts) => talk(cells, said, facts),
        None => cells.expect(false),
    }
}
