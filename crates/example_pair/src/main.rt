//! Two ends that negotiate a security context, token by token: an initiator that knows a password, and an acceptor with a verifier of it.
//!
//! The tokens are those of SPNEGO (RFC 4178 section 4.2), and each carries a message of SCRAM-SHA-1 (RFC 5802 section 7). The initiator's
//! mechanisms are objects behind one trait, `Mech`, which are handed in: Kerberos and SCRAM here, or yours. A step takes its end
//! by value and gives the next state, so that no end can be asked twice. A step that is refused, or finds no memory, ends the program with status 1.
//! An end that waits while the other takes a step is zipped to what that step gives: both go on, or neither does.
#![tactic(auto)]

mod outcomes;
mod setups;

ghost use Rattle.std.specs.Prelude.{◌≡◌, IfSome, map, true};
ghost use Rattle.init_ends.specs.Arming.{AreStandard};
ghost use Rattle.init_ends.specs.Ends.{end_by, end_means, holds, holds_after, step_by};

use init_ends::{InitEnd, InitSetup, InitStep, standard_mechs};
use mech_objects::{MadeMechs, Mech, make_mechs};
use sec_base::{Moment, Octets};
use setups::{DRAWS, acceptor, initiator};
use spnego_core::{AcceptEnd, AcceptSetup, AcceptStep, Outcome};
use std::alloc::Global;
use std::process::ExitCode;

/// Random octets of the acceptor's steps. A program draws them anew for each step; these stand here, so that each run prints the same.
const ANSWER_DRAWS: [u8; DRAWS] = [2; DRAWS];

const FINISH_DRAWS: [u8; DRAWS] = [3; DRAWS];

/// Says who sends a message, and of how many octets the token is that carries it. A line that can't be printed is left out.
fn say(rt: &impl Print, message: &str, token: &Octets) {
    let count = token.as_slice().len();
    let _ = println!(rt; "{message}, in a token of {count} octets");
}

/// The initiator's first token, a NegTokenInit, lists its mechanisms, here SCRAM alone, and carries a message of the first of them. The
/// objects that have a credential are armed with it; the others are dropped.
fn open(alloc: Global, mechs: Vec<Box<dyn Mech>>) -> Option<(InitEnd, Octets)>
    requires { AreStandard (map meaning mechs.items) }
    ensures { IfSome result (λ opened. holds (end_means meaning opened.0) ≡ true) }
{
    match InitSetup::armed(alloc, mechs, initiator(alloc)?) {
        Ok(setup) => InitEnd::start(alloc, setup).ok(),
        Err(_) => None,
    }
}

/// A step of the acceptor, which takes a token of the initiator. None where the token is refused.
fn accept(
    alloc: Global,
    host: &AcceptSetup,
    end: AcceptEnd,
    token: Octets,
    draws: &[u8; DRAWS],
) -> Option<AcceptStep> {
    end.step(alloc, host, token.as_slice(), Moment::start(), draws)
        .ok()
}

/// A step of the initiator, which takes a token of the acceptor. None where the token is refused.
fn initiate(alloc: Global, end: InitEnd, token: Octets) -> Option<InitStep>
    requires { holds (end_by end meaning) ≡ true }
    ensures { IfSome result (λ step. holds_after (step_by step meaning) ≡ true) }
{
    end.step(alloc, token.as_slice()).ok()
}

/// The acceptor chooses a mechanism that both have. Its reply is a NegTokenResp, as all further tokens are.
fn answer(alloc: Global, host: &AcceptSetup, token: Octets) -> Option<(AcceptEnd, Octets)> {
    match accept(alloc, host, AcceptEnd::new(), token, &ANSWER_DRAWS)? {
        AcceptStep::More(end, reply) => Some((end, reply)),
        step => {
            drop(step);
            None
        }
    }
}

/// The initiator proves that it knows the password.
fn proceed(alloc: Global, end: InitEnd, token: Octets) -> Option<(InitEnd, Octets)>
    requires { holds (end_by end meaning) ≡ true }
    ensures { IfSome result (λ further. holds (end_by further.0 meaning) ≡ true) }
{
    match initiate(alloc, end, token)? {
        InitStep::More(end, reply) => Some((end, reply)),
        InitStep::Done(_) => None,
    }
}

/// The acceptor checks the proof, by which its context stands, and signs that it knows the verifier.
fn finish(
    alloc: Global,
    host: &AcceptSetup,
    end: AcceptEnd,
    token: Octets,
) -> Option<(Outcome, Octets)> {
    match accept(alloc, host, end, token, &FINISH_DRAWS)? {
        AcceptStep::Done(outcome, _ends, reply) => Some((outcome, reply)),
        step => {
            drop(step);
            None
        }
    }
}

/// The initiator checks the signature, by which its context stands too.
fn conclude(alloc: Global, end: InitEnd, token: Octets) -> Option<Outcome>
    requires { holds (end_by end meaning) ≡ true }
{
    let step = initiate(alloc, end, token)?;
    let outcome = match &step {
        InitStep::Done(outcome) => Some(*outcome),
        InitStep::More(_, _) => None,
    };
    drop(step);
    outcome
}

/// The second half of the negotiation, by which both ends have an outcome.
fn confirm(
    rt: &impl Print,
    alloc: Global,
    host: &AcceptSetup,
    initiator: InitEnd,
    acceptor: AcceptEnd,
    token: Octets,
) -> Option<(Outcome, Outcome)>
    requires { holds (end_by initiator meaning) ≡ true }
{
    let ((initiator, token), acceptor) = proceed(alloc, initiator, token).zip(Some(acceptor))?;
    say(rt, "initiator: client-final-message", &token);
    let ((accepted, token), initiator) = finish(alloc, host, acceptor, token).zip(Some(initiator))?;
    say(rt, "acceptor: server-final-message", &token);
    let initiated = conclude(alloc, initiator, token)?;
    Some((initiated, accepted))
}

/// The negotiation, from the first token on.
fn negotiate(
    rt: &impl Print,
    alloc: Global,
    host: &AcceptSetup,
    mechs: Vec<Box<dyn Mech>>,
) -> Option<(Outcome, Outcome)>
    requires { AreStandard (map meaning mechs.items) }
{
    let (initiator, token) = open(alloc, mechs)?;
    say(rt, "initiator: client-first-message", &token);
    let ((acceptor, token), initiator) = answer(alloc, host, token).zip(Some(initiator))?;
    say(rt, "acceptor: server-first-message", &token);
    confirm(rt, alloc, host, initiator, acceptor, token)
}

/// Both ends from their setups on. The initiator is handed an object under each name that it may be asked for, as the boxed values of one
/// trait: it steps them, and knows no more of them than the trait says.
fn run(rt: &impl Print, alloc: Global) -> Option<()> {
    let MadeMechs {
        kerberos,
        microsoft,
        scram,
    } = make_mechs(alloc)?;
    let mechs = standard_mechs(alloc, kerberos, microsoft, scram).ok()?;
    let host = acceptor(alloc)?;
    let outcomes = negotiate(rt, alloc, &host, mechs);
    drop(host);
    let (initiated, accepted) = outcomes?;
    outcomes::report(rt, &initiated, &accepted).ok()
}

fn main(rt: HostRuntime) -> ExitCode {
    match run(&rt, rt.alloc()) {
        Some(()) => ExitCode::SUCCESS,
        None => ExitCode::FAILURE,
    }
}
