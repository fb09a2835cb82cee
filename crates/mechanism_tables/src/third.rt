//! A third object, of a mechanism that is no standard's, first in an initiator's list: the acceptor doesn't know it and chooses another, whose
//! object then begins.

ghost use Rattle.std.specs.Prelude.{◌≡◌, ◌≤◌, ◌∷◌, [], IfSome, map, true, vec_capacity};
ghost use Rattle.gss_base.specs.declared.mech.KerberosName.TheVariants.{Standard};
ghost use Rattle.gss_base.specs.declared.mech.MechKind.TheVariants as kinds;
ghost use Rattle.gss_base.specs.declared.mech.MechName.TheVariants as names;
ghost use Rattle.spnego_core.specs.InitMech.{kind_of};
ghost use Rattle.mech_objects.specs.Standard.{blank_of};
ghost use Rattle.mech_objects.specs.Meaning.{armed, blank};
ghost use Rattle.mech_examples.specs.SharedKey.{example_oid, shared_key};
ghost use Rattle.init_ends.specs.Ends.{end_by, holds};
ghost use Rattle.init_ends.specs.Objects.{is_own_list};

use gss_base::KerberosName;
use init_ends::{InitEnd, InitSetup, InitStep, armed_with};
use mech_examples::SharedKeyMech;
use mech_objects::{KerberosMech, Mech, MechAsk};
use sec_base::{Moment, Octets, Text};
use spnego_core::{AcceptEnd, AcceptSetup, AcceptStep, MechCred};
use std::alloc::Global;
use table_rows::{Cells, Said};
use table_setting::{Setting, draws, own_draws, saying};

/// Both ends go on, and this is the initiator's next token.
type Further = (InitEnd, AcceptEnd, Octets);

/// The step of an acceptor that was asked whether the request was taken before, and goes on.
fn gone_on(step: AcceptStep) -> AcceptStep {
    match step {
        AcceptStep::WantsAuth(pause) => pause.go_on(),
        step => step,
    }
}

/// The initiator takes the acceptor's reply; where its context stands, its outcome is said.
fn replied(
    cells: &mut Cells<'_>,
    said: &mut Said,
    end: InitEnd,
    reply: &[u8],
) -> Option<(InitEnd, Octets)>
    requires { holds (end_by end meaning) ≡ true }
    ensures { IfSome result (λ further. holds (end_by further.0 meaning) ≡ true) }
{
    match end.step(cells.alloc(), reply) {
        Ok(InitStep::More(end, token)) => Some((end, token)),
        Ok(InitStep::Done(outcome)) => {
            saying::outcome(said, &outcome);
            None
        }
        Err(refusal) => {
            saying::refusal(said, refusal);
            None
        }
    }
}

/// The acceptor takes the initiator's token, and the initiator its reply; what an end comes to is said once it goes on no further.
fn round(
    cells: &mut Cells<'_>,
    said: &mut Said,
    host: &AcceptSetup,
    ends: Further,
) -> Option<Further>
    requires { holds (end_by ends.0 meaning) ≡ true }
    ensures { IfSome result (λ further. holds (end_by further.0 meaning) ≡ true) }
{
    let (initiator, acceptor, token) = ends;
    let now = Moment::new(1_000_000, 0).unwrap_or(Moment::start());
    let step = acceptor.step(cells.alloc(), host, token.as_slice(), now, &draws());
    match step {
        Err(refusal) => {
            saying::refusal(said, refusal);
            drop(initiator);
            None
        }
        Ok(step) => match gone_on(step) {
            AcceptStep::More(acceptor, reply) => {
                let further = replied(cells, said, initiator, reply.as_slice());
                let ((initiator, token), acceptor) = further.zip(Some(acceptor))?;
                Some((initiator, acceptor, token))
            }
            AcceptStep::Done(outcome, _ends, reply) => {
                saying::outcome(said, &outcome);
                drop(replied(cells, said, initiator, reply.as_slice()));
                None
            }
            AcceptStep::WantsAuth(pause) => {
                drop((pause, initiator));
                None
            }
        },
    }
}

/// The exchange from the initiator's first token on: three rounds lead both ends to their contexts.
fn exchange(cells: &mut Cells<'_>, said: &mut Said, host: &AcceptSetup, ends: Further)
    requires { holds (end_by ends.0 meaning) ≡ true }
{
    if let Some(second) = round(cells, said, host, ends) {
        if let Some(third) = round(cells, said, host, second) {
            drop(round(cells, said, host, third));
        }
    }
}

/// A list of the object of the shared key and then that of Kerberos, each with its credential. `room` has room for both.
fn list_of(
    room: Vec<Box<dyn Mech>>,
    objects: (Box<dyn Mech>, Box<dyn Mech>),
    creds: (MechCred, MechCred),
) -> Vec<Box<dyn Mech>>
    requires none { room.items ≡ [] }
    requires room { 2 ≤ vec_capacity room }
    requires shared { meaning objects.0 ≡ blank kinds.Scram example_oid shared_key }
    requires kerberos { meaning objects.1 ≡ blank_of (names.Kerberos Standard) }
    requires login { kind_of creds.0 ≡ kinds.Scram }
    requires ticket { kind_of creds.1 ≡ kinds.Kerberos }
    ensures { map meaning result.items
        ≡ armed (blank kinds.Scram example_oid shared_key) creds.0
        ∷ armed (blank_of (names.Kerberos Standard)) creds.1 ∷ [] }
{
    let mut list = room;
    list.push_reserved(armed_with(objects.0, creds.0));
    list.push_reserved(armed_with(objects.1, creds.1));
    list
}

/// Says what both ends come to, where the initiator's list is the object of the shared key and then that of Kerberos.
fn talk_over(cells: &mut Cells<'_>, said: &mut Said, host: &AcceptSetup, list: Vec<Box<dyn Mech>>)
    requires { is_own_list (map meaning list.items) ≡ true }
{
    let ask = MechAsk {
        stamp: Moment::new(1_000_000, 0).unwrap_or(Moment::start()),
        draws: own_draws(),
        bindings: None,
    };
    match InitEnd::start(cells.alloc(), InitSetup::Negotiating(list, ask)) {
        Err(refusal) => saying::refusal(said, refusal),
        Ok((end, token)) => exchange(cells, said, host, (end, AcceptEnd::new(), token)),
    }
}

/// The same with the objects made, ahead of the credentials that they get.
fn talk(cells: &mut Cells<'_>, said: &mut Said, host: &AcceptSetup, creds: (MechCred, MechCred))
    requires login { kind_of creds.0 ≡ kinds.Scram }
    requires ticket { kind_of creds.1 ≡ kinds.Kerberos }
{
    let alloc = cells.alloc();
    let shared = Box::new(alloc, SharedKeyMech::new(alloc)).ok();
    let kerberos = Box::new(alloc, KerberosMech::new(alloc)).ok();
    let room = Vec::with_capacity(alloc, 2).ok();
    match shared.zip(kerberos).zip(room).zip(Some(creds)) {
        Some((((shared, kerberos), room), creds)) => {
            let list = list_of(room, (shared, kerberos), creds);
            talk_over(cells, said, host, list);
        }
        None => said.starve(),
    }
}

/// The user's name and the shared key, and the ticket of `alice@R`.
fn creds(setting: &Setting, alloc: Global) -> Option<(MechCred, MechCred)>
    ensures login { IfSome result (λ creds. kind_of creds.0 ≡ kinds.Scram) }
    ensures ticket { IfSome result (λ creds. kind_of creds.1 ≡ kinds.Kerberos) }
{
    let user = Text::of(alloc, "user").ok();
    let (user, password) = user.zip(Text::of(alloc, "p").ok())?;
    let login = MechCred::Scram { user, password };
    let (ticket, login) = setting.credential(alloc).zip(Some(login))?;
    let ticket = MechCred::Kerberos {
        name: KerberosName::Standard,
        credential: ticket,
    };
    Some((login, ticket))
}

/// What both ends come to, by the cell letters of the offer: the acceptor's outcome and the initiator's, or a refusal.
pub fn answer(setting: &Setting, cells: &mut Cells<'_>, said: &mut Said) {
    let letters = cells.word();
    let alloc = cells.alloc();
    match setting.acceptor(alloc, letters).zip(creds(setting, alloc)) {
        Some((host, creds)) => {
            talk(cells, said, &host, creds);
            drop(host);
        }
        None => cells.expect(false),
    }
}
