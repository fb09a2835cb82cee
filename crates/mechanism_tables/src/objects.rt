//! Objects of mechanisms, each behind a box, and the tokens that come to them.

ghost use Rattle.std.specs.Prelude.{◌≡◌, true};
ghost use Rattle.gss_base.specs.declared.mech.MechKind.TheVariants.{Scram};
ghost use Rattle.spnego_core.specs.InitMech.{kind_of};
ghost use Rattle.mech_objects.specs.declared.ask.Stage.TheVariants.{Fresh, Waiting};

use crate::kerberos::bindings_in;
use crate::scram_exchanges::left;
use mech_examples::SharedKeyMech;
use mech_objects::{Mech, MechAsk, MechMove, ScramMech};
use sec_base::{Moment, Text};
use spnego_core::MechCred;
use std::alloc::Global;
use table_rows::{Cells, Said};
use table_setting::saying;

/// What an object begins with, and the two tokens that come to it.
#[derive(Drop)]
struct Talk {
    ask: MechAsk,
    second: Vec<u8>,
    last: Vec<u8>,
}

/// The cells random octets, bindings, and the two tokens.
fn talk_in(cells: &mut Cells<'_>) -> Talk {
    Talk {
        ask: MechAsk {
            stamp: Moment::start(),
            draws: cells.exactly(),
            bindings: bindings_in(cells),
        },
        second: cells.octets(),
        last: cells.octets(),
    }
}

/// Says what an object answers to a token, and whether it goes on.
fn goes_on(alloc: Global, said: &mut Said, object: &mut Box<dyn Mech>, token: &[u8]) -> bool
    requires { (meaning object.old).stage ≡ Waiting }
    ensures { result ≡ true → (meaning object.new).stage ≡ Waiting }
{
    match object.take(alloc, token) {
        Ok(MechMove::Token(token)) => {
            said.octets(token.as_slice());
            true
        }
        Ok(MechMove::Done(done)) => {
            left(said, &done);
            false
        }
        Err(refusal) => {
            saying::refusal(said, refusal);
            false
        }
    }
}

/// Says an object's tokens, and what it is left with or the refusal.
fn stepped(alloc: Global, said: &mut Said, object: Box<dyn Mech>, talk: &Talk)
    requires { (meaning object).stage ≡ Fresh }
{
    let mut object = object;
    match object.start(alloc, &talk.ask) {
        Err(refusal) => saying::refusal(said, refusal),
        Ok(first) => {
            said.octets(first.as_slice());
            if goes_on(alloc, said, &mut object, talk.second.as_slice()) {
                let _ends = goes_on(alloc, said, &mut object, talk.last.as_slice());
            }
        }
    }
}

/// The same by an object of a shared key that has this credential.
fn by_shared_key(alloc: Global, said: &mut Said, talk: &Talk, cred: MechCred)
    requires { kind_of cred ≡ Scram }
{
    let mut mech = SharedKeyMech::new(alloc);
    mech.arm(cred);
    match Box::new(alloc, mech) {
        Ok(object) => stepped(alloc, said, object, talk),
        Err(_) => said.starve(),
    }
}

/// The same by an object of SCRAM that has this credential.
fn by_scram(alloc: Global, said: &mut Said, talk: &Talk, cred: MechCred)
    requires { kind_of cred ≡ Scram }
{
    let mut mech = ScramMech::new(alloc);
    mech.arm(cred);
    match Box::new(alloc, mech) {
        Ok(object) => stepped(alloc, said, object, talk),
        Err(_) => said.starve(),
    }
}

/// The cells user and password, as a credential.
fn login_in(cells: &mut Cells<'_>) -> MechCred
    ensures { kind_of result ≡ Scram }
{
    let user = Text::from_string(cells.text());
    let password = Text::from_string(cells.text());
    MechCred::Scram { user, password }
}

/// The tokens of the object that a row names, and what it is left with or the refusal.
pub fn answer(cells: &mut Cells<'_>, said: &mut Said) {
    let shared = cells.word() == "shared";
    let cred = login_in(cells);
    let talk = talk_in(cells);
    if shared {
        by_shared_key(cells.alloc(), said, &talk, cred);
    } else {
        by_scram(cells.alloc(), said, &talk, cred);
    }
    drop(talk);
}
