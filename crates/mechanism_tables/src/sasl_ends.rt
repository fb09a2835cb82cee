//! Steps of both ends of SASL GSSAPI, whose refusals are said.

ghost use Rattle.std.specs.Prelude.{◌≡◌, true, IfSome};
ghost use Rattle.mech_objects.specs.declared.ask.Stage.TheVariants.{Fresh};
ghost use Rattle.sasl_gssapi.specs.Ends.{init_by, init_means, holds};

use krb_tokens::Side;
use mech_objects::{Mech, MechAsk};
use sasl_gssapi::{SaslAccept, SaslAnswer, SaslInit, SaslStep};
use sasl_layer::{Layered, SaslRefusal, Wish, end_of};
use sec_base::{Moment, Octets};
use spnego_core::AcceptSetup;
use table_rows::Said;
use table_setting::{draws, own_draws};

/// The moment of both ends.
pub fn now() -> Moment {
    Moment::new(1_000_000, 0).unwrap_or(Moment::start())
}

/// Says the number of a refusal, and the number that was due.
pub fn refused(said: &mut Said, refusal: SaslRefusal) {
    said.word("refused");
    said.number(u64::from(refusal.number()));
    if let SaslRefusal::Order { expected } = refusal {
        said.number(expected);
    }
}

/// The client begins with this object.
pub fn starts(said: &mut Said, object: Box<dyn Mech>, wish: Wish) -> Option<(SaslInit, Octets)>
    requires { (meaning object).stage ≡ Fresh }
    ensures { IfSome result (λ p. holds (init_means meaning p.0) ≡ true) }
{
    let alloc = said.alloc();
    let Ok(mut list) = Vec::with_capacity(alloc, 1) else {
        drop(object);
        said.starve();
        return None;
    };
    list.push_reserved(object);
    let ask = MechAsk {
        stamp: now(),
        draws: own_draws(),
        bindings: None,
    };
    match SaslInit::start(alloc, list, ask, wish) {
        Ok(begun) => Some(begun),
        Err(refusal) => {
            refused(said, refusal);
            None
        }
    }
}

/// The client takes a message, and its next one is due.
pub fn client_goes(said: &mut Said, end: SaslInit, message: &[u8]) -> Option<(SaslInit, Octets)>
    requires { holds (init_by end meaning) ≡ true }
    ensures { IfSome result (λ p. holds (init_by p.0 meaning) ≡ true) }
{
    match end.step(said.alloc(), message) {
        Ok(SaslStep::More(end, message)) => Some((end, message)),
        Ok(SaslStep::Done(end, message)) => {
            drop(end);
            drop(message);
            said.word("done");
            None
        }
        Err(refusal) => {
            refused(said, refusal);
            None
        }
    }
}

/// The client takes the offer, and is done.
pub fn client_ends(said: &mut Said, end: SaslInit, message: &[u8]) -> Option<(Layered, Octets)>
    requires { holds (init_by end meaning) ≡ true }
{
    match end.step(said.alloc(), message) {
        Ok(SaslStep::Done(end, message)) => Some((end, message)),
        Ok(SaslStep::More(end, message)) => {
            drop(end);
            drop(message);
            said.word("more");
            None
        }
        Err(refusal) => {
            refused(said, refusal);
            None
        }
    }
}

/// The server takes a message, and its next one is due.
pub fn server_goes(
    said: &mut Said,
    end: SaslAccept,
    setup: &AcceptSetup,
    message: &[u8],
) -> Option<(SaslAccept, Octets)> {
    match end.step(said.alloc(), setup, message, now(), &draws()) {
        Ok(SaslAnswer::More(end, message)) => Some((end, message)),
        Ok(SaslAnswer::Done(end)) => {
            drop(end);
            said.word("done");
            None
        }
        Err(refusal) => {
            refused(said, refusal);
            None
        }
    }
}

/// The server takes the choice, and is done.
pub fn server_ends(
    said: &mut Said,
    end: SaslAccept,
    setup: &AcceptSetup,
    message: &[u8],
) -> Option<Layered> {
    match end.step(said.alloc(), setup, message, now(), &draws()) {
        Ok(SaslAnswer::Done(end)) => Some(end),
        Ok(SaslAnswer::More(_, message)) => {
            drop(message);
            said.word("more");
            None
        }
        Err(refusal) => {
            refused(said, refusal);
            None
        }
    }
}

/// Says what an offer or a choice holds, as this side opens it, by the context that the server's end agreed on.
pub fn opened(said: &mut Said, end: &SaslAccept, side: Side, message: &[u8]) {
    let SaslAccept::Offered(agreed) = end else {
        return said.starve();
    };
    match end_of(&agreed.done, side).unwrap(said.alloc(), message) {
        Ok(held) => said.octets(held.content.as_slice()),
        Err(_) => said.word("unread"),
    }
}
