//! The steps behind Kerberos.

ghost use Rattle.std.specs.Prelude.{◌≡◌, IfOk, length};
ghost use Rattle.sec_base.specs.Answers.{Gives};
ghost use Rattle.sasl_layer.specs.Layered.{IsNew};
ghost use Rattle.sasl_gssapi.specs.Steps.{offers, takes_choice, takes_offer};

use crate::choosing::{choice_judged, layered, offer_judged, told};
use krb_tokens::{MechDone, Side};
use sasl_layer::{Layered, SaslRefusal, Wish};
use sec_base::Octets;
use std::alloc::Global;

/// Kerberos is done: what this end wishes, and what Kerberos left it with.
#[derive(Clone, Copy)]
pub struct Agreed {
    pub wish: Wish,
    pub done: MechDone,
}

/// A client that is done, and its choice for the server.
#[derive(Drop)]
pub struct Offer {
    pub end: Layered,
    pub message: Octets,
}

/// The server's answer to the empty message: the offer.
pub(crate) fn offers(alloc: Global, agreed: &Agreed, message: &[u8]) -> Result<Octets, SaslRefusal>
    ensures exact { Gives SaslRefusal.NoMemory (λ o. o) result (offers agreed.now message.now) }
    ensures short { IfOk result (λ o. length o ≡ 32) }
{
    if !message.is_empty() {
        return Err(SaslRefusal::Length);
    }
    let offer = told(
        alloc,
        &agreed.done,
        Side::Acceptor,
        agreed.wish.layers(),
        agreed.wish.size(),
    )?;
    Ok(offer)
}

/// The server's end behind the choice.
pub(crate) fn takes_choice(
    alloc: Global,
    agreed: &Agreed,
    message: &[u8],
) -> Result<Layered, SaslRefusal>
    ensures exact { Gives SaslRefusal.NoMemory (λ l. l) result
        (takes_choice agreed.now message.now) }
    ensures new { IfOk result IsNew }
{
    let judged = choice_judged(alloc, &agreed.done, agreed.wish.layers(), message)?;
    Ok(layered(agreed.done, Side::Acceptor, agreed.wish, &judged))
}

/// The client's answer to the offer: the choice, behind which it is done.
pub(crate) fn takes_offer(
    alloc: Global,
    agreed: &Agreed,
    message: &[u8],
) -> Result<Offer, SaslRefusal>
    ensures exact { Gives SaslRefusal.NoMemory (λ o. o) result
        (takes_offer agreed.now message.now) }
    ensures new { IfOk result (λ o. IsNew o.end) }
    ensures short { IfOk result (λ o. length o.message ≡ 32) }
{
    let judged = offer_judged(alloc, &agreed.done, agreed.wish.layers(), message)?;
    let choice = told(
        alloc,
        &agreed.done,
        Side::Initiator,
        judged.layer.bit(),
        agreed.wish.size(),
    )?;
    Ok(Offer {
        end: layered(agreed.done, Side::Initiator, agreed.wish, &judged),
        message: choice,
    })
}
