//! The results of calls, RFC 2203 section 5.3.3.

ghost use Rattle.std.specs.Prelude.{Ok};
ghost use Rattle.sec_base.specs.Answers.{Gives};
ghost use Rattle.gss_client.specs.Judging.{body_result, call_result, holds_nothing, destroyed_in};

use crate::answer::{place_of, verified_in};
use crate::refusal::{ClientRefusal, ReplyWhy};
use krb_tokens::{KeyCache, Side, TokenEnd};
use rpcsec_bodies::{BodyRefusal, Service, unprotect};
use sec_base::Octets;
use spnego_core::Outcome;
use std::alloc::Global;

/// The result in the body of a reply, by the service of the call.
fn body_result(
    alloc: Global,
    keys: &KeyCache,
    end: &TokenEnd,
    number: u32,
    body: &[u8],
    service: Service,
) -> Result<Octets, ClientRefusal>
    ensures { Gives ClientRefusal.NoMemory (λ o. o) result
        (body_result end.now number body.now service) }
{
    match unprotect(alloc, end, &keys.lent(), service, number, body) {
        Ok(result) => Ok(result),
        Err(BodyRefusal::Protection) => Err(ClientRefusal::BadReply(ReplyWhy::Body)),
        Err(BodyRefusal::Number) => Err(ClientRefusal::BadReply(ReplyWhy::Number)),
        Err(BodyRefusal::NoMemory) => Err(ClientRefusal::NoMemory),
    }
}

/// The result in the reply to the call of this number and transaction number.
#[tactic(auto, unfolding(crate::specs::Judging::call_result))]
pub(crate) fn call_result(
    alloc: Global,
    keys: &KeyCache,
    outcome: &Outcome,
    service: Service,
    number: u32,
    xid: u32,
    bytes: &[u8],
) -> Result<Octets, ClientRefusal>
    ensures { Gives ClientRefusal.NoMemory (λ o. o) result
        (call_result outcome.now service number xid bytes.now) }
{
    let answer = verified_in(keys, outcome, number, xid, bytes)?;
    let end = outcome.token_end(Side::Initiator);
    body_result(alloc, keys, &end, number, answer.result, service)
}

/// Whether what follows the stat of a reply to a destruction holds nothing: it has no octets, or is a body by this service that verifies and
/// holds the number alone.
fn holds_nothing(
    alloc: Global,
    keys: &KeyCache,
    end: &TokenEnd,
    number: u32,
    body: &[u8],
    service: Service,
) -> Result<bool, ClientRefusal>
    ensures { Gives ClientRefusal.NoMemory (λ b. b) result
        (Ok (holds_nothing end.now service number body.now)) }
{
    if body.is_empty() {
        return Ok(true);
    }
    match unprotect(alloc, end, &keys.lent(), service, number, body) {
        Ok(content) => Ok(content.as_slice().is_empty()),
        Err(BodyRefusal::Protection) => Ok(false),
        Err(BodyRefusal::Number) => Ok(false),
        Err(BodyRefusal::NoMemory) => Err(ClientRefusal::NoMemory),
    }
}

/// Judges the reply to a destruction of this number and transaction number, in a context of this service.
#[tactic(auto, unfolding(crate::specs::Judging::destroyed_in))]
pub(crate) fn destroyed_in(
    alloc: Global,
    keys: &KeyCache,
    outcome: &Outcome,
    service: Service,
    number: u32,
    xid: u32,
    bytes: &[u8],
) -> Result<(), ClientRefusal>
    ensures { Gives ClientRefusal.NoMemory (λ u. u) result
        (destroyed_in outcome.now service number xid bytes.now) }
{
    let answer = verified_in(keys, outcome, number, xid, bytes)?;
    let end = outcome.token_end(Side::Initiator);
    if !holds_nothing(alloc, keys, &end, number, answer.result, service)? {
        let at = place_of(&answer, 0);
        return Err(ClientRefusal::BadReply(ReplyWhy::Form { at }));
    }
    Ok(())
}
