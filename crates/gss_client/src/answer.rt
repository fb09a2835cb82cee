//! What every reply is judged by: its form, its transaction number, whether it was accepted, and its verifier.

ghost use Rattle.std.specs.Prelude.{◌≡◌, ◌==◌};
ghost use Rattle.rpc_msgs.specs.Replies.{reply_value};
ghost use Rattle.rpc_msgs.specs.Xdr.{Answers};
ghost use Rattle.gss_client.specs.Judging.{answer_value, answer_in, granted, place_of, xid_of};
ghost use Rattle.gss_client.specs.Judging.{is_verified, succeeded, verified_in};

use crate::refusal::{ClientRefusal, Denial, ReplyWhy};
use krb_tokens::{KeyCache, Side};
use rpc_msgs::numbers::{RPCSEC_GSS, SUCCESS};
use rpc_msgs::{Reply, read_reply};
use spnego_core::Outcome;

/// An accepted reply.
#[derive(Clone, Copy)]
pub struct Answer<'a> {
    pub flavour: u32,
    pub verf: &'a [u8],
    pub stat: u32,
    /// What follows the stat.
    pub result: &'a [u8],
    /// How many octets the record has.
    pub size: usize,
}

/// The place in the record of an octet of what follows the stat.
pub(crate) fn place_of(answer: &Answer<'_>, at: usize) -> usize
    ensures { result ≡ place_of (answer_value answer.now) at }
{
    let left = answer.result.len().saturating_sub(at);
    answer.size.saturating_sub(left)
}

/// The transaction number of a reply.
fn xid_of(reply: &Reply<'_>) -> u32
    ensures { result ≡ xid_of (reply_value reply.now) }
{
    match reply {
        Reply::Accepted { xid, .. } => *xid,
        Reply::Mismatch { xid, .. } => *xid,
        Reply::AuthError { xid, .. } => *xid,
    }
}

/// Whether a reply is to the call of this transaction number.
fn is_own(reply: &Reply<'_>, xid: u32) -> bool
    ensures { result ≡ (xid_of (reply_value reply.now) == xid) }
{
    xid_of(reply) == xid
}

/// The accepted reply in a record of so many octets.
fn granted(size: usize, reply: Reply<'_>) -> Result<Answer<'_>, ClientRefusal>
    ensures { Answers answer_value result (granted size (reply_value reply.entry)) }
{
    match reply {
        Reply::Accepted {
            xid: _,
            flavour,
            verf,
            stat,
            low: _,
            high: _,
            result,
        } => Ok(Answer {
            flavour,
            verf,
            stat,
            result,
            size,
        }),
        Reply::Mismatch { xid: _, low, high } => {
            Err(ClientRefusal::Refused(Denial::Rpc { low, high }))
        }
        Reply::AuthError { xid: _, stat } => Err(ClientRefusal::Refused(Denial::Auth { stat })),
    }
}

/// The accepted reply to the call of this transaction number.
#[tactic(auto, unfolding(crate::specs::Judging::answer_in))]
pub(crate) fn answer_in(xid: u32, bytes: &[u8]) -> Result<Answer<'_>, ClientRefusal>
    ensures { Answers answer_value result (answer_in xid bytes.now) }
{
    let reply = match read_reply(bytes) {
        Ok(reply) => reply,
        Err(refusal) => return Err(ClientRefusal::BadReply(ReplyWhy::Form { at: refusal.at })),
    };
    if !is_own(&reply, xid) {
        return Err(ClientRefusal::BadReply(ReplyWhy::Xid));
    }
    granted(bytes.len(), reply)
}

/// Whether the verifier is the acceptor's MIC over this number.
#[tactic(auto, unfolding(rpc_msgs::specs::Words::word))]
pub(crate) fn is_verified(
    keys: &KeyCache,
    outcome: &Outcome,
    answer: &Answer<'_>,
    number: u32,
) -> bool
    ensures { result ≡ is_verified outcome.now (answer_value answer.now) number }
{
    let end = outcome.token_end(Side::Initiator);
    answer.flavour == RPCSEC_GSS
        && end
            .check_mic_by(&keys.lent(), answer.verf, &number.to_be_bytes())
            .is_ok()
}

/// Refuses another accept stat than SUCCESS.
pub(crate) fn succeeded(answer: &Answer<'_>) -> Result<(), ClientRefusal>
    ensures { result ≡ succeeded (answer_value answer.now) }
{
    if answer.stat != SUCCESS {
        return Err(ClientRefusal::Refused(Denial::Accept { stat: answer.stat }));
    }
    Ok(())
}

/// The accepted reply to the call of this number and transaction number, verified and with SUCCESS.
#[tactic(auto, unfolding(crate::specs::Judging::verified_in))]
pub(crate) fn verified_in<'a>(
    keys: &KeyCache,
    outcome: &Outcome,
    number: u32,
    xid: u32,
    bytes: &'a [u8],
) -> Result<Answer<'a>, ClientRefusal>
    ensures { Answers answer_value result (verified_in outcome.now number xid bytes.now) }
{
    let answer = answer_in(xid, bytes)?;
    if !is_verified(keys, outcome, &answer, number) {
        return Err(ClientRefusal::BadReply(ReplyWhy::Verifier));
    }
    succeeded(&answer)?;
    Ok(answer)
}
