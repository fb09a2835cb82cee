//! What an initiator makes of a reply, RFC 4120 section 3.2.5.

ghost use Rattle.std.specs.Prelude.{◌≡◌};
ghost use Rattle.sec_base.specs.Answers.{Gives};
ghost use Rattle.ap_exchange.specs.Reply.{replied, reply_opened, is_stamped, key_agreed, is_sent};
ghost use Rattle.ap_exchange.specs.Reply.{part_taken, reply_taken};

use crate::keys::{REPLY_USAGE, data_opened, subkey_in};
use crate::message::{error_told, reply_in, reply_part_in};
use crate::refusal::ApRefusal;
use crate::request::ApInit;
use crate::times::seconds_of;
use crate::token::{AP_REP, ERROR, inner_in, is_kind, message_in};
use krb_derive::Key;
use krb_msgs::{ApRep, EncApRepPart};
use krb_tokens::MechDone;
use sec_base::{Moment, Octets};
use std::alloc::Global;

/// The reply in a token.
#[tactic(auto, unfolding(crate::specs::Reply::replied))]
fn replied(alloc: Global, token: &[u8]) -> Result<ApRep, ApRefusal>
    ensures { Gives ApRefusal.NoMemory (λ r. r) result (replied token.now) }
{
    let inner = inner_in(token)?;
    if is_kind(AP_REP, inner) {
        return reply_in(alloc, message_in(inner));
    }
    if is_kind(ERROR, inner) {
        return error_told(alloc, message_in(inner));
    }
    Err(ApRefusal::Kind)
}

/// What a reply opens to.
#[tactic(auto, unfolding(crate::specs::Reply::reply_opened))]
fn reply_opened(alloc: Global, end: &ApInit, token: &[u8]) -> Result<Octets, ApRefusal>
    ensures { Gives ApRefusal.NoMemory (λ o. o) result (reply_opened end.now token.now) }
{
    let reply = replied(alloc, token)?;
    data_opened(
        alloc,
        ApRefusal::ReplyClosed,
        &end.session,
        REPLY_USAGE,
        &reply.enc_part,
    )
}

/// Whether a reply has the moment of the request.
fn is_stamped(end: &ApInit, said: &EncApRepPart) -> bool
    ensures { result ≡ is_stamped end.now said.now }
{
    said.ctime == seconds_of(end.stamp) && said.cusec == end.stamp.micros()
}

/// The acceptor's subkey where it sent one, else the own one.
fn key_agreed(own: Key, subkey: Option<Key>) -> Key
    ensures { result ≡ key_agreed own subkey }
{
    match subkey {
        Some(subkey) => subkey,
        None => own,
    }
}

/// Whether the acceptor sent a subkey.
fn is_sent(subkey: &Option<Key>) -> bool
    ensures { result ≡ is_sent subkey.now }
{
    match subkey {
        Some(_) => true,
        None => false,
    }
}

/// What an opened reply is taken as.
#[tactic(auto, unfolding(crate::specs::Reply::part_taken))]
fn part_taken(end: &ApInit, said: &EncApRepPart) -> Result<MechDone, ApRefusal>
    ensures { Gives ApRefusal.NoMemory (λ d. d) result (part_taken end.now said.now) }
{
    let subkey = subkey_in(&said.subkey)?;
    if !is_stamped(end, said) {
        return Err(ApRefusal::ReplyStamp);
    }
    Ok(MechDone {
        key: key_agreed(end.subkey, subkey),
        subkey: is_sent(&subkey),
        initiator: end.initiator,
        acceptor: end.acceptor,
        hash: end.hash,
        ends: Moment::greatest(),
        first: said.seq_number.unwrap_or(0),
    })
}

impl ApInit {
    /// Takes the reply in a token. The end is spent, whatever the answer.
    #[tactic(auto, unfolding(crate::specs::Reply::reply_taken))]
    pub fn take_reply(self, alloc: Global, token: &[u8]) -> Result<MechDone, ApRefusal>
        ensures { Gives ApRefusal.NoMemory (λ d. d) result (reply_taken self token.now) }
    {
        let octets = reply_opened(alloc, &self, token)?;
        let said = reply_part_in(alloc, octets.as_slice())?;
        part_taken(&self, &said)
    }
}
