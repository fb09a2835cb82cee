//! What an acceptor makes of a request, before it answers: RFC 4120 section 3.2.3.

ghost use Rattle.std.specs.Prelude.{◌≡◌, ◌≤◌, ◌-◌, ◌%◌, true, length, option_map, IfOk};
ghost use Rattle.sec_base.specs.Answers.{Gives};
ghost use Rattle.gss_base.specs.Principal.{is_named};
ghost use Rattle.der_core.specs.Format.{all_of};
ghost use Rattle.krb_msgs.specs.ApReq.{ap_req};
ghost use Rattle.ap_exchange.specs.Steps.{der_behind};
ghost use Rattle.ap_exchange.specs.Exchange.{is_mutual, requested, ticket_for, service_key};
ghost use Rattle.ap_exchange.specs.Judging.{is_checksum_type, is_checksum, hash_carried, is_bound};
ghost use Rattle.ap_exchange.specs.Judging.{hash_claimed, claim_judged, judged};
ghost use Rattle.ap_exchange.specs.Opening.{ticket_part, part_opened, said_opened, part_judged};

use crate::judged::Judged;
use crate::keys::{AUTHENTICATOR_USAGE, TICKET_USAGE, data_opened, key_in, opened_or, subkey_in};
use crate::message::{authenticator_in, part_in, ticket_in};
use crate::names::{is_principal, label_in, same_principal};
use crate::refusal::{ApRefusal, Part, refused_behind};
use crate::times::{SKEW, stamp_of, timely};
use crate::token::{AP_REQ, inner_in, is_kind, message_in};
use gss_base::{Bindings, Principal, binding_hash};
use krb_derive::{Etype, Key};
use krb_files::Keytab;
use krb_msgs::{ApReq, Authenticator, Checksum, EncTicketPart, Ticket, read_ap_req};
use sec_base::Moment;
use std::alloc::Global;

/// The type of the exchange's checksum (RFC 4121 section 4.1.1).
const CHECKSUM_TYPE: i32 = 0x8003;

/// What the exchange's checksum begins with: the length of a hash, least significant octet first.
const HASH_LENGTH: [u8; 4] = [16, 0, 0, 0];

/// Whether the ap-options ask for mutual authentication.
fn is_mutual(options: u32) -> bool
    ensures { result ≡ is_mutual options }
{
    options / 0x2000_0000 % 2 == 1
}

/// The message of a request, whose places count from the token's first octet.
fn message_of_request(alloc: Global, token: &[u8], message: &[u8]) -> Result<ApReq, ApRefusal>
    ensures { Gives ApRefusal.NoMemory (λ r. r) result (der_behind Part.Token
        (length token.now - length message.now) (ap_req.read (all_of message.now))) }
{
    let before = token.len().saturating_sub(message.len());
    match read_ap_req(alloc, message) {
        Ok(request) => Ok(request),
        Err(refusal) => Err(refused_behind(Part::Token, before, refusal)),
    }
}

/// The request in a token.
#[tactic(auto, unfolding(crate::specs::Exchange::requested))]
fn requested(alloc: Global, token: &[u8]) -> Result<ApReq, ApRefusal>
    ensures { Gives ApRefusal.NoMemory (λ r. r) result (requested token.now) }
{
    let inner = inner_in(token)?;
    if !is_kind(AP_REQ, inner) {
        return Err(ApRefusal::Kind);
    }
    let request = message_of_request(alloc, token, message_in(inner))?;
    if !is_mutual(request.ap_options) {
        drop(request);
        return Err(ApRefusal::NotMutual);
    }
    Ok(request)
}

/// The request's ticket, which is for the acceptor.
#[tactic(auto, unfolding(crate::specs::Exchange::ticket_for))]
fn ticket_for(alloc: Global, own: &Principal, request: &ApReq) -> Result<Ticket, ApRefusal>
    ensures { Gives ApRefusal.NoMemory (λ t. t) result (ticket_for own.now request.now) }
{
    let granted = ticket_in(alloc, request.ticket.as_slice())?;
    if !is_principal(&granted.realm, &granted.sname, own) {
        drop(granted);
        return Err(ApRefusal::TicketNames);
    }
    Ok(granted)
}

/// The acceptor's key of the ticket's number and type.
fn service_key(keytab: &Keytab, own: &Principal, granted: &Ticket) -> Result<Key, ApRefusal>
    ensures { Gives ApRefusal.NoMemory (λ k. k) result
        (service_key keytab.now own.now granted.now) }
{
    let Some(etype) = Etype::of(granted.enc_part.etype) else {
        return Err(ApRefusal::NoKey);
    };
    match keytab.find(own, granted.enc_part.kvno, etype) {
        Some(key) => Ok(key),
        None => Err(ApRefusal::NoKey),
    }
}

/// Whether a checksum's type is the exchange's.
fn is_checksum_type(cksumtype: i32) -> bool
    ensures { result ≡ is_checksum_type cksumtype }
{
    match cksumtype {
        CHECKSUM_TYPE => true,
        _ => false,
    }
}

/// Whether a checksum is whole up to its flags.
fn is_checksum(sum: &Checksum) -> bool
    ensures { result ≡ is_checksum sum.now }
{
    let octets = sum.checksum.as_slice();
    is_checksum_type(sum.cksumtype) && octets.len() >= 24 && &octets[..4] == HASH_LENGTH.as_slice()
}

/// The hash of the initiator's bindings.
fn hash_carried(sum: &Option<Checksum>) -> Result<[u8; 16], ApRefusal>
    ensures { Gives ApRefusal.NoMemory (λ h. h) result (hash_carried sum.now) }
{
    let Some(sum) = sum else {
        return Err(ApRefusal::ChecksumType);
    };
    if !is_checksum(sum) {
        return Err(ApRefusal::ChecksumType);
    }
    let octets = sum.checksum.as_slice();
    let mut hash = [0u8; 16];
    hash.copy_from_slice(&octets[4..20]);
    Ok(hash)
}

/// Whether the initiator's bindings are the acceptor's, if it has any.
fn is_bound(bindings: Option<&Bindings>, hash: &[u8; 16]) -> bool
    ensures { result ≡ is_bound (option_map (λ b. b.now) bindings.entry) hash.now }
{
    match bindings {
        Some(_) => hash.as_slice() == binding_hash(bindings).as_slice(),
        None => true,
    }
}

/// What the authenticator says beside its moment.
#[tactic(auto, unfolding(crate::specs::Judging::hash_claimed))]
fn hash_claimed(
    bindings: Option<&Bindings>,
    part: &EncTicketPart,
    said: &Authenticator,
) -> Result<[u8; 16], ApRefusal>
    ensures { Gives ApRefusal.NoMemory (λ h. h) result
        (hash_claimed (option_map (λ b. b.now) bindings.entry) part.now said.now) }
{
    let _subkey = subkey_in(&said.subkey)?;
    if !same_principal(&said.crealm, &said.cname, &part.crealm, &part.cname) {
        return Err(ApRefusal::NameMatch);
    }
    let hash = hash_carried(&said.cksum)?;
    if !is_bound(bindings, &hash) {
        return Err(ApRefusal::Bindings);
    }
    Ok(hash)
}

/// What a request is judged as whose ticket and authenticator say this.
#[tactic(auto, unfolding(crate::specs::Judging::claim_judged))]
fn claim_judged(
    alloc: Global,
    own: &Principal,
    now: Moment,
    bindings: Option<&Bindings>,
    session: Key,
    part: &EncTicketPart,
    said: &Authenticator,
) -> Result<Judged, ApRefusal>
    requires named { is_named part.now.crealm part.now.cname.name_string ≡ true }
    requires time { said.now.ctime % 1000000 ≡ 0 }
    requires micros { said.now.cusec ≤ 999999 }
    ensures { Gives ApRefusal.NoMemory (λ j. j) result (claim_judged own.now now
        (option_map (λ b. b.now) bindings.entry) session part.now said.now) }
{
    let hash = hash_claimed(bindings, part, said)?;
    timely(now, part, said)?;
    let initiator = label_in(alloc, &part.crealm, &part.cname)?;
    Ok(Judged {
        session,
        initiator,
        acceptor: own.label(),
        stamp: stamp_of(said),
        hash,
        ends: part.endtime.later(SKEW),
        first: said.seq_number.unwrap_or(0),
    })
}

/// What a ticket says, opened with the acceptor's key.
#[tactic(auto, unfolding(crate::specs::Opening::ticket_part))]
fn ticket_part(
    alloc: Global,
    keytab: &Keytab,
    own: &Principal,
    granted: &Ticket,
) -> Result<EncTicketPart, ApRefusal>
    ensures exact { Gives ApRefusal.NoMemory (λ p. p) result
        (ticket_part keytab.now own.now granted.now) }
    ensures named { IfOk result (λ p. is_named p.crealm p.cname.name_string ≡ true) }
{
    let service = service_key(keytab, own, granted)?;
    let cipher = granted.enc_part.cipher.as_slice();
    let octets = opened_or(
        alloc,
        ApRefusal::TicketClosed,
        &service,
        TICKET_USAGE,
        cipher,
    )?;
    let part = part_in(alloc, octets.as_slice());
    drop(octets);
    part
}

/// What a request's ticket says.
#[tactic(auto, unfolding(crate::specs::Opening::part_opened))]
fn part_opened(
    alloc: Global,
    keytab: &Keytab,
    own: &Principal,
    request: &ApReq,
) -> Result<EncTicketPart, ApRefusal>
    ensures exact { Gives ApRefusal.NoMemory (λ p. p) result
        (part_opened keytab.now own.now request.now) }
    ensures named { IfOk result (λ p. is_named p.crealm p.cname.name_string ≡ true) }
{
    let granted = ticket_for(alloc, own, request)?;
    let part = ticket_part(alloc, keytab, own, &granted);
    drop(granted);
    part
}

/// What a request's authenticator says, opened with the session key.
#[tactic(auto, unfolding(crate::specs::Opening::said_opened))]
fn said_opened(alloc: Global, session: &Key, request: &ApReq) -> Result<Authenticator, ApRefusal>
    ensures exact { Gives ApRefusal.NoMemory (λ a. a) result
        (said_opened session.now request.now) }
    ensures time { IfOk result (λ a. a.ctime % 1000000 ≡ 0) }
    ensures micros { IfOk result (λ a. a.cusec ≤ 999999) }
{
    let octets = data_opened(
        alloc,
        ApRefusal::AuthClosed,
        session,
        AUTHENTICATOR_USAGE,
        &request.authenticator,
    )?;
    let said = authenticator_in(alloc, octets.as_slice());
    drop(octets);
    said
}

/// What a request is judged as whose ticket says this.
#[tactic(auto, unfolding(crate::specs::Opening::part_judged))]
fn part_judged(
    alloc: Global,
    own: &Principal,
    now: Moment,
    bindings: Option<&Bindings>,
    request: &ApReq,
    part: &EncTicketPart,
) -> Result<Judged, ApRefusal>
    requires { is_named part.now.crealm part.now.cname.name_string ≡ true }
    ensures { Gives ApRefusal.NoMemory (λ j. j) result (part_judged own.now now
        (option_map (λ b. b.now) bindings.entry) request.now part.now) }
{
    let session = key_in(&part.key)?;
    let said = said_opened(alloc, &session, request)?;
    let judged = claim_judged(alloc, own, now, bindings, session, part, &said);
    drop(said);
    judged
}

/// Judges the request in a token, at this moment, for the server of this name and with these keys. Nothing is answered yet:
/// whether it is a repeat is judged by its mark first.
pub fn judge_request(
    alloc: Global,
    keytab: &Keytab,
    own: &Principal,
    now: Moment,
    bindings: Option<&Bindings>,
    token: &[u8],
) -> Result<Judged, ApRefusal>
    ensures { Gives ApRefusal.NoMemory (λ j. j) result
        (judged keytab.now own.now now (option_map (λ b. b.now) bindings.entry) token.now) }
{
    let request = requested(alloc, token)?;
    match part_opened(alloc, keytab, own, &request) {
        Ok(part) => {
            let judged = part_judged(alloc, own, now, bindings, &request, &part);
            drop(part);
            drop(request);
            judged
        }
        Err(refusal) => {
            drop(request);
            Err(refusal)
        }
    }
}
