//! The request of an initiator, RFC 4120 section 3.2.2.

ghost use Rattle.std.specs.Prelude.{◌≡◌, IfOk, Ok, true, option_map};
ghost use Rattle.sec_base.specs.Answers.{Gives};
ghost use Rattle.gss_base.specs.Principal.{is_named};
ghost use Rattle.der_core.specs.Format.{WritesWhole};
ghost use Rattle.der_core.specs.Element.{kept};
ghost use Rattle.krb_msgs.specs.Authenticator.{authenticator};
ghost use Rattle.krb_msgs.specs.ApReq.{ap_req};
ghost use Rattle.krb_msgs.specs.Ticket.{ticket_element};
ghost use Rattle.ap_exchange.specs.Keys.{authenticator_usage, SealedOpens};
ghost use Rattle.ap_exchange.specs.Draws.{drawn_confounder};
ghost use Rattle.ap_exchange.specs.Request.{checksum_for, authenticator_with, authenticator_of};
ghost use Rattle.ap_exchange.specs.Request.{ap_req_with, WritesRequest, request_of, RequestFits};

use crate::draws::{confounder_of, subkey_of};
use crate::keys::{AUTHENTICATOR_USAGE, key_value, sealed_data};
use crate::message::ticket_in;
use crate::names::names_of;
use crate::refusal::ApRefusal;
use crate::times::seconds_of;
use crate::token::{AP_REQ, framed_message};
use gss_base::{Bindings, Label, Principal, binding_hash};
use krb_derive::Key;
use krb_files::Credential;
use krb_msgs::{ApReq, Authenticator, Checksum, write_ap_req, write_authenticator};
use sec_base::{Moment, NoMemory, Octets};
use std::alloc::Global;

/// The type of the exchange's checksum (RFC 4121 section 4.1.1).
const CHECKSUM_TYPE: i32 = 0x8003;

/// The length of a hash, least significant octet first.
const HASH_LENGTH: [u8; 4] = [16, 0, 0, 0];

/// Mutual authentication, confidentiality and integrity, least significant octet first.
const FLAGS: [u8; 4] = [50, 0, 0, 0];

/// The bit of the ap-options that asks for mutual authentication.
const MUTUAL_REQUIRED: u32 = 0x2000_0000;

/// An initiator whose request was sent, and whose reply is due.
#[derive(Drop)]
pub struct ApInit {
    /// The credential's key.
    pub session: Key,
    /// The subkey that was sent.
    pub subkey: Key,
    /// The moment that was sent, with its microseconds.
    pub stamp: Moment,
    /// The credential's client.
    pub initiator: Label,
    /// The credential's server.
    pub acceptor: Label,
    /// The hash of the own bindings.
    pub hash: [u8; 16],
}

/// The checksum that carries the hash of bindings.
fn checksum_for(alloc: Global, hash: &[u8; 16]) -> Result<Checksum, NoMemory>
    ensures { IfOk result (λ c. c ≡ checksum_for hash.now) }
{
    let mut octets = Vec::with_capacity(alloc, 24)?;
    octets.extend_from_slice(&HASH_LENGTH)?;
    octets.extend_from_slice(hash)?;
    octets.extend_from_slice(&FLAGS)?;
    Ok(Checksum {
        cksumtype: CHECKSUM_TYPE,
        checksum: Octets::from_vec(octets),
    })
}

/// What the request seals.
fn authenticator_octets(
    alloc: Global,
    client: &Principal,
    stamp: Moment,
    subkey: &Key,
    hash: &[u8; 16],
) -> Result<Octets, NoMemory>
    ensures { IfOk result (λ o. WritesWhole authenticator
        (authenticator_with client.now stamp subkey.now hash.now) o) }
{
    let subkey = key_value(alloc, subkey)?;
    let sum = checksum_for(alloc, hash)?;
    let (crealm, cname) = names_of(alloc, client)?;
    let said = Authenticator {
        crealm,
        cname,
        cksum: Some(sum),
        cusec: stamp.micros(),
        ctime: seconds_of(stamp),
        subkey: Some(subkey),
        seq_number: Some(0),
        authorization_data: None,
    };
    let octets = write_authenticator(alloc, &said);
    drop(said);
    octets
}

/// The request's message.
fn message_of(
    alloc: Global,
    ticket: &[u8],
    session: &Key,
    draws: &[u8; 66],
    octets: &[u8],
) -> Result<Octets, NoMemory>
    requires { (kept ticket_element).fits ticket.now ≡ true }
    ensures message { IfOk result
        (λ o. WritesWhole ap_req (ap_req_with ticket.now session.now draws.now octets.now) o) }
    ensures opens { IfOk result
        (λ _. SealedOpens session.now authenticator_usage (drawn_confounder draws.now) octets.now) }
{
    let ticket = Octets::of(alloc, ticket)?;
    let confounder = confounder_of(draws);
    let authenticator = sealed_data(
        alloc,
        session,
        None,
        AUTHENTICATOR_USAGE,
        &confounder,
        octets,
    )?;
    let request = ApReq {
        ap_options: MUTUAL_REQUIRED,
        ticket,
        authenticator,
    };
    let message = write_ap_req(alloc, &request);
    drop(request);
    message
}

/// The request's token, of a ticket that is one.
#[tactic(auto, unfolding(crate::specs::Request::request_token, crate::specs::Tokens::token_of))]
fn request_token(
    alloc: Global,
    credential: &Credential,
    stamp: Moment,
    draws: &[u8; 66],
    subkey: &Key,
    hash: &[u8; 16],
) -> Result<Octets, NoMemory>
    requires ticket { (kept ticket_element).fits credential.now.ticket ≡ true }
    ensures { IfOk result
        (λ o. WritesRequest credential.now stamp draws.now subkey.now hash.now o) }
{
    let octets = authenticator_octets(alloc, &credential.client, stamp, subkey, hash)?;
    let message = message_of(
        alloc,
        credential.ticket.as_slice(),
        &credential.session,
        draws,
        octets.as_slice(),
    )?;
    framed_message(alloc, AP_REQ, message.as_slice())
}

impl ApInit {
    /// The state and the token of a request with this credential, at this moment: an authenticator with the client's names, the hash
    /// of the bindings, the moment and a drawn subkey, sealed under the credential's key. Refused by Der of the part Ticket
    /// alone, where the credential's ticket is none.
    #[tactic(auto, unfolding(crate::specs::Request::request_of))]
    pub fn start(
        alloc: Global,
        credential: &Credential,
        stamp: Moment,
        draws: &[u8; 66],
        bindings: Option<&Bindings>,
    ) -> Result<(ApInit, Octets), ApRefusal>
        ensures exact { Gives ApRefusal.NoMemory (λ p. p) result
            (request_of credential.now stamp draws.now (option_map (λ b. b.now) bindings.entry)) }
        ensures fits { IfOk result (λ _. RequestFits credential.now stamp draws.now
            (option_map (λ b. b.now) bindings.entry)) }
    {
        let ticket = ticket_in(alloc, credential.ticket.as_slice())?;
        drop(ticket);
        let hash = binding_hash(bindings);
        let session = credential.session;
        let subkey = subkey_of(session.etype(), draws);
        let token = request_token(alloc, credential, stamp, draws, &subkey, &hash)?;
        let end = ApInit {
            session,
            subkey,
            stamp,
            initiator: credential.client.label(),
            acceptor: credential.server.label(),
            hash,
        };
        Ok((end, token))
    }

    /// Does nothing that stays: its contract says, where there was memory, that what a request with this credential seals has a spelling.
    pub fn told_spelling(
        alloc: Global,
        credential: &Credential,
        stamp: Moment,
        draws: &[u8; 66],
        bindings: Option<&Bindings>,
    ) -> Result<(), NoMemory>
        ensures { IfOk result (λ _. authenticator.fits (authenticator_of credential.now stamp
            draws.now (option_map (λ b. b.now) bindings.entry)) ≡ true) }
    {
        let hash = binding_hash(bindings);
        let subkey = subkey_of(credential.session.etype(), draws);
        let _octets = authenticator_octets(alloc, &credential.client, stamp, &subkey, &hash)?;
        Ok(())
    }
}
