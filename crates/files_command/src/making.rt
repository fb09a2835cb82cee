//! The file that an order asks for.

ghost use Rattle.std.specs.Prelude.{◌≡◌, ◌≤◌, ◌+◌, ◌*◌, ◌%◌, IfOk, false, length};
ghost use Rattle.sec_base.specs.Answers.{Gives};
ghost use Rattle.der_core.specs.Values.{has_zero};
ghost use Rattle.krb_derive.specs.Key.{type_of_key};
ghost use Rattle.krb_msgs.specs.PrincipalName.{IsName};
ghost use Rattle.ap_exchange.specs.Draws.{drawn_subkey, drawn_confounder};
ghost use Rattle.ap_exchange.specs.Keys.{key_value};
ghost use Rattle.ap_exchange.specs.Request.{name_value};
ghost use Rattle.files_command.specs.Making.{whole_second, ticket_part, ticket_for, within};
ghost use Rattle.files_command.specs.Making.{TicketOpens, granted_with, credential_for};
ghost use Rattle.files_command.specs.Making.{times_of, ccache_from};
ghost use Rattle.files_command.specs.Making.{verifier_for, file_for, file_of};

use crate::ccache_file::{Times, write_ccache};
use crate::keytab_file::{ServiceKey, write_keytab};
use crate::refusal::NoFile;
use crate::words::{Order, read_order};
use ap_exchange::seal_ticket;
use gss_base::Principal;
use krb_derive::{Etype, Key};
use krb_files::Credential;
use krb_msgs::{EncTicketPart, EncryptionKey, PrincipalName, TransitedEncoding};
use scram_mech::{ScramRefusal, make_verifier};
use sec_base::{Items, Moment, NoMemory, Octets, Text};
use std::alloc::Global;

/// The octets that are drawn for a file.
pub const DRAWS: usize = 48;

/// The last second of the year 9999.
const LAST_SECOND: u64 = 253_402_300_799;

/// The seconds of an hour.
const HOUR: u64 = 3_600;

/// The most octets of a ticket in a cache.
const MOST_TICKET: usize = 60_000;

/// The moment of this second since 1970, at most the last of the year 9999.
fn whole(secs: u64) -> Moment
    ensures value { result ≡ whole_second secs }
    ensures whole { result % 1000000 ≡ 0 }
{
    match Moment::new(secs.min(LAST_SECOND), 0) {
        Some(moment) => moment,
        None => unreachable!(),
    }
}

/// Copies of these texts.
fn copies(alloc: Global, parts: &[Text]) -> Result<Vec<Text>, NoMemory>
    ensures { IfOk result (λ copies. copies.items ≡ parts.now) }
{
    let mut copies = Vec::new(alloc);
    for part in parts {
        let copy = Text::of(alloc, part.as_str())?;
        copies.push(copy)?;
    }
    Ok(copies)
}

/// A principal's realm and its name as messages have them.
fn names_of(alloc: Global, principal: &Principal) -> Result<(Text, PrincipalName), NoMemory>
    ensures value { IfOk result
        (λ n. (n.0 ≡ principal.now.realm) × (n.1 ≡ name_value principal.now)) }
    ensures realm { IfOk result (λ n. has_zero n.0 ≡ false) }
    ensures name { IfOk result (λ n. IsName n.0 n.1) }
{
    let _label = principal.label();
    let realm = Text::of(alloc, principal.realm())?;
    let parts = copies(alloc, principal.parts())?;
    let name = PrincipalName {
        name_type: 1,
        name_string: Items::of(parts),
    };
    Ok((realm, name))
}

/// A key as messages have it.
fn key_value(alloc: Global, key: &Key) -> Result<EncryptionKey, NoMemory>
    ensures { IfOk result (λ k. k ≡ key_value key.now) }
{
    let keyvalue = Octets::of(alloc, key.bytes())?;
    Ok(EncryptionKey {
        keytype: key.etype().number(),
        keyvalue,
    })
}

/// What a ticket seals.
fn ticket_part(
    alloc: Global,
    client: &Principal,
    session: &Key,
    authtime: Moment,
    endtime: Moment,
) -> Result<EncTicketPart, NoMemory>
    ensures value { IfOk result (λ p. p ≡ ticket_part client.now session.now authtime endtime) }
    ensures crealm { IfOk result (λ p. has_zero p.crealm ≡ false) }
    ensures cname { IfOk result (λ p. IsName p.crealm p.cname) }
{
    let (crealm, cname) = names_of(alloc, client)?;
    let key = key_value(alloc, session)?;
    let contents = Octets::of(alloc, &[])?;
    Ok(EncTicketPart {
        flags: 0,
        key,
        crealm,
        cname,
        transited: TransitedEncoding {
            tr_type: 1,
            contents,
        },
        authtime,
        starttime: None,
        endtime,
        renew_till: None,
        caddr: None,
        authorization_data: None,
    })
}

/// The ticket of a session key, from one second until another.
#[tactic(auto, unfolding(crate::specs::Making::ticket_for))]
fn ticket_for(
    alloc: Global,
    client: &Principal,
    service: &ServiceKey,
    session: &Key,
    since: u64,
    until: u64,
    confounder: &[u8; 16],
) -> Result<Octets, NoMemory>
    ensures is { IfOk result
        (λ o. o ≡ ticket_for client.now service.now session.now since until confounder.now) }
    ensures opens { IfOk result (λ _. TicketOpens client.now service.now session.now since until
        confounder.now) }
{
    let part = ticket_part(alloc, client, session, whole(since), whole(until))?;
    seal_ticket(
        alloc,
        &service.key,
        service.kvno,
        &service.server,
        &part,
        confounder,
    )
}

/// The session key among the drawn octets.
fn session_of(etype: Etype, draws: &[u8; DRAWS]) -> Key
    ensures { result ≡ drawn_subkey etype draws.now }
{
    match etype {
        Etype::Aes128 => {
            let mut octets = [0u8; 16];
            octets.copy_from_slice(&draws[..16]);
            Key::Aes128(octets)
        }
        Etype::Aes256 => {
            let mut octets = [0u8; 32];
            octets.copy_from_slice(&draws[..32]);
            Key::Aes256(octets)
        }
    }
}

/// The confounder among the drawn octets.
fn confounder_of(draws: &[u8; DRAWS]) -> [u8; 16]
    ensures { result ≡ drawn_confounder draws.now }
{
    let mut octets = [0u8; 16];
    octets.copy_from_slice(&draws[32..]);
    octets
}

/// The credential of a new session key, from one second since 1970 until another. The session key, of the server's type, is drawn, and
/// the confounder of the ticket's seal. Usage where the ticket is longer than a cache may hold.
#[tactic(auto, unfolding(crate::specs::Making::credential_for))]
pub fn credential_for(
    alloc: Global,
    client: Principal,
    service: ServiceKey,
    since: u64,
    until: u64,
    draws: &[u8; DRAWS],
) -> Result<Credential, NoFile>
    ensures exact { Gives NoFile.NoMemory (λ c. c) result
        (credential_for client service since until draws.now) }
    ensures opens { IfOk result (λ c. TicketOpens client service c.session since until
        (drawn_confounder draws.now)) }
{
    let session = session_of(service.key.etype(), draws);
    let confounder = confounder_of(draws);
    let ticket = ticket_for(
        alloc,
        &client,
        &service,
        &session,
        since,
        until,
        &confounder,
    )?;
    if ticket.as_slice().len() > MOST_TICKET {
        return Err(NoFile::Usage);
    }
    Ok(Credential {
        client,
        server: service.server,
        session,
        ticket,
    })
}

/// These seconds as a cache has them.
fn times_of(since: u64, until: u64) -> Times
    ensures { result ≡ times_of since until }
{
    Times {
        authtime: since.min(u32::MAX as u64) as u32,
        endtime: until.min(u32::MAX as u64) as u32,
    }
}

/// A cache with a ticket that serves for so many hours from this second on.
#[tactic(auto, unfolding(crate::specs::Making::ccache_from))]
fn ccache_from(
    alloc: Global,
    client: Principal,
    service: ServiceKey,
    hours: u32,
    since: u64,
    draws: &[u8; DRAWS],
) -> Result<Octets, NoFile>
    requires { since ≤ 253402300799 }
    ensures { Gives NoFile.NoMemory (λ o. o) result
        (ccache_from client service hours since draws.now) }
{
    let until = since + hours as u64 * HOUR;
    let credential = credential_for(alloc, client, service, since, until, draws)?;
    let file = write_ccache(alloc, times_of(since, until), &credential)?;
    Ok(file)
}

/// The line of a verifier file.
#[tactic(auto, unfolding(crate::specs::Making::verifier_for))]
fn verifier_for(
    alloc: Global,
    user: &Text,
    password: &Text,
    salt: &Octets,
    rounds: u32,
) -> Result<Octets, NoFile>
    ensures { Gives NoFile.NoMemory (λ o. o) result
        (verifier_for user.now password.now salt.now rounds) }
{
    let salt = salt.as_slice();
    if salt.len() < 1 || salt.len() > 64 {
        return Err(NoFile::Usage);
    }
    match make_verifier(alloc, user.as_str(), password.as_str(), salt, rounds) {
        Ok(line) => Ok(line),
        Err(ScramRefusal::NoMemory) => Err(NoFile::NoMemory),
        Err(_) => Err(NoFile::Usage),
    }
}

/// The file that an order asks for.
fn file_for(alloc: Global, order: Order, now: Moment, draws: &[u8; DRAWS]) -> Result<Octets, NoFile>
    ensures { Gives NoFile.NoMemory (λ o. o) result (file_for now draws.now order) }
{
    match order {
        Order::Keytab { service } => {
            let file = write_keytab(alloc, &service)?;
            Ok(file)
        }
        Order::Ccache {
            client,
            service,
            hours,
        } => ccache_from(alloc, client, service, hours, now.secs(), draws),
        Order::Verifier {
            user,
            password,
            salt,
            rounds,
        } => verifier_for(alloc, &user, &password, &salt, rounds),
    }
}

/// The file that the words ask for, at this moment, with these drawn octets.
#[tactic(auto, unfolding(crate::specs::Making::file_of))]
pub fn make_file(
    alloc: Global,
    words: &[Text],
    now: Moment,
    draws: &[u8; DRAWS],
) -> Result<Octets, NoFile>
    ensures { Gives NoFile.NoMemory (λ o. o) result (file_of words.now now draws.now) }
{
    let order = read_order(alloc, words)?;
    let file = file_for(alloc, order, now, draws)?;
    Ok(file)
}
