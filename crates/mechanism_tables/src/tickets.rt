//! A ticket that is sealed.

ghost use Rattle.std.specs.Prelude.{◌≡◌, ◌%◌, IfSome, false};
ghost use Rattle.der_core.specs.Values.{has_zero};
ghost use Rattle.krb_msgs.specs.PrincipalName.{IsName};

use crate::kerberos::{key_in, principal_in};
use ap_exchange::{names_of, seal_ticket};
use gss_base::Principal;
use krb_derive::Key;
use krb_msgs::{EncTicketPart, EncryptionKey, PrincipalName, TransitedEncoding};
use sec_base::{Moment, Octets, Text};
use std::alloc::Global;
use table_rows::{Cells, Said};

/// The session key of the cells type and octets, whatever the type.
fn session_in(cells: &mut Cells<'_>) -> EncryptionKey {
    let number = i32::try_from(cells.signed());
    cells.expect(number.is_ok());
    EncryptionKey {
        keytype: number.unwrap_or(0),
        keyvalue: Octets::from_vec(cells.octets()),
    }
}

/// The moment of a cell of whole seconds.
fn whole(cells: &mut Cells<'_>) -> Moment
    ensures { result % 1000000 ≡ 0 }
{
    match Moment::new(cells.number(), 0) {
        Some(moment) => moment,
        None => {
            cells.expect(false);
            Moment::start()
        }
    }
}

/// The moment of such a cell, none for `-`.
fn whole_or_none(cells: &mut Cells<'_>) -> Option<Moment>
    ensures { IfSome result (λ m. m % 1000000 ≡ 0) }
{
    let cell = cells.word();
    if cell == "-" {
        return None;
    }
    let mut one = Cells::new(cells.alloc(), cell, ' ');
    let moment = whole(&mut one);
    cells.expect(one.are_well());
    Some(moment)
}

/// The four times of what a ticket seals.
#[derive(Drop)]
struct Times {
    authtime: Moment,
    starttime: Option<Moment>,
    endtime: Moment,
    renew_till: Option<Moment>,
}

/// The cells of the four times.
fn times_in(cells: &mut Cells<'_>) -> Times
    ensures authtime { result.authtime % 1000000 ≡ 0 }
    ensures starttime { IfSome result.starttime (λ m. m % 1000000 ≡ 0) }
    ensures endtime { result.endtime % 1000000 ≡ 0 }
    ensures renew_till { IfSome result.renew_till (λ m. m % 1000000 ≡ 0) }
{
    let authtime = whole(cells);
    let starttime = whole_or_none(cells);
    let endtime = whole(cells);
    let renew_till = whole_or_none(cells);
    Times {
        authtime,
        starttime,
        endtime,
        renew_till,
    }
}

/// What a ticket seals, by its flags, session key, client's realm and name, and times.
fn part_of(
    flags: u32,
    key: EncryptionKey,
    crealm: Text,
    cname: PrincipalName,
    times: Times,
    contents: Octets,
) -> EncTicketPart
    ensures crealm { result.crealm ≡ crealm }
    ensures cname { result.cname ≡ cname }
    ensures authtime { result.authtime ≡ times.authtime }
    ensures starttime { result.starttime ≡ times.starttime }
    ensures endtime { result.endtime ≡ times.endtime }
    ensures renew_till { result.renew_till ≡ times.renew_till }
{
    EncTicketPart {
        flags,
        key,
        crealm,
        cname,
        transited: TransitedEncoding {
            tr_type: 1,
            contents,
        },
        authtime: times.authtime,
        starttime: times.starttime,
        endtime: times.endtime,
        renew_till: times.renew_till,
        caddr: None,
        authorization_data: None,
    }
}

/// What a ticket seals for this client.
fn part_for(
    alloc: Global,
    flags: u32,
    key: EncryptionKey,
    client: &Principal,
    times: Times,
) -> Option<EncTicketPart>
    requires authtime { times.authtime % 1000000 ≡ 0 }
    requires starttime { IfSome times.starttime (λ m. m % 1000000 ≡ 0) }
    requires endtime { times.endtime % 1000000 ≡ 0 }
    requires renew_till { IfSome times.renew_till (λ m. m % 1000000 ≡ 0) }
    ensures crealm { IfSome result (λ p. has_zero p.crealm ≡ false) }
    ensures cname { IfSome result (λ p. IsName p.crealm p.cname) }
    ensures authtime { IfSome result (λ p. p.authtime % 1000000 ≡ 0) }
    ensures starttime { IfSome result (λ p. IfSome p.starttime (λ m. m % 1000000 ≡ 0)) }
    ensures endtime { IfSome result (λ p. p.endtime % 1000000 ≡ 0) }
    ensures renew_till { IfSome result (λ p. IfSome p.renew_till (λ m. m % 1000000 ≡ 0)) }
{
    match names_of(alloc, client) {
        Ok((crealm, cname)) => {
            let contents = Octets::from_vec(Vec::new(alloc));
            Some(part_of(flags, key, crealm, cname, times, contents))
        }
        Err(_no_memory) => {
            drop(key);
            None
        }
    }
}

/// The cells flags, session key, client and the four times of what a ticket seals.
fn part_in(cells: &mut Cells<'_>) -> Option<EncTicketPart>
    ensures crealm { IfSome result (λ p. has_zero p.crealm ≡ false) }
    ensures cname { IfSome result (λ p. IsName p.crealm p.cname) }
    ensures authtime { IfSome result (λ p. p.authtime % 1000000 ≡ 0) }
    ensures starttime { IfSome result (λ p. IfSome p.starttime (λ m. m % 1000000 ≡ 0)) }
    ensures endtime { IfSome result (λ p. p.endtime % 1000000 ≡ 0) }
    ensures renew_till { IfSome result (λ p. IfSome p.renew_till (λ m. m % 1000000 ≡ 0)) }
{
    let flags = cells.word_number();
    let key = session_in(cells);
    let client = principal_in(cells);
    let times = times_in(cells);
    match client {
        Some(client) => part_for(cells.alloc(), flags, key, &client, times),
        None => {
            drop(key);
            None
        }
    }
}

/// Under what a ticket is sealed: the service key, its number, and the server.
#[derive(Drop)]
struct Service {
    key: Option<Key>,
    kvno: u32,
    server: Option<Principal>,
}

/// The cells type and octets of the service key, its number, and the server.
fn service_in(cells: &mut Cells<'_>) -> Service {
    Service {
        key: key_in(cells),
        kvno: cells.word_number(),
        server: principal_in(cells),
    }
}

/// Says the ticket that seals this part with this confounder.
fn seal(
    cells: &mut Cells<'_>,
    said: &mut Said,
    service: &Service,
    part: &EncTicketPart,
    confounder: &[u8; 16],
)
    requires crealm { has_zero part.now.crealm ≡ false }
    requires cname { IsName part.now.crealm part.now.cname }
    requires authtime { part.now.authtime % 1000000 ≡ 0 }
    requires starttime { IfSome part.now.starttime (λ m. m % 1000000 ≡ 0) }
    requires endtime { part.now.endtime % 1000000 ≡ 0 }
    requires renew_till { IfSome part.now.renew_till (λ m. m % 1000000 ≡ 0) }
{
    let (alloc, kvno) = (cells.alloc(), service.kvno);
    match (&service.key, &service.server) {
        (Some(key), Some(server)) => {
            match seal_ticket(alloc, key, kvno, server, part, confounder) {
                Ok(ticket) => said.octets(ticket.as_slice()),
                Err(_no_memory) => said.starve(),
            }
        }
        _ => cells.expect(false),
    }
}

/// The ticket of a row.
pub fn answer(cells: &mut Cells<'_>, said: &mut Said) {
    let service = service_in(cells);
    let part = part_in(cells);
    let confounder = cells.exactly();
    match part {
        Some(part) => {
            seal(cells, said, &service, &part, &confounder);
            drop(part);
        }
        None => cells.expect(false),
    }
    drop(service);
}
