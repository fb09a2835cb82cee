//! Tickets for tests and drills.

ghost use Rattle.std.specs.Prelude.{◌≡◌, ◌%◌, IfOk, IfSome, false};
ghost use Rattle.der_core.specs.Format.{WritesWhole};
ghost use Rattle.der_core.specs.Values.{has_zero};
ghost use Rattle.krb_msgs.specs.PrincipalName.{IsName};
ghost use Rattle.krb_msgs.specs.Ticket.{ticket};
ghost use Rattle.krb_msgs.specs.EncTicketPart.{enc_ticket_part};
ghost use Rattle.ap_exchange.specs.Keys.{ticket_usage, SealedOpens};
ghost use Rattle.ap_exchange.specs.SealedTicket.{sealed_ticket};

use crate::keys::{TICKET_USAGE, sealed_data};
use crate::names::names_of;
use gss_base::Principal;
use krb_derive::Key;
use krb_msgs::{EncTicketPart, Ticket, write_enc_ticket_part, write_ticket};
use sec_base::{NoMemory, Octets};
use std::alloc::Global;

/// A ticket for a server whose key has this number, as a key distribution centre makes it: what it says, sealed under the
/// server's key. The ticket's part must have a spelling: its client is a principal, its times are of whole seconds.
pub fn seal_ticket(
    alloc: Global,
    service: &Key,
    kvno: u32,
    server: &Principal,
    part: &EncTicketPart,
    confounder: &[u8; 16],
) -> Result<Octets, NoMemory>
    requires crealm { has_zero part.now.crealm ≡ false }
    requires cname { IsName part.now.crealm part.now.cname }
    requires authtime { part.now.authtime % 1000000 ≡ 0 }
    requires starttime { IfSome part.now.starttime (λ m. m % 1000000 ≡ 0) }
    requires endtime { part.now.endtime % 1000000 ≡ 0 }
    requires renew_till { IfSome part.now.renew_till (λ m. m % 1000000 ≡ 0) }
    ensures written { IfOk result (λ o. WritesWhole ticket
        (sealed_ticket service.now kvno server.now part.now confounder.now) o) }
    ensures opens { IfOk result (λ _. SealedOpens service.now ticket_usage confounder.now
        (enc_ticket_part.spell part.now)) }
{
    let octets = write_enc_ticket_part(alloc, part)?;
    let sealed = sealed_data(
        alloc,
        service,
        Some(kvno),
        TICKET_USAGE,
        confounder,
        octets.as_slice(),
    );
    drop(octets);
    let enc_part = sealed?;
    let (realm, sname) = names_of(alloc, server)?;
    let granted = Ticket {
        realm,
        sname,
        enc_part,
    };
    let token = write_ticket(alloc, &granted);
    drop(granted);
    token
}
