//! Messages of the exchange, read in the terms of its refusals.

ghost use Rattle.std.specs.Prelude.{◌≡◌, ◌≤◌, ◌%◌, IfOk, true, is_ok};
ghost use Rattle.sec_base.specs.Answers.{Gives};
ghost use Rattle.gss_base.specs.Principal.{is_named};
ghost use Rattle.der_core.specs.Format.{all_of};
ghost use Rattle.der_core.specs.Element.{kept};
ghost use Rattle.krb_msgs.specs.Ticket.{ticket, ticket_element};
ghost use Rattle.krb_msgs.specs.EncTicketPart.{enc_ticket_part};
ghost use Rattle.krb_msgs.specs.Authenticator.{authenticator};
ghost use Rattle.krb_msgs.specs.ApRep.{ap_rep};
ghost use Rattle.krb_msgs.specs.EncApRepPart.{enc_ap_rep_part};
ghost use Rattle.ap_exchange.specs.Steps.{der_in};
ghost use Rattle.ap_exchange.specs.Reply.{error_told};

use crate::refusal::{ApRefusal, Part, refused};
use krb_msgs::{
    ApRep, Authenticator, EncApRepPart, EncTicketPart, Ticket, read_ap_rep, read_authenticator,
    read_enc_ap_rep_part, read_enc_ticket_part, read_krb_error, read_ticket,
};
use std::alloc::Global;

/// The ticket in these octets.
pub fn ticket_in(alloc: Global, octets: &[u8]) -> Result<Ticket, ApRefusal>
    ensures exact { Gives ApRefusal.NoMemory (λ t. t) result
        (der_in Part.Ticket (ticket.read (all_of octets.now))) }
    ensures kept { IfOk result (λ _. (kept ticket_element).fits octets.now ≡ true) }
{
    match read_ticket(alloc, octets) {
        Ok(granted) => Ok(granted),
        Err(refusal) => Err(refused(Part::Ticket, refusal)),
    }
}

/// What an opened ticket says. Its client is a principal.
pub fn part_in(alloc: Global, octets: &[u8]) -> Result<EncTicketPart, ApRefusal>
    ensures exact { Gives ApRefusal.NoMemory (λ p. p) result
        (der_in Part.Ticket (enc_ticket_part.read (all_of octets.now))) }
    ensures named { IfOk result (λ p. is_named p.crealm p.cname.name_string ≡ true) }
{
    match read_enc_ticket_part(alloc, octets) {
        Ok(part) => Ok(part),
        Err(refusal) => Err(refused(Part::Ticket, refusal)),
    }
}

/// What an opened authenticator says. Its time is one of whole seconds.
pub fn authenticator_in(alloc: Global, octets: &[u8]) -> Result<Authenticator, ApRefusal>
    ensures exact { Gives ApRefusal.NoMemory (λ a. a) result
        (der_in Part.Authenticator (authenticator.read (all_of octets.now))) }
    ensures time { IfOk result (λ a. a.ctime % 1000000 ≡ 0) }
    ensures micros { IfOk result (λ a. a.cusec ≤ 999999) }
{
    match read_authenticator(alloc, octets) {
        Ok(said) => Ok(said),
        Err(refusal) => Err(refused(Part::Authenticator, refusal)),
    }
}

/// The reply in these octets.
pub fn reply_in(alloc: Global, octets: &[u8]) -> Result<ApRep, ApRefusal>
    ensures { Gives ApRefusal.NoMemory (λ r. r) result
        (der_in Part.Reply (ap_rep.read (all_of octets.now))) }
{
    match read_ap_rep(alloc, octets) {
        Ok(reply) => Ok(reply),
        Err(refusal) => Err(refused(Part::Reply, refusal)),
    }
}

/// What an opened reply says.
pub fn reply_part_in(alloc: Global, octets: &[u8]) -> Result<EncApRepPart, ApRefusal>
    ensures { Gives ApRefusal.NoMemory (λ p. p) result
        (der_in Part.Reply (enc_ap_rep_part.read (all_of octets.now))) }
{
    match read_enc_ap_rep_part(alloc, octets) {
        Ok(part) => Ok(part),
        Err(refusal) => Err(refused(Part::Reply, refusal)),
    }
}

/// The refusal that an error stands for.
#[tactic(auto, unfolding(crate::specs::Reply::error_told))]
pub fn error_told(alloc: Global, octets: &[u8]) -> Result<ApRep, ApRefusal>
    ensures { Gives ApRefusal.NoMemory (λ r. r) result (error_told octets.now) }
{
    match read_krb_error(alloc, octets) {
        Ok(error) => Err(ApRefusal::PeerError {
            code: error.error_code,
        }),
        Err(refusal) => Err(refused(Part::Reply, refusal)),
    }
}
