//! Messages that were read, written again. What a writer asks for is tested first.

ghost use Rattle.std.specs.Prelude.{◌≡◌, ◌≤◌, ◌%◌, IfSome, [], false, unwrap_or};
ghost use Rattle.der_core.specs.Values.{has_zero};
ghost use Rattle.krb_msgs.specs.PrincipalName.{IsName};

use gss_base::Principal;
use krb_msgs::{
    ApRep, Authenticator, EncApRepPart, EncTicketPart, KrbError, PrincipalName, Ticket,
    write_ap_rep, write_authenticator, write_enc_ap_rep_part, write_enc_ticket_part,
    write_krb_error, write_ticket,
};
use sec_base::{Moment, Octets, Text};
use std::alloc::Global;

/// Some where a realm and a name in it have a spelling.
#[tactic(auto, using(crate::proofs::Names::named, crate::proofs::Names::free))]
fn spelled(alloc: Global, realm: &Text, name: &PrincipalName) -> Option<()>
    ensures name { IfSome result (λ _. IsName realm.now name.now) }
    ensures realm { IfSome result (λ _. has_zero realm.now ≡ false) }
{
    match Principal::new(alloc, realm.as_str(), name.name_string.as_slice()) {
        Ok(_) => Some(()),
        Err(_) => None,
    }
}

/// Some where a name that may be there has a spelling, without a realm in the empty one.
fn maybe_spelled(alloc: Global, realm: &Option<Text>, name: &Option<PrincipalName>) -> Option<()>
    ensures { IfSome result (λ _. IfSome name.now (IsName (unwrap_or realm.now []))) }
{
    let Some(name) = name else {
        return Some(());
    };
    match realm {
        Some(realm) => spelled(alloc, realm, name),
        None => {
            let empty = Text::of(alloc, "").ok()?;
            spelled(alloc, &empty, name)
        }
    }
}

/// Some where a text that may be there has a spelling, as a realm of this name has.
fn maybe_text(alloc: Global, text: &Option<Text>, name: &PrincipalName) -> Option<()>
    ensures { IfSome result (λ _. IfSome text.now (λ t. has_zero t ≡ false)) }
{
    match text {
        None => Some(()),
        Some(text) => spelled(alloc, text, name),
    }
}

/// Some where a moment is one of whole seconds.
fn whole(moment: Moment) -> Option<()>
    ensures { IfSome result (λ _. moment % 1000000 ≡ 0) }
{
    if moment.micros() == 0 { Some(()) } else { None }
}

/// Some where a moment that may be there is one of whole seconds.
fn maybe_whole(moment: &Option<Moment>) -> Option<()>
    ensures { IfSome result (λ _. IfSome moment.now (λ m. m % 1000000 ≡ 0)) }
{
    match moment {
        None => Some(()),
        Some(moment) => whole(*moment),
    }
}

/// Some where microseconds are less than a second.
fn part(micros: u32) -> Option<()>
    ensures { IfSome result (λ _. micros ≤ 999999) }
{
    if micros <= 999_999 { Some(()) } else { None }
}

/// Some where microseconds that may be there are less than a second.
fn maybe_part(micros: &Option<u32>) -> Option<()>
    ensures { IfSome result (λ _. IfSome micros.now (λ n. n ≤ 999999)) }
{
    match micros {
        None => Some(()),
        Some(micros) => part(*micros),
    }
}

/// A ticket.
pub fn ticket(alloc: Global, message: &Ticket) -> Option<Octets> {
    spelled(alloc, &message.realm, &message.sname)?;
    write_ticket(alloc, message).ok()
}

/// A reply.
pub fn ap_rep(alloc: Global, message: &ApRep) -> Option<Octets> {
    write_ap_rep(alloc, message).ok()
}

/// A reply's part.
pub fn enc_ap_rep_part(alloc: Global, message: &EncApRepPart) -> Option<Octets> {
    whole(message.ctime)?;
    part(message.cusec)?;
    write_enc_ap_rep_part(alloc, message).ok()
}

/// An authenticator.
pub fn authenticator(alloc: Global, message: &Authenticator) -> Option<Octets> {
    spelled(alloc, &message.crealm, &message.cname)?;
    part(message.cusec)?;
    whole(message.ctime)?;
    write_authenticator(alloc, message).ok()
}

/// A ticket's part.
pub fn enc_ticket_part(alloc: Global, message: &EncTicketPart) -> Option<Octets> {
    spelled(alloc, &message.crealm, &message.cname)?;
    whole(message.authtime)?;
    maybe_whole(&message.starttime)?;
    whole(message.endtime)?;
    maybe_whole(&message.renew_till)?;
    write_enc_ticket_part(alloc, message).ok()
}

/// An error.
pub fn krb_error(alloc: Global, message: &KrbError) -> Option<Octets> {
    maybe_whole(&message.ctime)?;
    maybe_part(&message.cusec)?;
    whole(message.stime)?;
    part(message.susec)?;
    maybe_text(alloc, &message.crealm, &message.sname)?;
    maybe_spelled(alloc, &message.crealm, &message.cname)?;
    spelled(alloc, &message.realm, &message.sname)?;
    maybe_text(alloc, &message.e_text, &message.sname)?;
    write_krb_error(alloc, message).ok()
}
