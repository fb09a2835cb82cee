//! A request of Kerberos that comes without negotiation, RFC 4178 section 3.2.

ghost use Rattle.std.specs.Prelude.{◌≡◌};
ghost use Rattle.spnego_core.specs.Bare.{if_kerberos, kerberos_framed, takes_bare, bare_oid};

use crate::choice::{is_first, is_kind};
use crate::setup::AcceptSetup;
use der_core::unframe;
use gss_base::MechKind;
use sec_base::Oid;

/// The identifier, where it is one of Kerberos's two.
fn if_kerberos(oid: Oid) -> Option<Oid>
    ensures { result ≡ if_kerberos oid }
{
    if is_kind(MechKind::of(&oid), MechKind::Kerberos) {
        Some(oid)
    } else {
        None
    }
}

/// The identifier of Kerberos in a token's frame, where it has one there.
#[tactic(auto, unfolding(crate::specs::Bare::kerberos_framed))]
fn kerberos_framed(token: &[u8]) -> Option<Oid>
    ensures { result ≡ kerberos_framed token.now }
{
    match unframe(token) {
        Ok((oid, _)) => if_kerberos(oid),
        Err(_) => None,
    }
}

/// Whether requests are taken that come without negotiation.
fn takes_bare(setup: &AcceptSetup) -> bool
    ensures { result ≡ takes_bare setup.now }
{
    setup.bare && is_first(setup.offer.as_slice(), MechKind::Kerberos)
}

/// The identifier under which a first token is taken as Kerberos's own; none where it negotiates.
pub fn bare_oid(setup: &AcceptSetup, token: &[u8]) -> Option<Oid>
    ensures { result ≡ bare_oid setup.now token.now }
{
    if takes_bare(setup) {
        kerberos_framed(token)
    } else {
        None
    }
}
