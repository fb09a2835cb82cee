//! Context tokens, RFC 4121 section 4.1.

ghost use Rattle.std.specs.Prelude.{◌≡◌, ℕ, ◌∷◌, IfOk, drop, length};
ghost use Rattle.sec_base.specs.Answers.{Gives};
ghost use Rattle.gss_base.specs.Mech.{oid_of};
ghost use Rattle.gss_base.specs.declared.mech.MechKind.TheVariants.{Kerberos};
ghost use Rattle.der_core.specs.Format.{WritesWhole};
ghost use Rattle.der_core.specs.Frame.{framed};
ghost use Rattle.ap_exchange.specs.Tokens.{names_kerberos, inner_of, is_kind, message_of};

use crate::refusal::{ApRefusal, Part, refused};
use der_core::{DerWhy, frame, unframe};
use gss_base::MechKind;
use sec_base::{NoMemory, Octets, Oid};
use std::alloc::Global;

/// The first octet of what stands in the frame of a request.
pub const AP_REQ: u8 = 1;

/// The first octet of what stands in the frame of a reply.
pub const AP_REP: u8 = 2;

/// The first octet of what stands in the frame of an error.
pub const ERROR: u8 = 3;

/// Whether an object identifier is one of Kerberos's two.
fn names_kerberos(oid: &Oid) -> bool
    ensures { result ≡ names_kerberos oid.now }
{
    match MechKind::of(oid) {
        Some(MechKind::Kerberos) => true,
        Some(MechKind::Scram) => false,
        None => false,
    }
}

/// What stands in a token's frame.
#[tactic(auto, unfolding(crate::specs::Tokens::inner_of))]
pub fn inner_in(token: &[u8]) -> Result<&[u8], ApRefusal>
    ensures { Gives ApRefusal.NoMemory (λ o. o.now) result (inner_of token.now) }
{
    let (oid, inner) = match unframe(token) {
        Ok(parts) => parts,
        Err(refusal) => return Err(refused(Part::Token, refusal)),
    };
    if names_kerberos(&oid) {
        return Ok(inner);
    }
    let content = oid.content().len();
    Err(ApRefusal::Der {
        part: Part::Token,
        at: token
            .len()
            .saturating_sub(inner.len())
            .saturating_sub(content),
        why: DerWhy::Value,
    })
}

/// Whether what stands in a frame is of this kind.
pub fn is_kind(id: u8, inner: &[u8]) -> bool
    ensures kind { result ≡ is_kind id inner.now }
{
    match inner {
        [first, second, ..] => *first == id && *second == 0,
        [..] => false,
    }
}

/// The message behind the two octets that tell the kind.
pub fn message_in(inner: &[u8]) -> &[u8]
    ensures { result.now ≡ message_of inner.now }
{
    match inner {
        [_, _, message @ ..] => message,
        [..] => &[],
    }
}

/// The token of a message of this kind.
pub fn framed_message(alloc: Global, id: u8, message: &[u8]) -> Result<Octets, NoMemory>
    ensures { IfOk result (λ o. WritesWhole framed (oid_of Kerberos, id ∷ 0 ∷ message.now) o) }
{
    let mut inner = Vec::with_capacity(alloc, message.len().saturating_add(2))?;
    inner.push(id)?;
    inner.push(0)?;
    inner.extend_from_slice(message)?;
    frame(alloc, &MechKind::Kerberos.oid(), inner.as_slice())
}
