//! The bodies of calls and replies, RFC 2203 section 5.3.2: the octets that are protected and what protects them.

ghost use Rattle.std.specs.Prelude.{◌≡◌, ◌<◌, ◌^◌, ◌++◌, length, IfOk, List, ℕ, Ok};
ghost use Rattle.rpc_msgs.specs.Words.{opaque};
ghost use Rattle.rpc_msgs.specs.Xdr.{Answers};
ghost use Rattle.rpcsec_msgs.specs.Bodies.{IsLong, checked_at, checked_octets, sealed_at};

use rpc_msgs::{XdrReader, XdrRefusal, XdrWriter};
use sec_base::{NoMemory, Octets};
use std::alloc::Global;

/// The octets of a body by integrity, and their MIC (section 5.3.2.2).
pub fn split_checked(bytes: &[u8]) -> Result<(&[u8], &[u8]), XdrRefusal>
    ensures exact { Answers (λ p. (p.0.now, p.1.now)) result (checked_at bytes.now) }
    ensures found { IfOk result (λ p. bytes.now ≡ checked_octets p.0.now p.1.now) }
    ensures only { (body tag : List ℕ)
        → IsLong body → IsLong tag → bytes.now ≡ checked_octets body tag
        → Answers {B = List ℕ × List ℕ} (λ p. (p.0.now, p.1.now)) result (Ok (body, tag)) }
{
    checked_in(bytes)
}

/// What `split_checked` answers.
/// It stands apart, so that its definition is unfolded here alone, and the other clauses are proved from what is said here.
#[tactic(auto, unfolding(crate::specs::Bodies::checked_at))]
fn checked_in(bytes: &[u8]) -> Result<(&[u8], &[u8]), XdrRefusal>
    ensures { Answers (λ p. (p.0.now, p.1.now)) result (checked_at bytes.now) }
{
    let mut reader = XdrReader::new(bytes);
    let body = reader.opaque(u32::MAX)?;
    let tag = reader.opaque(u32::MAX)?;
    reader.end()?;
    Ok((body, tag))
}

/// A body by integrity, of its octets and their MIC.
pub fn join_checked(alloc: Global, body: &[u8], tag: &[u8]) -> Result<Octets, NoMemory>
    requires body { length body.now < 2 ^ 32 }
    requires tag { length tag.now < 2 ^ 32 }
    ensures { IfOk result (λ octets. octets ≡ checked_octets body.now tag.now) }
{
    let mut out = XdrWriter::new(alloc);
    out.opaque(body)?;
    out.opaque(tag)?;
    Ok(out.finish())
}

/// The sealed token of a body by privacy (section 5.3.2.3).
pub fn split_sealed(bytes: &[u8]) -> Result<&[u8], XdrRefusal>
    ensures exact { Answers (λ token. token.now) result (sealed_at bytes.now) }
    ensures found { IfOk result (λ token. bytes.now ≡ opaque token.now) }
    ensures only { (token : List ℕ) → IsLong token → bytes.now ≡ opaque token
        → Answers (λ t. t.now) result (Ok token) }
{
    sealed_in(bytes)
}

/// What `split_sealed` answers.
/// It stands apart, so that its definition is unfolded here alone, and the other clauses are proved from what is said here.
#[tactic(auto, unfolding(crate::specs::Bodies::sealed_at))]
fn sealed_in(bytes: &[u8]) -> Result<&[u8], XdrRefusal>
    ensures { Answers (λ token. token.now) result (sealed_at bytes.now) }
{
    let mut reader = XdrReader::new(bytes);
    let token = reader.opaque(u32::MAX)?;
    reader.end()?;
    Ok(token)
}

/// A body by privacy, of its sealed token.
pub fn join_sealed(alloc: Global, token: &[u8]) -> Result<Octets, NoMemory>
    requires { length token.now < 2 ^ 32 }
    ensures { IfOk result (λ octets. octets ≡ opaque token.now) }
{
    let mut out = XdrWriter::new(alloc);
    out.opaque(token)?;
    Ok(out.finish())
}
