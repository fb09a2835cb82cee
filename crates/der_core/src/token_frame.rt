//! The frame of a mechanism's first token, RFC 2743 section 3.1.

ghost use Rattle.std.specs.Prelude.{◌≡◌, OnOk, IfOk, true};
ghost use Rattle.der_core.specs.Format.{Answers, all_of, SpelledWhole, WritesWhole};
ghost use Rattle.der_core.specs.Frame.{framed};

use crate::{DerRefusal, Reader, Writer};
use sec_base::{NoMemory, Octets, Oid};
use std::alloc::Global;

/// The tag of the frame, APPLICATION 0.
const FRAME: u8 = 0x60;

/// The frame round these octets: `60`, a length, the object identifier as an element, the octets.
#[tactic(auto, unfolding(crate::specs::Frame::framed))]
pub fn frame(alloc: Global, oid: &Oid, inner: &[u8]) -> Result<Octets, NoMemory>
    ensures { IfOk result (λ o. WritesWhole framed (oid.now, inner.now) o) }
{
    let mut content = Writer::new(alloc)?;
    content.put_oid(oid)?;
    content.put_raw(inner)?;
    let mut framed = Writer::new(alloc)?;
    framed.put_tlv(FRAME, content.as_slice())?;
    framed.finish()
}

/// The object identifier of a frame, and the octets behind it.
pub fn unframe(bytes: &[u8]) -> Result<(Oid, &[u8]), DerRefusal>
    ensures exact { Answers (λ p. (p.0, p.1.now)) result (framed.read (all_of bytes.now)) }
    ensures spelled { SpelledWhole (λ p. (p.0, p.1.now)) framed bytes.now result }
{
    unframed(bytes)
}

/// What `unframe` answers.
/// It stands apart, so that its definition is unfolded here alone, and the other clauses are proved from what is said here.
#[tactic(auto, unfolding(crate::specs::Frame::framed))]
fn unframed(bytes: &[u8]) -> Result<(Oid, &[u8]), DerRefusal>
    ensures { Answers (λ p. (p.0, p.1.now)) result (framed.read (all_of bytes.now)) }
{
    let mut reader = Reader::new(bytes);
    let mut content = reader.tlv(FRAME)?;
    let oid = content.oid()?;
    let inner = content.rest();
    reader.end()?;
    Ok((oid, inner))
}
