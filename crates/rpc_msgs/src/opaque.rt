//! Octets that are the whole of an argument or a result.

ghost use Rattle.std.specs.Prelude.{◌≡◌, ◌≤◌, IfOk, length};
ghost use Rattle.rpc_msgs.specs.Words.{opaque};
ghost use Rattle.rpc_msgs.specs.Xdr.{Answers};
ghost use Rattle.rpc_msgs.specs.Opaque.{opaque_alone};

use crate::xdr_reader::{XdrReader, XdrRefusal};

/// Octets of variable length, at most `limit`, that are all there is (RFC 4506 section 4.10).
#[tactic(auto, unfolding(crate::specs::Opaque::opaque_alone))]
pub fn opaque_alone(limit: u32, octets: &[u8]) -> Result<&[u8], XdrRefusal>
    ensures read { Answers (λ v. v.now) result (opaque_alone limit octets.now) }
    ensures spelled { IfOk result (λ v. (length v.now ≤ limit) × (octets.now ≡ opaque v.now)) }
{
    let mut reader = XdrReader::new(octets);
    let value = reader.opaque(limit)?;
    reader.end()?;
    Ok(value)
}
