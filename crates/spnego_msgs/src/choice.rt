//! What both tokens have: their last fields, and the choice round the SEQUENCE.

ghost use Rattle.std.specs.Prelude.{◌≡◌, OnOk};
ghost use Rattle.der_core.specs.Format.{MayAnswer};
ghost use Rattle.der_core.specs.Element.{explicit, octet_string};
ghost use Rattle.der_core.specs.Fields.{done, with_optional};
ghost use Rattle.spnego_msgs.specs.Choice.{PutsChoice, both_end};

use der_core::{DerRefusal, Reader, Writer, optional};
use sec_base::{NoMemory, Octets};
use std::alloc::Global;

/// Reads the last two fields, where they are there, and no further one.
pub fn token_and_mic(
    alloc: Global,
    fields: &mut Reader,
) -> Result<(Option<Octets>, Option<Octets>), DerRefusal>
    ensures { MayAnswer (λ p. (p.0, (p.1, tt))) result
        ((with_optional 0xa2 (explicit 0xa2 octet_string)
        (with_optional 0xa3 (explicit 0xa3 octet_string) done)).read fields.old) }
{
    let token = optional(alloc, fields, 0xa2)?;
    let mic = optional(alloc, fields, 0xa3)?;
    match fields.end() {
        Ok(()) => Ok((token, mic)),
        Err(refusal) => Err(refusal),
    }
}

/// Refuses octets that are left in one of these, the inner first.
pub fn both_end(inner: &Reader, outer: &Reader) -> Result<(), DerRefusal>
    ensures { result ≡ both_end inner.now outer.now }
{
    match inner.end() {
        Ok(()) => outer.end(),
        Err(refusal) => Err(refusal),
    }
}

/// Adds the SEQUENCE of these fields, under the tag of its choice.
pub fn put_choice(alloc: Global, out: &mut Writer, tag: u8, fields: &[u8]) -> Result<(), NoMemory>
    ensures { OnOk result (PutsChoice tag fields.now out.old out.new) }
{
    let mut choice = Writer::new(alloc)?;
    choice.put_tlv(0x30, fields)?;
    out.put_tlv(tag, choice.as_slice())
}
