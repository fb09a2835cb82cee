//! Octets with their type, as keys, checksums and addresses have it.

ghost use Rattle.std.specs.Prelude.{◌≡◌, OnOk};
ghost use Rattle.der_core.specs.Format.{Puts};
ghost use Rattle.der_core.specs.Element.{element};
ghost use Rattle.krb_msgs.specs.TypedOctets.{typed_octets};

use crate::field_writer::FieldWriter;
use der_core::Writer;
use sec_base::{NoMemory, Octets};
use std::alloc::Global;

/// Adds the SEQUENCE of a type and octets.
pub fn put_typed_octets(
    alloc: Global,
    out: &mut Writer,
    kind: &i32,
    octets: &Octets,
) -> Result<(), NoMemory>
    ensures { OnOk result
        (Puts (element 0x30 typed_octets) (kind.now, (octets.now, tt)) out.old out.new) }
{
    let mut fields = FieldWriter::new(alloc)?;
    fields.field(alloc, 0xa0, kind);
    fields.field(alloc, 0xa1, octets);
    fields.put_into(out)
}
