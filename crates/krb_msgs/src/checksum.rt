//! Checksum, RFC 4120 section 5.2.9.

use crate::field_reader::FieldReader;
use crate::sequence::{Sequence, read_sequence};
use crate::typed_octets::put_typed_octets;
use der_core::{DerRefusal, Element, Reader, Writer};
use sec_base::{NoMemory, Octets};
use std::alloc::Global;

/// A checksum with its type.
///
/// | Tag | Field |
/// |---|---|
/// | 0 | cksumtype |
/// | 1 | checksum |
#[derive(Drop)]
pub struct Checksum {
    pub cksumtype: i32,
    pub checksum: Octets,
}

impl Element for Checksum {
    ghost use Rattle.krb_msgs.specs.Checksum.{checksum};

    ghost format = { checksum };

    fn read(alloc: Global, reader: &mut Reader) -> Result<Checksum, DerRefusal> {
        read_sequence(alloc, reader)
    }

    fn put(&self, alloc: Global, out: &mut Writer) -> Result<(), NoMemory> {
        put_typed_octets(alloc, out, &self.cksumtype, &self.checksum)
    }
}

impl Sequence for Checksum {
    ghost use Rattle.krb_msgs.specs.Checksum.{checksum_content};

    ghost content = { checksum_content };

    fn read_fields(alloc: Global, fields: &mut FieldReader) -> Checksum {
        let cksumtype: i32 = fields.field(alloc, 0xa0);
        let checksum: Octets = fields.field(alloc, 0xa1);
        fields.end();
        Checksum {
            cksumtype,
            checksum,
        }
    }
}
