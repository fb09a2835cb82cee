//! TransitedEncoding, RFC 4120 section 5.3.

use crate::field_reader::FieldReader;
use crate::sequence::{Sequence, read_sequence};
use crate::typed_octets::put_typed_octets;
use der_core::{DerRefusal, Element, Reader, Writer};
use sec_base::{NoMemory, Octets};
use std::alloc::Global;

/// The realms that a ticket came through.
///
/// | Tag | Field |
/// |---|---|
/// | 0 | tr-type |
/// | 1 | contents |
#[derive(Drop)]
pub struct TransitedEncoding {
    pub tr_type: i32,
    pub contents: Octets,
}

impl Element for TransitedEncoding {
    ghost use Rattle.krb_msgs.specs.TransitedEncoding.{transited_encoding};

    ghost format = { transited_encoding };

    fn read(alloc: Global, reader: &mut Reader) -> Result<TransitedEncoding, DerRefusal> {
        read_sequence(alloc, reader)
    }

    fn put(&self, alloc: Global, out: &mut Writer) -> Result<(), NoMemory> {
        put_typed_octets(alloc, out, &self.tr_type, &self.contents)
    }
}

impl Sequence for TransitedEncoding {
    ghost use Rattle.krb_msgs.specs.TransitedEncoding.{transited_encoding_content};

    ghost content = { transited_encoding_content };

    fn read_fields(alloc: Global, fields: &mut FieldReader) -> TransitedEncoding {
        let tr_type: i32 = fields.field(alloc, 0xa0);
        let contents: Octets = fields.field(alloc, 0xa1);
        fields.end();
        TransitedEncoding { tr_type, contents }
    }
}
