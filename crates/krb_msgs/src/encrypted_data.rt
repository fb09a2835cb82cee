//! EncryptedData, RFC 4120 section 5.2.9.

use crate::field_reader::FieldReader;
use crate::field_writer::FieldWriter;
use crate::sequence::{Sequence, read_sequence};
use der_core::{DerRefusal, Element, Reader, Writer};
use sec_base::{NoMemory, Octets};
use std::alloc::Global;

/// Data that a key has sealed.
///
/// | Tag | Field |
/// |---|---|
/// | 0 | etype |
/// | 1 | kvno, OPTIONAL |
/// | 2 | cipher |
#[derive(Drop)]
pub struct EncryptedData {
    pub etype: i32,
    pub kvno: Option<u32>,
    pub cipher: Octets,
}

impl Element for EncryptedData {
    ghost use Rattle.krb_msgs.specs.EncryptedData.{encrypted_data};

    ghost format = { encrypted_data };

    fn read(alloc: Global, reader: &mut Reader) -> Result<EncryptedData, DerRefusal> {
        read_sequence(alloc, reader)
    }

    fn put(&self, alloc: Global, out: &mut Writer) -> Result<(), NoMemory> {
        let mut fields = FieldWriter::new(alloc)?;
        fields.field(alloc, 0xa0, &self.etype);
        fields.optional(alloc, 0xa1, &self.kvno);
        fields.field(alloc, 0xa2, &self.cipher);
        fields.put_into(out)
    }
}

impl Sequence for EncryptedData {
    ghost use Rattle.krb_msgs.specs.EncryptedData.{encrypted_data_content};

    ghost content = { encrypted_data_content };

    fn read_fields(alloc: Global, fields: &mut FieldReader) -> EncryptedData {
        let etype: i32 = fields.field(alloc, 0xa0);
        let kvno = fields.optional(alloc, 0xa1);
        let cipher: Octets = fields.field(alloc, 0xa2);
        fields.end();
        EncryptedData {
            etype,
            kvno,
            cipher,
        }
    }
}
