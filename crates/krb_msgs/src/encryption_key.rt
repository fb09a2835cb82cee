//! EncryptionKey, RFC 4120 section 5.2.9.

use crate::field_reader::FieldReader;
use crate::sequence::{Sequence, read_sequence};
use crate::typed_octets::put_typed_octets;
use der_core::{DerRefusal, Element, Reader, Writer};
use sec_base::{NoMemory, Octets};
use std::alloc::Global;

/// A key with its type.
///
/// | Tag | Field |
/// |---|---|
/// | 0 | keytype |
/// | 1 | keyvalue |
#[derive(Drop)]
pub struct EncryptionKey {
    pub keytype: i32,
    pub keyvalue: Octets,
}

impl Element for EncryptionKey {
    ghost use Rattle.krb_msgs.specs.EncryptionKey.{encryption_key};

    ghost format = { encryption_key };

    fn read(alloc: Global, reader: &mut Reader) -> Result<EncryptionKey, DerRefusal> {
        read_sequence(alloc, reader)
    }

    fn put(&self, alloc: Global, out: &mut Writer) -> Result<(), NoMemory> {
        put_typed_octets(alloc, out, &self.keytype, &self.keyvalue)
    }
}

impl Sequence for EncryptionKey {
    ghost use Rattle.krb_msgs.specs.EncryptionKey.{encryption_key_content};

    ghost content = { encryption_key_content };

    fn read_fields(alloc: Global, fields: &mut FieldReader) -> EncryptionKey {
        let keytype: i32 = fields.field(alloc, 0xa0);
        let keyvalue: Octets = fields.field(alloc, 0xa1);
        fields.end();
        EncryptionKey { keytype, keyvalue }
    }
}
