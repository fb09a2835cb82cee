//! HostAddress, RFC 4120 section 5.2.5.

use crate::field_reader::FieldReader;
use crate::sequence::{Sequence, read_sequence};
use crate::typed_octets::put_typed_octets;
use der_core::{DerRefusal, Element, Reader, Writer};
use sec_base::{NoMemory, Octets};
use std::alloc::Global;

/// An address of a host.
///
/// | Tag | Field |
/// |---|---|
/// | 0 | addr-type |
/// | 1 | address |
#[derive(Drop)]
pub struct HostAddress {
    pub addr_type: i32,
    pub address: Octets,
}

impl Element for HostAddress {
    ghost use Rattle.krb_msgs.specs.HostAddress.{host_address};

    ghost format = { host_address };

    fn read(alloc: Global, reader: &mut Reader) -> Result<HostAddress, DerRefusal> {
        read_sequence(alloc, reader)
    }

    fn put(&self, alloc: Global, out: &mut Writer) -> Result<(), NoMemory> {
        put_typed_octets(alloc, out, &self.addr_type, &self.address)
    }
}

impl Sequence for HostAddress {
    ghost use Rattle.krb_msgs.specs.HostAddress.{host_address_content};

    ghost content = { host_address_content };

    fn read_fields(alloc: Global, fields: &mut FieldReader) -> HostAddress {
        let addr_type: i32 = fields.field(alloc, 0xa0);
        let address: Octets = fields.field(alloc, 0xa1);
        fields.end();
        HostAddress { addr_type, address }
    }
}
