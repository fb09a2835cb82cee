//! AuthorizationDatum, RFC 4120 section 5.2.6.

use crate::field_reader::FieldReader;
use crate::sequence::{Sequence, read_sequence};
use crate::typed_octets::put_typed_octets;
use der_core::{DerRefusal, Element, Reader, Writer};
use sec_base::{NoMemory, Octets};
use std::alloc::Global;

/// One entry of the authorization data.
///
/// | Tag | Field |
/// |---|---|
/// | 0 | ad-type |
/// | 1 | ad-data |
#[derive(Drop)]
pub struct AuthorizationDatum {
    pub ad_type: i32,
    pub ad_data: Octets,
}

impl Element for AuthorizationDatum {
    ghost use Rattle.krb_msgs.specs.AuthorizationDatum.{authorization_datum};

    ghost format = { authorization_datum };

    fn read(alloc: Global, reader: &mut Reader) -> Result<AuthorizationDatum, DerRefusal> {
        read_sequence(alloc, reader)
    }

    fn put(&self, alloc: Global, out: &mut Writer) -> Result<(), NoMemory> {
        put_typed_octets(alloc, out, &self.ad_type, &self.ad_data)
    }
}

impl Sequence for AuthorizationDatum {
    ghost use Rattle.krb_msgs.specs.AuthorizationDatum.{authorization_datum_content};

    ghost content = { authorization_datum_content };

    fn read_fields(alloc: Global, fields: &mut FieldReader) -> AuthorizationDatum {
        let ad_type: i32 = fields.field(alloc, 0xa0);
        let ad_data: Octets = fields.field(alloc, 0xa1);
        fields.end();
        AuthorizationDatum { ad_type, ad_data }
    }
}
