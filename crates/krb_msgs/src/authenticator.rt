//! Authenticator, RFC 4120 section 5.5.1.

ghost use Rattle.std.specs.Prelude.{◌≡◌, ◌%◌, ◌≤◌, Ok, IfOk, false};
ghost use Rattle.der_core.specs.Format.{all_of, MayAnswer, WritesWhole};
ghost use Rattle.der_core.specs.Values.{has_zero};
ghost use Rattle.krb_msgs.specs.PrincipalName.{IsName};
ghost use Rattle.krb_msgs.specs.Authenticator.{authenticator_element, authenticator};

use crate::field_reader::FieldReader;
use crate::field_writer::FieldWriter;
use crate::principal_name::PrincipalName;
use crate::sequence::{Sequence, read_whole};
use crate::{AuthorizationDatum, Checksum, EncryptionKey};
use der_core::DerRefusal;
use sec_base::{Items, Moment, NoMemory, Octets, Text};
use std::alloc::Global;

/// What proves that the initiator knows the session key.
///
/// | Tag | Field |
/// |---|---|
/// | 0 | authenticator-vno, 5 |
/// | 1 | crealm |
/// | 2 | cname |
/// | 3 | cksum, OPTIONAL |
/// | 4 | cusec |
/// | 5 | ctime |
/// | 6 | subkey, OPTIONAL |
/// | 7 | seq-number, OPTIONAL |
/// | 8 | authorization-data, OPTIONAL |
#[derive(Drop)]
pub struct Authenticator {
    pub crealm: Text,
    pub cname: PrincipalName,
    pub cksum: Option<Checksum>,
    pub cusec: u32,
    pub ctime: Moment,
    pub subkey: Option<EncryptionKey>,
    pub seq_number: Option<u32>,
    pub authorization_data: Option<Items<AuthorizationDatum>>,
}

/// Reads the message that all the octets are.
#[tactic(auto, unfolding(crate::specs::Authenticator::authenticator_element))]
pub fn read_authenticator(alloc: Global, bytes: &[u8]) -> Result<Authenticator, DerRefusal>
    ensures exact { MayAnswer (λ v. v) result (authenticator.read (all_of bytes.now)) }
    ensures found { IfOk result (λ v. WritesWhole authenticator v bytes.now) }
    ensures only { (v : _) → WritesWhole authenticator v bytes.now
        → MayAnswer (λ x. x) result (Ok v) }
{
    read_whole(alloc, bytes, 0x62)
}

impl Sequence for Authenticator {
    ghost use Rattle.krb_msgs.specs.Authenticator.{authenticator_content};

    ghost content = { authenticator_content };

    fn read_fields(alloc: Global, fields: &mut FieldReader) -> Authenticator {
        fields.constant(0xa0, 5);
        let crealm: Text = fields.field(alloc, 0xa1);
        let cname = fields.name(alloc, 0xa2, &crealm);
        let cksum = fields.optional(alloc, 0xa3);
        let cusec = fields.micros(0xa4);
        let ctime: Moment = fields.field(alloc, 0xa5);
        let subkey = fields.optional(alloc, 0xa6);
        let seq_number = fields.optional(alloc, 0xa7);
        let authorization_data = fields.optional(alloc, 0xa8);
        fields.end();
        Authenticator {
            crealm,
            cname,
            cksum,
            cusec,
            ctime,
            subkey,
            seq_number,
            authorization_data,
        }
    }
}

/// The message's octets.
#[tactic(auto, unfolding(crate::specs::Authenticator::authenticator_element))]
pub fn write_authenticator(alloc: Global, v: &Authenticator) -> Result<Octets, NoMemory>
    requires crealm { has_zero v.now.crealm ≡ false }
    requires cname { IsName v.now.crealm v.now.cname }
    requires cusec { v.now.cusec ≤ 999999 }
    requires ctime { v.now.ctime % 1000000 ≡ 0 }
    ensures { IfOk result (λ o. WritesWhole authenticator v.now o) }
{
    let mut fields = FieldWriter::new(alloc)?;
    fields.constant(alloc, 0xa0, 5);
    fields.field(alloc, 0xa1, &v.crealm);
    fields.name(alloc, 0xa2, &v.crealm, &v.cname);
    fields.optional(alloc, 0xa3, &v.cksum);
    fields.micros(alloc, 0xa4, v.cusec);
    fields.field(alloc, 0xa5, &v.ctime);
    fields.optional(alloc, 0xa6, &v.subkey);
    fields.optional(alloc, 0xa7, &v.seq_number);
    fields.optional(alloc, 0xa8, &v.authorization_data);
    fields.into_message(alloc, 0x62)
}
