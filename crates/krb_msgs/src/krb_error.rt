//! KrbError, RFC 4120 section 5.9.1.

ghost use Rattle.std.specs.Prelude.{◌≡◌, ◌%◌, ◌≤◌, Ok, IfOk, IfSome, false, unwrap_or, []};
ghost use Rattle.der_core.specs.Format.{all_of, MayAnswer, WritesWhole};
ghost use Rattle.der_core.specs.Values.{has_zero};
ghost use Rattle.krb_msgs.specs.PrincipalName.{IsName};
ghost use Rattle.krb_msgs.specs.KrbError.{krb_error_element, krb_error};

use crate::field_reader::FieldReader;
use crate::field_writer::FieldWriter;
use crate::principal_name::PrincipalName;
use crate::sequence::{Sequence, read_whole};
use der_core::DerRefusal;
use sec_base::{Moment, NoMemory, Octets, Text};
use std::alloc::Global;

/// An error in place of a reply.
///
/// | Tag | Field |
/// |---|---|
/// | 0 | pvno, 5 |
/// | 1 | msg-type, 30 |
/// | 2 | ctime, OPTIONAL |
/// | 3 | cusec, OPTIONAL |
/// | 4 | stime |
/// | 5 | susec |
/// | 6 | error-code |
/// | 7 | crealm, OPTIONAL |
/// | 8 | cname, OPTIONAL |
/// | 9 | realm |
/// | 10 | sname |
/// | 11 | e-text, OPTIONAL |
/// | 12 | e-data, OPTIONAL |
#[derive(Drop)]
pub struct KrbError {
    pub ctime: Option<Moment>,
    pub cusec: Option<u32>,
    pub stime: Moment,
    pub susec: u32,
    pub error_code: i32,
    pub crealm: Option<Text>,
    pub cname: Option<PrincipalName>,
    pub realm: Text,
    pub sname: PrincipalName,
    pub e_text: Option<Text>,
    pub e_data: Option<Octets>,
}

/// Reads the message that all the octets are.
#[tactic(auto, unfolding(crate::specs::KrbError::krb_error_element))]
pub fn read_krb_error(alloc: Global, bytes: &[u8]) -> Result<KrbError, DerRefusal>
    ensures exact { MayAnswer (λ v. v) result (krb_error.read (all_of bytes.now)) }
    ensures found { IfOk result (λ v. WritesWhole krb_error v bytes.now) }
    ensures only { (v : _) → WritesWhole krb_error v bytes.now → MayAnswer (λ x. x) result (Ok v) }
{
    read_whole(alloc, bytes, 0x7e)
}

impl Sequence for KrbError {
    ghost use Rattle.krb_msgs.specs.KrbError.{krb_error_content};

    ghost content = { krb_error_content };

    fn read_fields(alloc: Global, fields: &mut FieldReader) -> KrbError {
        fields.constant(0xa0, 5);
        fields.constant(0xa1, 30);
        let ctime = fields.optional(alloc, 0xa2);
        let cusec = fields.optional_micros(0xa3);
        let stime: Moment = fields.field(alloc, 0xa4);
        let susec = fields.micros(0xa5);
        let error_code: i32 = fields.field(alloc, 0xa6);
        let crealm = fields.optional(alloc, 0xa7);
        let cname = fields.optional_name(alloc, 0xa8, &crealm);
        let realm: Text = fields.field(alloc, 0xa9);
        let sname = fields.name(alloc, 0xaa, &realm);
        let e_text = fields.optional(alloc, 0xab);
        let e_data = fields.optional(alloc, 0xac);
        fields.end();
        KrbError {
            ctime,
            cusec,
            stime,
            susec,
            error_code,
            crealm,
            cname,
            realm,
            sname,
            e_text,
            e_data,
        }
    }
}

/// The message's octets.
#[tactic(auto, unfolding(crate::specs::KrbError::krb_error_element))]
pub fn write_krb_error(alloc: Global, v: &KrbError) -> Result<Octets, NoMemory>
    requires ctime { IfSome v.now.ctime (λ m. m % 1000000 ≡ 0) }
    requires cusec { IfSome v.now.cusec (λ m. m ≤ 999999) }
    requires stime { v.now.stime % 1000000 ≡ 0 }
    requires susec { v.now.susec ≤ 999999 }
    requires crealm { IfSome v.now.crealm (λ t. has_zero t ≡ false) }
    requires cname { IfSome v.now.cname (IsName (unwrap_or v.now.crealm [])) }
    requires realm { has_zero v.now.realm ≡ false }
    requires sname { IsName v.now.realm v.now.sname }
    requires e_text { IfSome v.now.e_text (λ t. has_zero t ≡ false) }
    ensures { IfOk result (λ o. WritesWhole krb_error v.now o) }
{
    let mut fields = FieldWriter::new(alloc)?;
    fields.constant(alloc, 0xa0, 5);
    fields.constant(alloc, 0xa1, 30);
    fields.optional(alloc, 0xa2, &v.ctime);
    fields.optional_micros(alloc, 0xa3, &v.cusec);
    fields.field(alloc, 0xa4, &v.stime);
    fields.micros(alloc, 0xa5, v.susec);
    fields.field(alloc, 0xa6, &v.error_code);
    fields.optional(alloc, 0xa7, &v.crealm);
    fields.optional_name(alloc, 0xa8, &v.crealm, &v.cname);
    fields.field(alloc, 0xa9, &v.realm);
    fields.name(alloc, 0xaa, &v.realm, &v.sname);
    fields.optional(alloc, 0xab, &v.e_text);
    fields.optional(alloc, 0xac, &v.e_data);
    fields.into_message(alloc, 0x7e)
}
