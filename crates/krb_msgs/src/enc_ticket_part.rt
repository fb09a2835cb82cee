//! EncTicketPart, RFC 4120 section 5.3.

ghost use Rattle.std.specs.Prelude.{◌≡◌, ◌%◌, Ok, IfOk, IfSome, false};
ghost use Rattle.der_core.specs.Format.{all_of, MayAnswer, WritesWhole};
ghost use Rattle.der_core.specs.Values.{has_zero};
ghost use Rattle.krb_msgs.specs.PrincipalName.{IsName};
ghost use Rattle.krb_msgs.specs.EncTicketPart.{enc_ticket_part_element, enc_ticket_part};

use crate::field_reader::FieldReader;
use crate::field_writer::FieldWriter;
use crate::principal_name::PrincipalName;
use crate::sequence::{Sequence, read_whole};
use crate::{AuthorizationDatum, EncryptionKey, HostAddress, TransitedEncoding};
use der_core::DerRefusal;
use sec_base::{Items, Moment, NoMemory, Octets, Text};
use std::alloc::Global;

/// What a ticket seals.
///
/// | Tag | Field |
/// |---|---|
/// | 0 | flags |
/// | 1 | key |
/// | 2 | crealm |
/// | 3 | cname |
/// | 4 | transited |
/// | 5 | authtime |
/// | 6 | starttime, OPTIONAL |
/// | 7 | endtime |
/// | 8 | renew-till, OPTIONAL |
/// | 9 | caddr, OPTIONAL |
/// | 10 | authorization-data, OPTIONAL |
#[derive(Drop)]
pub struct EncTicketPart {
    pub flags: u32,
    pub key: EncryptionKey,
    pub crealm: Text,
    pub cname: PrincipalName,
    pub transited: TransitedEncoding,
    pub authtime: Moment,
    pub starttime: Option<Moment>,
    pub endtime: Moment,
    pub renew_till: Option<Moment>,
    pub caddr: Option<Items<HostAddress>>,
    pub authorization_data: Option<Items<AuthorizationDatum>>,
}

/// Reads the message that all the octets are.
#[tactic(auto, unfolding(crate::specs::EncTicketPart::enc_ticket_part_element))]
pub fn read_enc_ticket_part(alloc: Global, bytes: &[u8]) -> Result<EncTicketPart, DerRefusal>
    ensures exact { MayAnswer (λ v. v) result (enc_ticket_part.read (all_of bytes.now)) }
    ensures found { IfOk result (λ v. WritesWhole enc_ticket_part v bytes.now) }
    ensures only { (v : _) → WritesWhole enc_ticket_part v bytes.now
        → MayAnswer (λ x. x) result (Ok v) }
{
    read_whole(alloc, bytes, 0x63)
}

impl Sequence for EncTicketPart {
    ghost use Rattle.krb_msgs.specs.EncTicketPart.{enc_ticket_part_content};

    ghost content = { enc_ticket_part_content };

    fn read_fields(alloc: Global, fields: &mut FieldReader) -> EncTicketPart {
        let flags = fields.flags(0xa0);
        let key: EncryptionKey = fields.field(alloc, 0xa1);
        let crealm: Text = fields.field(alloc, 0xa2);
        let cname = fields.name(alloc, 0xa3, &crealm);
        let transited: TransitedEncoding = fields.field(alloc, 0xa4);
        let authtime: Moment = fields.field(alloc, 0xa5);
        let starttime = fields.optional(alloc, 0xa6);
        let endtime: Moment = fields.field(alloc, 0xa7);
        let renew_till = fields.optional(alloc, 0xa8);
        let caddr = fields.optional(alloc, 0xa9);
        let authorization_data = fields.optional(alloc, 0xaa);
        fields.end();
        EncTicketPart {
            flags,
            key,
            crealm,
            cname,
            transited,
            authtime,
            starttime,
            endtime,
            renew_till,
            caddr,
            authorization_data,
        }
    }
}

/// The message's octets.
#[tactic(auto, unfolding(crate::specs::EncTicketPart::enc_ticket_part_element))]
pub fn write_enc_ticket_part(alloc: Global, v: &EncTicketPart) -> Result<Octets, NoMemory>
    requires crealm { has_zero v.now.crealm ≡ false }
    requires cname { IsName v.now.crealm v.now.cname }
    requires authtime { v.now.authtime % 1000000 ≡ 0 }
    requires starttime { IfSome v.now.starttime (λ m. m % 1000000 ≡ 0) }
    requires endtime { v.now.endtime % 1000000 ≡ 0 }
    requires renew_till { IfSome v.now.renew_till (λ m. m % 1000000 ≡ 0) }
    ensures { IfOk result (λ o. WritesWhole enc_ticket_part v.now o) }
{
    let mut fields = FieldWriter::new(alloc)?;
    fields.flags(alloc, 0xa0, v.flags);
    fields.field(alloc, 0xa1, &v.key);
    fields.field(alloc, 0xa2, &v.crealm);
    fields.name(alloc, 0xa3, &v.crealm, &v.cname);
    fields.field(alloc, 0xa4, &v.transited);
    fields.field(alloc, 0xa5, &v.authtime);
    fields.optional(alloc, 0xa6, &v.starttime);
    fields.field(alloc, 0xa7, &v.endtime);
    fields.optional(alloc, 0xa8, &v.renew_till);
    fields.optional(alloc, 0xa9, &v.caddr);
    fields.optional(alloc, 0xaa, &v.authorization_data);
    fields.into_message(alloc, 0x63)
}
