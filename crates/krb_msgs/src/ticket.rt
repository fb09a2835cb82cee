//! Ticket, RFC 4120 section 5.3.

ghost use Rattle.std.specs.Prelude.{◌≡◌, Ok, IfOk, false};
ghost use Rattle.der_core.specs.Format.{all_of, MayRead, MayAnswer, WritesWhole};
ghost use Rattle.der_core.specs.Values.{has_zero};
ghost use Rattle.krb_msgs.specs.PrincipalName.{IsName};
ghost use Rattle.krb_msgs.specs.Ticket.{ticket_element, ticket};

use crate::EncryptedData;
use crate::field_reader::FieldReader;
use crate::field_writer::FieldWriter;
use crate::principal_name::PrincipalName;
use crate::sequence::{Sequence, read_message, read_whole};
use der_core::{DerRefusal, Reader};
use sec_base::{NoMemory, Octets, Text};
use std::alloc::Global;

/// A ticket: what the service opens with its own key.
///
/// | Tag | Field |
/// |---|---|
/// | 0 | tkt-vno, 5 |
/// | 1 | realm |
/// | 2 | sname |
/// | 3 | enc-part |
#[derive(Drop)]
pub struct Ticket {
    pub realm: Text,
    pub sname: PrincipalName,
    pub enc_part: EncryptedData,
}

/// Reads the message that all the octets are.
#[tactic(auto, unfolding(crate::specs::Ticket::ticket_element))]
pub fn read_ticket(alloc: Global, bytes: &[u8]) -> Result<Ticket, DerRefusal>
    ensures exact { MayAnswer (λ v. v) result (ticket.read (all_of bytes.now)) }
    ensures found { IfOk result (λ v. WritesWhole ticket v bytes.now) }
    ensures only { (v : _) → WritesWhole ticket v bytes.now → MayAnswer (λ x. x) result (Ok v) }
{
    read_whole(alloc, bytes, 0x61)
}

impl Sequence for Ticket {
    ghost use Rattle.krb_msgs.specs.Ticket.{ticket_content};

    ghost content = { ticket_content };

    fn read_fields(alloc: Global, fields: &mut FieldReader) -> Ticket {
        fields.constant(0xa0, 5);
        let realm: Text = fields.field(alloc, 0xa1);
        let sname = fields.name(alloc, 0xa2, &realm);
        let enc_part: EncryptedData = fields.field(alloc, 0xa3);
        fields.end();
        Ticket {
            realm,
            sname,
            enc_part,
        }
    }
}

/// Reads a ticket from the front.
pub fn ticket_from(alloc: Global, reader: &mut Reader) -> Result<Ticket, DerRefusal>
    ensures { MayRead (λ v. v) reader.new result (ticket_element.read reader.old) }
{
    read_message(alloc, reader, 0x61)
}

/// The message's octets.
#[tactic(auto, unfolding(crate::specs::Ticket::ticket_element))]
pub fn write_ticket(alloc: Global, v: &Ticket) -> Result<Octets, NoMemory>
    requires realm { has_zero v.now.realm ≡ false }
    requires sname { IsName v.now.realm v.now.sname }
    ensures { IfOk result (λ o. WritesWhole ticket v.now o) }
{
    let mut fields = FieldWriter::new(alloc)?;
    fields.constant(alloc, 0xa0, 5);
    fields.field(alloc, 0xa1, &v.realm);
    fields.name(alloc, 0xa2, &v.realm, &v.sname);
    fields.field(alloc, 0xa3, &v.enc_part);
    fields.into_message(alloc, 0x61)
}
