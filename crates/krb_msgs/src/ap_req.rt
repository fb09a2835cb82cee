//! ApReq, RFC 4120 section 5.5.1.

ghost use Rattle.std.specs.Prelude.{◌≡◌, Ok, OnOk, IfOk, true};
ghost use Rattle.der_core.specs.Format.{all_of, MayRead, MayAnswer, Puts, WritesWhole};
ghost use Rattle.der_core.specs.Element.{explicit, kept};
ghost use Rattle.krb_msgs.specs.FieldReading.{ReadsOn};
ghost use Rattle.krb_msgs.specs.FieldWriting.{PutsOn};
ghost use Rattle.krb_msgs.specs.Ticket.{ticket_element};
ghost use Rattle.krb_msgs.specs.ApReq.{ap_req_element, ap_req};

use crate::EncryptedData;
use crate::blank::Blank;
use crate::field_reader::FieldReader;
use crate::field_writer::FieldWriter;
use crate::sequence::{Sequence, read_whole};
use crate::ticket::ticket_from;
use der_core::{DerRefusal, Reader, Writer};
use sec_base::{NoMemory, Octets};
use std::alloc::Global;

/// The request of the initiator. The ticket is kept as its whole octets.
///
/// | Tag | Field |
/// |---|---|
/// | 0 | pvno, 5 |
/// | 1 | msg-type, 14 |
/// | 2 | ap-options |
/// | 3 | ticket |
/// | 4 | authenticator |
#[derive(Drop)]
pub struct ApReq {
    pub ap_options: u32,
    pub ticket: Octets,
    pub authenticator: EncryptedData,
}

/// Reads the message that all the octets are.
#[tactic(auto, unfolding(crate::specs::ApReq::ap_req_element))]
pub fn read_ap_req(alloc: Global, bytes: &[u8]) -> Result<ApReq, DerRefusal>
    ensures exact { MayAnswer (λ v. v) result (ap_req.read (all_of bytes.now)) }
    ensures found { IfOk result (λ v. WritesWhole ap_req v bytes.now) }
    ensures only { (v : _) → WritesWhole ap_req v bytes.now → MayAnswer (λ x. x) result (Ok v) }
{
    read_whole(alloc, bytes, 0x6e)
}

impl Sequence for ApReq {
    ghost use Rattle.krb_msgs.specs.ApReq.{ap_req_content};

    ghost content = { ap_req_content };

    fn read_fields(alloc: Global, fields: &mut FieldReader) -> ApReq {
        fields.constant(0xa0, 5);
        fields.constant(0xa1, 14);
        let ap_options = fields.flags(0xa2);
        let ticket = ticket_field(alloc, fields);
        let authenticator: EncryptedData = fields.field(alloc, 0xa4);
        fields.end();
        ApReq {
            ap_options,
            ticket,
            authenticator,
        }
    }
}

/// The message's octets.
#[tactic(auto, unfolding(crate::specs::ApReq::ap_req_element))]
pub fn write_ap_req(alloc: Global, v: &ApReq) -> Result<Octets, NoMemory>
    requires ticket { (kept ticket_element).fits v.now.ticket ≡ true }
    ensures { IfOk result (λ o. WritesWhole ap_req v.now o) }
{
    let mut fields = FieldWriter::new(alloc)?;
    fields.constant(alloc, 0xa0, 5);
    fields.constant(alloc, 0xa1, 14);
    fields.flags(alloc, 0xa2, v.ap_options);
    put_ticket(&mut fields, &v.ticket);
    fields.field(alloc, 0xa4, &v.authenticator);
    fields.into_message(alloc, 0x6e)
}

/// Reads the field of the ticket, and keeps its octets.
fn ticket_field(alloc: Global, fields: &mut FieldReader) -> Octets
    ensures { ReadsOn (explicit 0xa3 (kept ticket_element)) fields.old result fields.new }
{
    let read = kept_field(alloc, &mut fields.left);
    fields.value(read, Octets::blank(alloc))
}

fn kept_field(alloc: Global, fields: &mut Reader) -> Result<Octets, DerRefusal>
    ensures { MayRead (λ v. v) fields.new result
        ((explicit 0xa3 (kept ticket_element)).read fields.old) }
{
    let mut inner = fields.tlv(0xa3)?;
    let ticket = kept_ticket(alloc, &mut inner)?;
    inner.end()?;
    Ok(ticket)
}

fn kept_ticket(alloc: Global, reader: &mut Reader) -> Result<Octets, DerRefusal>
    ensures { MayRead (λ v. v) reader.new result ((kept ticket_element).read reader.old) }
{
    let octets = reader.rest();
    {
        let _ticket = ticket_from(alloc, reader)?;
    }
    let size = octets.len().saturating_sub(reader.left());
    let (ticket, _rest) = octets.split_at(size);
    let kept = Octets::of(alloc, ticket)?;
    Ok(kept)
}

/// Adds the field of the ticket.
fn put_ticket(fields: &mut FieldWriter, ticket: &Octets)
    requires { (kept ticket_element).fits ticket.now ≡ true }
    ensures { PutsOn (explicit 0xa3 (kept ticket_element)) ticket.now fields.old fields.new }
{
    let put = put_ticket_field(&mut fields.out, ticket);
    fields.note(put);
}

fn put_ticket_field(out: &mut Writer, ticket: &Octets) -> Result<(), NoMemory>
    requires { (kept ticket_element).fits ticket.now ≡ true }
    ensures { OnOk result (Puts (explicit 0xa3 (kept ticket_element)) ticket.now out.old out.new) }
{
    out.put_tlv(0xa3, ticket.as_slice())
}
