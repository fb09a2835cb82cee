//! EncApRepPart, RFC 4120 section 5.5.2.

ghost use Rattle.std.specs.Prelude.{◌≡◌, ◌%◌, ◌≤◌, Ok, IfOk};
ghost use Rattle.der_core.specs.Format.{all_of, MayAnswer, WritesWhole};
ghost use Rattle.krb_msgs.specs.EncApRepPart.{enc_ap_rep_part_element, enc_ap_rep_part};

use crate::EncryptionKey;
use crate::field_reader::FieldReader;
use crate::field_writer::FieldWriter;
use crate::sequence::{Sequence, read_whole};
use der_core::DerRefusal;
use sec_base::{Moment, NoMemory, Octets};
use std::alloc::Global;

/// What the reply seals.
///
/// | Tag | Field |
/// |---|---|
/// | 0 | ctime |
/// | 1 | cusec |
/// | 2 | subkey, OPTIONAL |
/// | 3 | seq-number, OPTIONAL |
#[derive(Drop)]
pub struct EncApRepPart {
    pub ctime: Moment,
    pub cusec: u32,
    pub subkey: Option<EncryptionKey>,
    pub seq_number: Option<u32>,
}

/// Reads the message that all the octets are.
#[tactic(auto, unfolding(crate::specs::EncApRepPart::enc_ap_rep_part_element))]
pub fn read_enc_ap_rep_part(alloc: Global, bytes: &[u8]) -> Result<EncApRepPart, DerRefusal>
    ensures exact { MayAnswer (λ v. v) result (enc_ap_rep_part.read (all_of bytes.now)) }
    ensures found { IfOk result (λ v. WritesWhole enc_ap_rep_part v bytes.now) }
    ensures only { (v : _) → WritesWhole enc_ap_rep_part v bytes.now
        → MayAnswer (λ x. x) result (Ok v) }
{
    read_whole(alloc, bytes, 0x7b)
}

impl Sequence for EncApRepPart {
    ghost use Rattle.krb_msgs.specs.EncApRepPart.{enc_ap_rep_part_content};

    ghost content = { enc_ap_rep_part_content };

    fn read_fields(alloc: Global, fields: &mut FieldReader) -> EncApRepPart {
        let ctime: Moment = fields.field(alloc, 0xa0);
        let cusec = fields.micros(0xa1);
        let subkey = fields.optional(alloc, 0xa2);
        let seq_number = fields.optional(alloc, 0xa3);
        fields.end();
        EncApRepPart {
            ctime,
            cusec,
            subkey,
            seq_number,
        }
    }
}

/// The message's octets.
#[tactic(auto, unfolding(crate::specs::EncApRepPart::enc_ap_rep_part_element))]
pub fn write_enc_ap_rep_part(alloc: Global, v: &EncApRepPart) -> Result<Octets, NoMemory>
    requires ctime { v.now.ctime % 1000000 ≡ 0 }
    requires cusec { v.now.cusec ≤ 999999 }
    ensures { IfOk result (λ o. WritesWhole enc_ap_rep_part v.now o) }
{
    let mut fields = FieldWriter::new(alloc)?;
    fields.field(alloc, 0xa0, &v.ctime);
    fields.micros(alloc, 0xa1, v.cusec);
    fields.optional(alloc, 0xa2, &v.subkey);
    fields.optional(alloc, 0xa3, &v.seq_number);
    fields.into_message(alloc, 0x7b)
}
