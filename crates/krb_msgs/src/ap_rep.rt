//! ApRep, RFC 4120 section 5.5.2.

ghost use Rattle.std.specs.Prelude.{◌≡◌, Ok, IfOk};
ghost use Rattle.der_core.specs.Format.{all_of, MayAnswer, WritesWhole};
ghost use Rattle.krb_msgs.specs.ApRep.{ap_rep_element, ap_rep};

use crate::EncryptedData;
use crate::field_reader::FieldReader;
use crate::field_writer::FieldWriter;
use crate::sequence::{Sequence, read_whole};
use der_core::DerRefusal;
use sec_base::{NoMemory, Octets};
use std::alloc::Global;

/// The reply of the acceptor.
///
/// | Tag | Field |
/// |---|---|
/// | 0 | pvno, 5 |
/// | 1 | msg-type, 15 |
/// | 2 | enc-part |
#[derive(Drop)]
pub struct ApRep {
    pub enc_part: EncryptedData,
}

/// Reads the message that all the octets are.
#[tactic(auto, unfolding(crate::specs::ApRep::ap_rep_element))]
pub fn read_ap_rep(alloc: Global, bytes: &[u8]) -> Result<ApRep, DerRefusal>
    ensures exact { MayAnswer (λ v. v) result (ap_rep.read (all_of bytes.now)) }
    ensures found { IfOk result (λ v. WritesWhole ap_rep v bytes.now) }
    ensures only { (v : _) → WritesWhole ap_rep v bytes.now → MayAnswer (λ x. x) result (Ok v) }
{
    read_whole(alloc, bytes, 0x6f)
}

impl Sequence for ApRep {
    ghost use Rattle.krb_msgs.specs.ApRep.{ap_rep_content};

    ghost content = { ap_rep_content };

    fn read_fields(alloc: Global, fields: &mut FieldReader) -> ApRep {
        fields.constant(0xa0, 5);
        fields.constant(0xa1, 15);
        let enc_part: EncryptedData = fields.field(alloc, 0xa2);
        fields.end();
        ApRep { enc_part }
    }
}

/// The message's octets.
#[tactic(auto, unfolding(crate::specs::ApRep::ap_rep_element))]
pub fn write_ap_rep(alloc: Global, v: &ApRep) -> Result<Octets, NoMemory>
    ensures { IfOk result (λ o. WritesWhole ap_rep v.now o) }
{
    let mut fields = FieldWriter::new(alloc)?;
    fields.constant(alloc, 0xa0, 5);
    fields.constant(alloc, 0xa1, 15);
    fields.field(alloc, 0xa2, &v.enc_part);
    fields.into_message(alloc, 0x6f)
}
