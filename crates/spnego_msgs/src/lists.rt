//! The list of mechanisms, RFC 4178 section 4.1.

ghost use Rattle.std.specs.Prelude.{◌≡◌, true, IfOk, OnOk};
ghost use Rattle.der_core.specs.Format.{MayRead, Puts, PutsAll, Spells};
ghost use Rattle.der_core.specs.Element.{explicit};
ghost use Rattle.der_core.specs.Fields.{list_of, many};
ghost use Rattle.der_core.specs.Values.{object_identifier};
ghost use Rattle.spnego_msgs.specs.Lists.{is_count, mech_types, OneList};

use der_core::{DerRefusal, DerWhy, Element, Reader, Writer};
use sec_base::{Items, NoMemory, Octets, Oid};
use std::alloc::Global;

/// The tag of a SEQUENCE.
const SEQUENCE: u8 = 0x30;

/// The most mechanisms of a list.
const MOST: usize = 16;

/// The octets of a list of mechanisms as they stand in the token, over which both ends make its MIC.
pub fn list_bytes(alloc: Global, list: &[Oid]) -> Result<Octets, NoMemory>
    ensures { IfOk result (λ o. Spells (list_of object_identifier) list.now o) }
{
    let mut content = Writer::new(alloc)?;
    put_oids(&mut content, list)?;
    let mut out = Writer::new(alloc)?;
    out.put_tlv(SEQUENCE, content.as_slice())?;
    out.finish()
}

/// No two lists have the same octets, so a MIC over a list's octets speaks of that list alone.
pub fn prove_one_list()
    ensures { OneList }
{}

/// Adds the identifiers one behind the other.
fn put_oids(out: &mut Writer, list: &[Oid]) -> Result<(), NoMemory>
    ensures { OnOk result (PutsAll (many object_identifier) list.now out.old out.new) }
{
    for oid in list {
        out.put_oid(oid)?;
    }
    Ok(())
}

/// Reads the field of the list.
pub fn list_field(alloc: Global, fields: &mut Reader) -> Result<Items<Oid>, DerRefusal>
    ensures { MayRead (λ v. v) fields.new result ((explicit 0xa0 mech_types).read fields.old) }
{
    let mut inner = fields.tlv(0xa0)?;
    let list = counted_list(alloc, &mut inner)?;
    inner.end()?;
    Ok(list)
}

/// Reads a list of 1 to 16 identifiers.
#[tactic(auto, unfolding(crate::specs::Lists::mech_types))]
fn counted_list(alloc: Global, reader: &mut Reader) -> Result<Items<Oid>, DerRefusal>
    ensures { MayRead (λ v. v) reader.new result (mech_types.read reader.old) }
{
    let at = reader.place();
    let list = Items::read(alloc, reader)?;
    let count = list.as_slice().len();
    if count < 1 || count > MOST {
        return Err(DerRefusal {
            at,
            why: DerWhy::Value,
        });
    }
    Ok(list)
}

/// Adds the field of the list.
#[tactic(auto, unfolding(crate::specs::Lists::mech_types))]
pub fn put_list_field(alloc: Global, out: &mut Writer, list: &Items<Oid>) -> Result<(), NoMemory>
    requires { is_count list.now ≡ true }
    ensures { OnOk result (Puts (explicit 0xa0 mech_types) list.now out.old out.new) }
{
    let mut inner = Writer::new(alloc)?;
    list.put(alloc, &mut inner)?;
    out.put_tlv(0xa0, inner.as_slice())
}
