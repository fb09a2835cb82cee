//! PrincipalName, RFC 4120 section 5.2.2.

ghost use Rattle.std.specs.Prelude.{◌≡◌, ◌≢◌, false, true, All, OnOk, IfOk, IfErr, IfSome, []};
ghost use Rattle.std.specs.Prelude.{unwrap_or};
ghost use Rattle.gss_base.specs.Principal.{is_count, is_named};
ghost use Rattle.der_core.specs.Format.{MayRead, Puts};
ghost use Rattle.der_core.specs.Element.{explicit};
ghost use Rattle.der_core.specs.Fields.{optional_at, PutsMaybe};
ghost use Rattle.der_core.specs.Values.{has_zero};
ghost use Rattle.krb_msgs.specs.FieldReading.{ReadsOn};
ghost use Rattle.krb_msgs.specs.FieldWriting.{PutsOn};
ghost use Rattle.krb_msgs.specs.PrincipalName.{name_parts, principal_name, name_in, IsName};

use crate::field_reader::FieldReader;
use crate::field_writer::FieldWriter;
use crate::sequence::{Sequence, read_sequence};
use der_core::{DerRefusal, DerWhy, Element, Reader, Writer};
use gss_base::{NameRefusal, Principal};
use sec_base::{Items, NoMemory, Text};
use std::alloc::Global;

/// A name without its realm. Two names are equal where their parts are, whatever the type.
///
/// | Tag | Field |
/// |---|---|
/// | 0 | name-type |
/// | 1 | name-string, 1 to 8 texts |
#[derive(Drop)]
pub struct PrincipalName {
    pub name_type: i32,
    pub name_string: Items<Text>,
}

impl PartialEq for PrincipalName {
    ghost use Rattle.krb_msgs.specs.SameParts.{same_parts, same_parts_per};

    ghost eq = { same_parts };

    ghost laws = { same_parts_per };

    fn eq(&self, other: &PrincipalName) -> bool {
        self.name_string == other.name_string
    }
}

/// The most parts of a name.
const MOST_PARTS: usize = 8;

/// Reads a name that is a principal in this realm.
pub fn name_field(
    alloc: Global,
    fields: &mut Reader,
    tag: u8,
    realm: &str,
) -> Result<PrincipalName, DerRefusal>
    ensures { MayRead (λ v. v) fields.new result
        ((explicit tag (name_in realm.now)).read fields.old) }
{
    let mut inner = fields.tlv(tag)?;
    let name = name_of_realm(alloc, &mut inner, realm)?;
    inner.end()?;
    Ok(name)
}

/// Reads a name that is a principal in this realm, where it is there; without a realm, in the empty one.
pub fn optional_name(
    alloc: Global,
    fields: &mut Reader,
    tag: u8,
    realm: &Option<Text>,
) -> Result<Option<PrincipalName>, DerRefusal>
    ensures { MayRead (λ v. v) fields.new result
        (optional_at tag (explicit tag (name_in (unwrap_or realm.now []))) fields.old) }
{
    if !fields.begins(tag) {
        return Ok(None);
    }
    match realm {
        None => {
            let name = name_field(alloc, fields, tag, "")?;
            Ok(Some(name))
        }
        Some(realm) => {
            let name = name_field(alloc, fields, tag, realm.as_str())?;
            Ok(Some(name))
        }
    }
}

#[tactic(auto, unfolding(crate::specs::PrincipalName::principal_name))]
fn name_of_realm(
    alloc: Global,
    reader: &mut Reader,
    realm: &str,
) -> Result<PrincipalName, DerRefusal>
    ensures { MayRead (λ v. v) reader.new result ((name_in realm.now).read reader.old) }
{
    let at = reader.place();
    let name: PrincipalName = read_sequence(alloc, reader)?;
    judge_name(alloc, realm, &name, at)?;
    Ok(name)
}

/// Refuses a name at this place that is no principal in this realm.
fn judge_name(alloc: Global, realm: &str, name: &PrincipalName, at: usize) -> Result<(), DerRefusal>
    ensures named { IfOk result (λ _. is_named realm.now name.now.name_string ≡ true) }
    ensures unnamed { IfErr result
        (λ e. e.why ≢ DerWhy.NoMemory → is_named realm.now name.now.name_string ≡ false) }
    ensures placed { IfErr result
        (λ e. e.why ≢ DerWhy.NoMemory → e ≡ record { at = at; why = DerWhy.Value }) }
{
    match Principal::new(alloc, realm, name.name_string.as_slice()) {
        Ok(_) => Ok(()),
        Err(NameRefusal::NoMemory) => Err(DerRefusal::from(NoMemory)),
        Err(_) => Err(DerRefusal {
            at,
            why: DerWhy::Value,
        }),
    }
}

impl Sequence for PrincipalName {
    ghost use Rattle.krb_msgs.specs.PrincipalName.{principal_name_content};

    ghost content = { principal_name_content };

    fn read_fields(alloc: Global, fields: &mut FieldReader) -> PrincipalName {
        let name_type: i32 = fields.field(alloc, 0xa0);
        let name_string = read_parts(alloc, fields);
        fields.end();
        PrincipalName {
            name_type,
            name_string,
        }
    }
}

/// Reads the field of the parts.
fn read_parts(alloc: Global, fields: &mut FieldReader) -> Items<Text>
    ensures { ReadsOn (explicit 0xa1 name_parts) fields.old result fields.new }
{
    let read = parts_field(alloc, &mut fields.left);
    fields.value(read, Items::of(Vec::new(alloc)))
}

fn parts_field(alloc: Global, fields: &mut Reader) -> Result<Items<Text>, DerRefusal>
    ensures { MayRead (λ v. v) fields.new result ((explicit 0xa1 name_parts).read fields.old) }
{
    let mut inner = fields.tlv(0xa1)?;
    let parts = counted_parts(alloc, &mut inner)?;
    inner.end()?;
    Ok(parts)
}

#[tactic(auto, unfolding(crate::specs::PrincipalName::name_parts))]
fn counted_parts(alloc: Global, reader: &mut Reader) -> Result<Items<Text>, DerRefusal>
    ensures { MayRead (λ v. v) reader.new result (name_parts.read reader.old) }
{
    let at = reader.place();
    let parts = Items::read(alloc, reader)?;
    let count = parts.as_slice().len();
    if count < 1 || count > MOST_PARTS {
        return Err(DerRefusal {
            at,
            why: DerWhy::Value,
        });
    }
    Ok(parts)
}

/// Adds a name that is a principal in this realm.
pub fn put_name_field(
    alloc: Global,
    out: &mut Writer,
    tag: u8,
    realm: &Text,
    name: &PrincipalName,
) -> Result<(), NoMemory>
    requires { IsName realm.now name.now }
    ensures { OnOk result (Puts (explicit tag (name_in realm.now)) name.now out.old out.new) }
{
    let mut inner = Writer::new(alloc)?;
    put_principal_name(alloc, &mut inner, name)?;
    out.put_tlv(tag, inner.as_slice())
}

/// Adds a name, where there is one.
pub fn put_optional_name(
    alloc: Global,
    out: &mut Writer,
    tag: u8,
    realm: &Option<Text>,
    name: &Option<PrincipalName>,
) -> Result<(), NoMemory>
    requires { IfSome name.now (IsName (unwrap_or realm.now [])) }
    ensures { OnOk result
        (PutsMaybe (explicit tag (name_in (unwrap_or realm.now []))) name.now out.old out.new) }
{
    match name {
        None => Ok(()),
        Some(name) => {
            let mut inner = Writer::new(alloc)?;
            put_principal_name(alloc, &mut inner, name)?;
            out.put_tlv(tag, inner.as_slice())
        }
    }
}

fn put_principal_name(alloc: Global, out: &mut Writer, name: &PrincipalName) -> Result<(), NoMemory>
    requires count { is_count name.now.name_string ≡ true }
    requires texts { All (λ t. has_zero t ≡ false) name.now.name_string }
    ensures { OnOk result (Puts principal_name name.now out.old out.new) }
{
    let mut fields = FieldWriter::new(alloc)?;
    fields.field(alloc, 0xa0, &name.name_type);
    put_parts(alloc, &mut fields, &name.name_string);
    fields.put_into(out)
}

/// Adds the field of the parts.
fn put_parts(alloc: Global, fields: &mut FieldWriter, parts: &Items<Text>)
    requires count { is_count parts.now ≡ true }
    requires texts { All (λ t. has_zero t ≡ false) parts.now }
    ensures { PutsOn (explicit 0xa1 name_parts) parts.now fields.old fields.new }
{
    let put = put_parts_field(alloc, &mut fields.out, parts);
    fields.note(put);
}

#[tactic(auto, unfolding(crate::specs::PrincipalName::name_parts))]
fn put_parts_field(alloc: Global, out: &mut Writer, parts: &Items<Text>) -> Result<(), NoMemory>
    requires count { is_count parts.now ≡ true }
    requires texts { All (λ t. has_zero t ≡ false) parts.now }
    ensures { OnOk result (Puts (explicit 0xa1 name_parts) parts.now out.old out.new) }
{
    let mut inner = Writer::new(alloc)?;
    parts.put(alloc, &mut inner)?;
    out.put_tlv(0xa1, inner.as_slice())
}
