//! Fields of a SEQUENCE under explicit tags, and lists, for any type whose values are single elements.

ghost use Rattle.std.specs.Prelude.{◌≡◌, ◌%◌, Result, Ok, OnOk, IfSome, All, List, false};
ghost use Rattle.der_core.specs.Format.{Format, MayRead, MayAnswer, Puts, PutsAll};
ghost use Rattle.der_core.specs.Element.{explicit, octet_string};
ghost use Rattle.der_core.specs.Fields.{PutsMaybe, optional_at, many, list_of};
ghost use Rattle.der_core.specs.Integer.{int32, uint32};
ghost use Rattle.der_core.specs.Time.{time};
ghost use Rattle.der_core.specs.Values.{has_zero, text, object_identifier};

use crate::{DerRefusal, Reader, Writer};
use sec_base::{Items, Moment, NoMemory, Octets, Oid, Text};
use std::alloc::Global;

/// A type whose values are spelled as one element each.
pub trait Element: Sized {
    ghost format: { Format Self };

    // What a value must be to have a spelling, its size aside.
    ghost can_put: { Self → Type 0 } = { λ _. Unit {0} };

    /// Reads a value from the front.
    fn read(alloc: Global, reader: &mut Reader) -> Result<Self, DerRefusal>
        ensures { MayRead (λ v. v) reader.new result (format.read reader.old) };

    /// Adds the value's spelling.
    fn put(&self, alloc: Global, out: &mut Writer) -> Result<(), NoMemory>
        requires { can_put self.now }
        ensures { OnOk result (Puts format self.now out.old out.new) };
}

/// INTEGER from -2147483648 to 2147483647.
impl Element for i32 {
    ghost format = { int32 };

    fn read(_alloc: Global, reader: &mut Reader) -> Result<i32, DerRefusal> {
        reader.int32()
    }

    fn put(&self, _alloc: Global, out: &mut Writer) -> Result<(), NoMemory> {
        out.put_int32(*self)
    }
}

/// INTEGER from 0 to 4294967295.
impl Element for u32 {
    ghost format = { uint32 };

    fn read(_alloc: Global, reader: &mut Reader) -> Result<u32, DerRefusal> {
        reader.uint32()
    }

    fn put(&self, _alloc: Global, out: &mut Writer) -> Result<(), NoMemory> {
        out.put_uint32(*self)
    }
}

/// OCTET STRING.
impl Element for Octets {
    ghost format = { octet_string };

    fn read(alloc: Global, reader: &mut Reader) -> Result<Octets, DerRefusal> {
        let octets = reader.octets()?;
        Ok(Octets::of(alloc, octets)?)
    }

    fn put(&self, _alloc: Global, out: &mut Writer) -> Result<(), NoMemory> {
        out.put_octets(self.as_slice())
    }
}

/// OBJECT IDENTIFIER.
impl Element for Oid {
    ghost format = { object_identifier };

    fn read(_alloc: Global, reader: &mut Reader) -> Result<Oid, DerRefusal> {
        reader.oid()
    }

    fn put(&self, _alloc: Global, out: &mut Writer) -> Result<(), NoMemory> {
        out.put_oid(self)
    }
}

/// GeneralString.
impl Element for Text {
    ghost format = { text };

    ghost can_put = { λ t. has_zero t ≡ false };

    fn read(alloc: Global, reader: &mut Reader) -> Result<Text, DerRefusal> {
        let text = match reader.text() {
            Ok(text) => text,
            Err(refusal) => return Err(refusal),
        };
        Ok(Text::of(alloc, text)?)
    }

    fn put(&self, _alloc: Global, out: &mut Writer) -> Result<(), NoMemory> {
        out.put_text(self.as_str())
    }
}

/// GeneralizedTime.
impl Element for Moment {
    ghost format = { time };

    ghost can_put = { λ m. m % 1000000 ≡ 0 };

    fn read(_alloc: Global, reader: &mut Reader) -> Result<Moment, DerRefusal> {
        reader.time()
    }

    fn put(&self, _alloc: Global, out: &mut Writer) -> Result<(), NoMemory> {
        out.put_time(*self)
    }
}

/// Reads the field under this explicit tag.
pub fn field<T: Element + Drop>(
    alloc: Global,
    fields: &mut Reader,
    tag: u8,
) -> Result<T, DerRefusal>
    ensures { MayRead (λ v. v) fields.new result ((explicit tag T.format).read fields.old) }
{
    let mut inner = fields.tlv(tag)?;
    let value = T::read(alloc, &mut inner)?;
    inner.end()?;
    Ok(value)
}

/// Reads the field under this explicit tag, where it is there.
pub fn optional<T: Element + Drop>(
    alloc: Global,
    fields: &mut Reader,
    tag: u8,
) -> Result<Option<T>, DerRefusal>
    ensures { MayRead (λ v. v) fields.new result
        (optional_at tag (explicit tag T.format) fields.old) }
{
    if !fields.begins(tag) {
        return Ok(None);
    }
    let value = field(alloc, fields, tag)?;
    Ok(Some(value))
}

/// Adds a field under this explicit tag.
pub fn put_field<T: Element>(
    alloc: Global,
    out: &mut Writer,
    tag: u8,
    value: &T,
) -> Result<(), NoMemory>
    requires { T.can_put value.now }
    ensures { OnOk result (Puts (explicit tag T.format) value.now out.old out.new) }
{
    let mut inner = Writer::new(alloc)?;
    value.put(alloc, &mut inner)?;
    out.put_tlv(tag, inner.as_slice())
}

/// Adds a field under this explicit tag, where there is one.
pub fn put_optional<T: Element>(
    alloc: Global,
    out: &mut Writer,
    tag: u8,
    value: &Option<T>,
) -> Result<(), NoMemory>
    requires { IfSome value.now T.can_put }
    ensures { OnOk result (PutsMaybe (explicit tag T.format) value.now out.old out.new) }
{
    match value {
        None => Ok(()),
        Some(value) => put_field(alloc, out, tag, value),
    }
}

/// SEQUENCE OF.
impl<T: Element + Drop> Element for Items<T> {
    ghost format = { list_of T.format };

    ghost can_put = { All T.can_put };

    fn read(alloc: Global, reader: &mut Reader) -> Result<Items<T>, DerRefusal> {
        let mut content = reader.tlv(0x30)?;
        let list = list(alloc, &mut content)?;
        Ok(Items::of(list))
    }

    fn put(&self, alloc: Global, out: &mut Writer) -> Result<(), NoMemory> {
        let mut content = Writer::new(alloc)?;
        put_list(alloc, &mut content, self.as_slice())?;
        out.put_tlv(0x30, content.as_slice())
    }
}

/// Reads values to the end.
fn list<T: Element + Drop>(alloc: Global, content: &mut Reader) -> Result<Vec<T>, DerRefusal>
    ensures { MayAnswer (λ v. v.items) result ((many T.format).read content.old) }
{
    let mut list = Vec::new(alloc);
    let count = content.left();
    for _ in 0..count {
        if content.left() == 0 {
            return Ok(list);
        }
        let value = T::read(alloc, content)?;
        list.push(value)?;
    }
    content.end()?;
    Ok(list)
}

/// Adds values one behind the other.
fn put_list<T: Element>(alloc: Global, out: &mut Writer, list: &[T]) -> Result<(), NoMemory>
    requires { All T.can_put list.now }
    ensures { OnOk result (PutsAll (many T.format) list.now out.old out.new) }
{
    for value in list {
        value.put(alloc, out)?;
    }
    Ok(())
}
