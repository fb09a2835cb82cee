//! Fields that have no type of their own.

ghost use Rattle.std.specs.Prelude.{◌≡◌, ◌≤◌, OnOk, IfSome};
ghost use Rattle.der_core.specs.Format.{MayRead, Puts};
ghost use Rattle.der_core.specs.Element.{explicit};
ghost use Rattle.der_core.specs.Fields.{optional_at, PutsMaybe};
ghost use Rattle.der_core.specs.Integer.{natural};
ghost use Rattle.der_core.specs.Values.{flags};
ghost use Rattle.krb_msgs.specs.Constant.{constant};

use der_core::{DerRefusal, Reader, Writer};
use sec_base::NoMemory;
use std::alloc::Global;

/// The most microseconds of a second.
const MOST_MICROS: u32 = 999_999;

/// Reads the field of a fixed number.
pub fn constant_field(fields: &mut Reader, tag: u8, number: u32) -> Result<(), DerRefusal>
    ensures { MayRead (λ v. v) fields.new result
        ((explicit tag (constant number)).read fields.old) }
{
    let mut inner = fields.tlv(tag)?;
    let _number = inner.natural(number, number)?;
    inner.end()?;
    Ok(())
}

/// Reads a field of flags.
pub fn flags_field(fields: &mut Reader, tag: u8) -> Result<u32, DerRefusal>
    ensures { MayRead (λ v. v) fields.new result ((explicit tag flags).read fields.old) }
{
    let mut inner = fields.tlv(tag)?;
    let value = inner.flags()?;
    inner.end()?;
    Ok(value)
}

/// Reads a field of microseconds.
pub fn micros_field(fields: &mut Reader, tag: u8) -> Result<u32, DerRefusal>
    ensures { MayRead (λ v. v) fields.new result
        ((explicit tag (natural 0 999999)).read fields.old) }
{
    let mut inner = fields.tlv(tag)?;
    let value = inner.natural(0, MOST_MICROS)?;
    inner.end()?;
    Ok(value)
}

/// Reads a field of microseconds, where it is there.
pub fn optional_micros(fields: &mut Reader, tag: u8) -> Result<Option<u32>, DerRefusal>
    ensures { MayRead (λ v. v) fields.new result
        (optional_at tag (explicit tag (natural 0 999999)) fields.old) }
{
    if !fields.begins(tag) {
        return Ok(None);
    }
    let value = micros_field(fields, tag)?;
    Ok(Some(value))
}

/// Adds the field of a fixed number.
pub fn put_constant_field(
    alloc: Global,
    out: &mut Writer,
    tag: u8,
    number: u32,
) -> Result<(), NoMemory>
    ensures { OnOk result (Puts (explicit tag (constant number)) tt out.old out.new) }
{
    let mut inner = Writer::new(alloc)?;
    inner.put_natural(number, number, number)?;
    out.put_tlv(tag, inner.as_slice())
}

/// Adds a field of flags.
pub fn put_flags_field(alloc: Global, out: &mut Writer, tag: u8, value: u32) -> Result<(), NoMemory>
    ensures { OnOk result (Puts (explicit tag flags) value out.old out.new) }
{
    let mut inner = Writer::new(alloc)?;
    inner.put_flags(value)?;
    out.put_tlv(tag, inner.as_slice())
}

/// Adds a field of microseconds.
pub fn put_micros_field(
    alloc: Global,
    out: &mut Writer,
    tag: u8,
    value: u32,
) -> Result<(), NoMemory>
    requires { value ≤ 999999 }
    ensures { OnOk result (Puts (explicit tag (natural 0 999999)) value out.old out.new) }
{
    let mut inner = Writer::new(alloc)?;
    inner.put_natural(value, 0, MOST_MICROS)?;
    out.put_tlv(tag, inner.as_slice())
}

/// Adds a field of microseconds, where there is one.
pub fn put_optional_micros(
    alloc: Global,
    out: &mut Writer,
    tag: u8,
    value: &Option<u32>,
) -> Result<(), NoMemory>
    requires { IfSome value.now (λ n. n ≤ 999999) }
    ensures { OnOk result (PutsMaybe (explicit tag (natural 0 999999)) value.now out.old out.new) }
{
    match value {
        None => Ok(()),
        Some(value) => put_micros_field(alloc, out, tag, *value),
    }
}
