//! SEQUENCEs by their fields, and messages round them.

ghost use Rattle.std.specs.Prelude.{◌≡◌, IfOk};
ghost use Rattle.der_core.specs.Format.{Content, all_of, MayRead, MayAnswer};
ghost use Rattle.der_core.specs.Element.{element, whole};
ghost use Rattle.krb_msgs.specs.FieldReading.{ReadsAll};
ghost use Rattle.krb_msgs.specs.Message.{message, IsMessage};

use crate::field_reader::FieldReader;
use der_core::{DerRefusal, Reader, Writer};
use sec_base::{NoMemory, Octets};
use std::alloc::Global;

/// A type whose values are the fields of a SEQUENCE.
pub trait Sequence: Sized {
    ghost content: { Content Self };

    /// Reads the fields.
    fn read_fields(alloc: Global, fields: &mut FieldReader) -> Self
        ensures { ReadsAll content fields.old result fields.new };
}

/// Reads a SEQUENCE from the front.
pub fn read_sequence<T: Sequence + Drop>(
    alloc: Global,
    reader: &mut Reader,
) -> Result<T, DerRefusal>
    ensures { MayRead (λ v. v) reader.new result ((element 0x30 T.content).read reader.old) }
{
    let content = reader.tlv(0x30)?;
    let mut fields = FieldReader::new(content);
    let value = T::read_fields(alloc, &mut fields);
    match fields.fault {
        None => Ok(value),
        Some(fault) => Err(fault),
    }
}

/// Reads a SEQUENCE under the application's tag from the front.
pub fn read_message<T: Sequence + Drop>(
    alloc: Global,
    reader: &mut Reader,
    tag: u8,
) -> Result<T, DerRefusal>
    ensures { MayRead (λ v. v) reader.new result ((message tag T.content).read reader.old) }
{
    let mut body = reader.tlv(tag)?;
    let value = read_sequence(alloc, &mut body)?;
    body.end()?;
    Ok(value)
}

/// Reads the message that all the octets are.
pub fn read_whole<T: Sequence + Drop>(alloc: Global, bytes: &[u8], tag: u8) -> Result<T, DerRefusal>
    ensures { MayAnswer (λ v. v) result ((whole (message tag T.content)).read (all_of bytes.now)) }
{
    let mut reader = Reader::new(bytes);
    let value = read_message(alloc, &mut reader, tag)?;
    reader.end()?;
    Ok(value)
}

/// The octets of a message with these fields.
pub fn message_octets(alloc: Global, tag: u8, fields: &Writer) -> Result<Octets, NoMemory>
    ensures { IfOk result (IsMessage tag fields.now) }
{
    let mut body = Writer::new(alloc)?;
    body.put_tlv(0x30, fields.as_slice())?;
    let mut out = Writer::new(alloc)?;
    out.put_tlv(tag, body.as_slice())?;
    out.finish()
}
