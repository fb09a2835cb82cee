//! DER values at the front of octets, the frame of a first token, and fields.

use der_core::{DerRefusal, Reader, Writer, frame, unframe};
use sec_base::{Moment, NoMemory, Octets, Oid};
use std::alloc::Global;
use table_rows::{Cells, Said};

/// Says a refusal: why, and the place.
pub fn refused(said: &mut Said, refusal: DerRefusal) {
    said.form(&refusal.why);
    said.number(refusal.at as u64);
}

/// Says that octets are read, and where they aren't written again as they were, that they are written otherwise, or not at all.
pub fn written_as(said: &mut Said, read: &[u8], written: Option<Octets>) {
    match written {
        Some(written) => {
            if written.as_slice() != read {
                said.word("is written otherwise");
            }
        }
        None => said.word("isn't written"),
    }
    said.word("Ok");
}

/// A value that was read.
#[derive(Drop)]
enum Value<'a> {
    /// INTEGER of 32 bits with a sign.
    Int32(i32),
    /// INTEGER of 32 bits without one.
    Uint32(u32),
    /// INTEGER that is 5 alone.
    Five(u32),
    /// ENUMERATED.
    Small(u8),
    /// BIT STRING of 32 bits.
    Flags(u32),
    /// OCTET STRING.
    Octets(&'a [u8]),
    /// GeneralString, which isn't written here: `messages.txt` has texts that are.
    Text(&'a str),
    /// OBJECT IDENTIFIER.
    Oid(Oid),
    /// GeneralizedTime.
    Time(Moment),
    /// The content of a SEQUENCE.
    Sequence(&'a [u8]),
    /// The whole of a SEQUENCE, as of any other call.
    Raw(&'a [u8]),
}

/// What a call reads.
fn value_in<'a>(reader: &mut Reader<'a>, call: &str) -> Result<Value<'a>, DerRefusal> {
    match call {
        "int32" => Ok(Value::Int32(reader.int32()?)),
        "uint32" => Ok(Value::Uint32(reader.uint32()?)),
        "five" => Ok(Value::Five(reader.natural(5, 5)?)),
        "small" => Ok(Value::Small(reader.small()?)),
        "flags" => Ok(Value::Flags(reader.flags()?)),
        "octets" => Ok(Value::Octets(reader.octets()?)),
        "text" => Ok(Value::Text(reader.text()?)),
        "oid" => Ok(Value::Oid(reader.oid()?)),
        "time" => Ok(Value::Time(reader.time()?)),
        "seq" => Ok(Value::Sequence(reader.tlv(0x30)?.rest())),
        _ => Ok(Value::Raw(reader.raw(0x30)?)),
    }
}

/// Says a value.
fn value_said(said: &mut Said, value: &Value<'_>) {
    match value {
        Value::Int32(number) => said.signed(i64::from(*number)),
        Value::Uint32(number) | Value::Five(number) | Value::Flags(number) => {
            said.number(u64::from(*number));
        }
        Value::Small(number) => said.number(u64::from(*number)),
        Value::Octets(content) | Value::Sequence(content) | Value::Raw(content) => {
            said.octets(content);
        }
        Value::Text(text) => said.octets(text.as_bytes()),
        Value::Oid(oid) => said.octets(oid.content()),
        Value::Time(moment) => said.number(moment.secs()),
    }
}

/// Writes a value that has a call to write it, and nothing for another.
fn put(out: &mut Writer, value: &Value<'_>) -> Result<(), NoMemory> {
    match value {
        Value::Int32(number) => out.put_int32(*number),
        Value::Uint32(number) => out.put_uint32(*number),
        Value::Five(5) => out.put_natural(5, 5, 5),
        Value::Small(number) => {
            if *number < 128 {
                return out.put_small(*number);
            }
            Ok(())
        }
        Value::Flags(number) => out.put_flags(*number),
        Value::Octets(content) => out.put_octets(content),
        Value::Oid(oid) => out.put_oid(oid),
        Value::Time(moment) => {
            if moment.micros() == 0 {
                return out.put_time(*moment);
            }
            Ok(())
        }
        Value::Sequence(content) => out.put_tlv(0x30, content),
        Value::Five(_) | Value::Text(_) | Value::Raw(_) => Ok(()),
    }
}

/// A value as it is written.
fn written(alloc: Global, value: &Value<'_>) -> Option<Octets> {
    let mut out = Writer::new(alloc).ok()?;
    put(&mut out, value).ok()?;
    out.finish().ok()
}

/// Says that a value was read where these octets stand, which are those that are written for it.
fn found(said: &mut Said, front: &[u8], value: &Value<'_>) {
    match value {
        Value::Text(_) => said.word("Ok"),
        Value::Raw(whole) => written_as(said, front, Octets::of(said.alloc(), whole).ok()),
        value => written_as(said, front, written(said.alloc(), value)),
    }
    value_said(said, value);
}

/// Says what a call reads at the front of octets and the place behind it, or the refusal, at which the reader stands where it stood.
fn read_front(said: &mut Said, octets: &[u8], call: &str) {
    let mut reader = Reader::new(octets);
    match value_in(&mut reader, call) {
        Ok(value) => {
            let place = reader.place();
            found(said, octets.get(..place).unwrap_or(&[]), &value);
            said.number(place as u64);
        }
        Err(refusal) => {
            if reader.place() != 0 {
                said.word("the reader went on");
            }
            refused(said, refusal);
        }
    }
}

/// Says the identifier of a frame and what stands behind it, where they are framed as they stood.
fn framed(said: &mut Said, octets: &[u8]) {
    match unframe(octets) {
        Ok((oid, inner)) => {
            let framed = frame(said.alloc(), &oid, inner).ok();
            written_as(said, octets, framed);
            said.octets(oid.content());
            said.octets(inner);
        }
        Err(refusal) => refused(said, refusal),
    }
}

/// The cells call and octets: what the call reads at their front, or the refusal.
pub fn read(cells: &mut Cells<'_>, said: &mut Said) {
    let (call, octets) = (cells.word(), cells.octets());
    if call == "unframe" {
        framed(said, octets.as_slice());
    } else {
        read_front(said, octets.as_slice(), call);
    }
}
