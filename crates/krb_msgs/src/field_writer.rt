//! The fields of a SEQUENCE, written one behind the other.

ghost use Rattle.std.specs.Prelude.{◌≡◌, ◌≤◌, IfOk, OnOk, IfSome, true, [], unwrap_or};
ghost use Rattle.der_core.specs.Element.{explicit};
ghost use Rattle.der_core.specs.Integer.{natural};
ghost use Rattle.der_core.specs.Values.{flags};
ghost use Rattle.krb_msgs.specs.Constant.{constant};
ghost use Rattle.krb_msgs.specs.PrincipalName.{name_in, IsName};
ghost use Rattle.krb_msgs.specs.Message.{IsMessage, PutsSequence};
ghost use Rattle.krb_msgs.specs.FieldWriting.{PutNoted, PutsOn, PutsOnMaybe};

use crate::PrincipalName;
use crate::common::{put_constant_field, put_flags_field, put_micros_field, put_optional_micros};
use crate::principal_name::{put_name_field, put_optional_name};
use crate::sequence::message_octets;
use der_core::{Element, Writer};
use sec_base::{NoMemory, Octets, Text};
use std::alloc::Global;

/// A writer that goes on after want of memory.
///
/// What writes the fields has no way out but its end: that memory wanted is noted, and what was written counts only where it
/// didn't.
#[derive(Drop)]
pub struct FieldWriter {
    pub out: Writer,
    pub is_whole: bool,
}

impl FieldWriter {
    /// No field yet.
    pub fn new(alloc: Global) -> Result<FieldWriter, NoMemory>
        ensures { IfOk result (λ f. f ≡ record { out = []; is_whole = true }) }
    {
        let out = Writer::new(alloc)?;
        Ok(FieldWriter {
            out,
            is_whole: true,
        })
    }

    /// Keeps whether memory wanted.
    pub fn note(&mut self, put: Result<(), NoMemory>)
        ensures { PutNoted put self.old self.new }
    {
        match put {
            Ok(()) => {}
            Err(_) => self.is_whole = false,
        }
    }

    /// The field of a fixed number.
    pub fn constant(&mut self, alloc: Global, tag: u8, number: u32)
        ensures { PutsOn (explicit tag (constant number)) tt self.old self.new }
    {
        let put = put_constant_field(alloc, &mut self.out, tag, number);
        self.note(put);
    }

    /// A field of flags.
    pub fn flags(&mut self, alloc: Global, tag: u8, value: u32)
        ensures { PutsOn (explicit tag flags) value self.old self.new }
    {
        let put = put_flags_field(alloc, &mut self.out, tag, value);
        self.note(put);
    }

    /// A field of microseconds.
    pub fn micros(&mut self, alloc: Global, tag: u8, value: u32)
        requires { value ≤ 999999 }
        ensures { PutsOn (explicit tag (natural 0 999999)) value self.old self.new }
    {
        let put = put_micros_field(alloc, &mut self.out, tag, value);
        self.note(put);
    }

    /// A field of microseconds, where there is one.
    pub fn optional_micros(&mut self, alloc: Global, tag: u8, value: &Option<u32>)
        requires { IfSome value.now (λ n. n ≤ 999999) }
        ensures { PutsOnMaybe (explicit tag (natural 0 999999)) value.now self.old self.new }
    {
        let put = put_optional_micros(alloc, &mut self.out, tag, value);
        self.note(put);
    }

    /// A field of one element.
    pub fn field<T: Element>(&mut self, alloc: Global, tag: u8, value: &T)
        requires { T.can_put value.now }
        ensures { PutsOn (explicit tag T.format) value.now self.old self.new }
    {
        let put = der_core::put_field(alloc, &mut self.out, tag, value);
        self.note(put);
    }

    /// A field of one element, where there is one.
    pub fn optional<T: Element>(&mut self, alloc: Global, tag: u8, value: &Option<T>)
        requires { IfSome value.now T.can_put }
        ensures { PutsOnMaybe (explicit tag T.format) value.now self.old self.new }
    {
        let put = der_core::put_optional(alloc, &mut self.out, tag, value);
        self.note(put);
    }

    /// A name that is a principal in this realm.
    pub fn name(&mut self, alloc: Global, tag: u8, realm: &Text, name: &PrincipalName)
        requires { IsName realm.now name.now }
        ensures { PutsOn (explicit tag (name_in realm.now)) name.now self.old self.new }
    {
        let put = put_name_field(alloc, &mut self.out, tag, realm, name);
        self.note(put);
    }

    /// A name, where there is one.
    pub fn optional_name(
        &mut self,
        alloc: Global,
        tag: u8,
        realm: &Option<Text>,
        name: &Option<PrincipalName>,
    )
        requires { IfSome name.now (IsName (unwrap_or realm.now [])) }
        ensures { PutsOnMaybe (explicit tag (name_in (unwrap_or realm.now []))) name.now self.old
            self.new }
    {
        let put = put_optional_name(alloc, &mut self.out, tag, realm, name);
        self.note(put);
    }

    /// Adds the SEQUENCE of these fields.
    pub fn put_into(self, out: &mut Writer) -> Result<(), NoMemory>
        ensures { OnOk result ((self.is_whole ≡ true) × PutsSequence self.out out.old out.new) }
    {
        if !self.is_whole {
            return Err(NoMemory);
        }
        out.put_tlv(0x30, self.out.as_slice())
    }

    /// The octets of the message with these fields.
    pub fn into_message(self, alloc: Global, tag: u8) -> Result<Octets, NoMemory>
        ensures { IfOk result (λ o. (self.is_whole ≡ true) × IsMessage tag self.out o) }
    {
        if !self.is_whole {
            return Err(NoMemory);
        }
        message_octets(alloc, tag, &self.out)
    }
}
