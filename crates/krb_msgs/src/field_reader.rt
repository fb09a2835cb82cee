//! The fields of a SEQUENCE, read one behind the other.

ghost use Rattle.std.specs.Prelude.{◌≡◌, None, unwrap_or, []};
ghost use Rattle.der_core.specs.Element.{explicit};
ghost use Rattle.der_core.specs.Fields.{done};
ghost use Rattle.der_core.specs.Integer.{natural};
ghost use Rattle.der_core.specs.Values.{flags};
ghost use Rattle.krb_msgs.specs.Constant.{constant};
ghost use Rattle.krb_msgs.specs.PrincipalName.{name_in};
ghost use Rattle.krb_msgs.specs.FieldReading.{earlier, Noted, ReadsOn, ReadsOnMaybe, ReadsAll};

use crate::PrincipalName;
use crate::blank::Blank;
use crate::common::{constant_field, flags_field, micros_field, optional_micros};
use crate::principal_name::{name_field, optional_name};
use der_core::{DerRefusal, Element, Reader};
use sec_base::Text;
use std::alloc::Global;

/// A reader that goes on after a fault.
///
/// What reads the fields has no way out but its end: a field that is refused is read as a blank value, the first refusal is
/// kept, and what was read counts only where there is none.
#[derive(Drop)]
pub struct FieldReader<'a> {
    pub left: Reader<'a>,
    pub fault: Option<DerRefusal>,
}

impl<'a> FieldReader<'a> {
    /// Reads the fields that these octets are.
    pub fn new(left: Reader<'a>) -> FieldReader<'a>
        ensures { result ≡ record { left = left.entry; fault = None } }
    {
        FieldReader { left, fault: None }
    }

    /// What was read, or a blank value for a refusal, which is noted.
    pub fn value<T: Drop>(&mut self, read: Result<T, DerRefusal>, blank: T) -> T
        ensures { Noted read self.old result self.new }
    {
        match read {
            Ok(value) => value,
            Err(fault) => {
                self.note(fault);
                blank
            }
        }
    }

    /// Keeps the first refusal.
    fn note(&mut self, fault: DerRefusal)
        ensures { self.new.fault ≡ earlier self.old.fault fault }
    {
        match self.fault {
            None => self.fault = Some(fault),
            Some(_) => {}
        }
    }

    /// The field of a fixed number.
    pub fn constant(&mut self, tag: u8, number: u32)
        ensures { ReadsOn (explicit tag (constant number)) self.old tt self.new }
    {
        let read = constant_field(&mut self.left, tag, number);
        self.value(read, ())
    }

    /// A field of flags.
    pub fn flags(&mut self, tag: u8) -> u32
        ensures { ReadsOn (explicit tag flags) self.old result self.new }
    {
        let read = flags_field(&mut self.left, tag);
        self.value(read, 0)
    }

    /// A field of microseconds.
    pub fn micros(&mut self, tag: u8) -> u32
        ensures { ReadsOn (explicit tag (natural 0 999999)) self.old result self.new }
    {
        let read = micros_field(&mut self.left, tag);
        self.value(read, 0)
    }

    /// A field of microseconds, where it is there.
    pub fn optional_micros(&mut self, tag: u8) -> Option<u32>
        ensures { ReadsOnMaybe tag (explicit tag (natural 0 999999)) self.old result self.new }
    {
        let read = optional_micros(&mut self.left, tag);
        self.value(read, None)
    }

    /// A field of one element.
    pub fn field<T: Element + Blank + Drop>(&mut self, alloc: Global, tag: u8) -> T
        ensures { ReadsOn (explicit tag T.format) self.old result self.new }
    {
        let read = der_core::field(alloc, &mut self.left, tag);
        self.value(read, T::blank(alloc))
    }

    /// A field of one element, where it is there.
    pub fn optional<T: Element + Drop>(&mut self, alloc: Global, tag: u8) -> Option<T>
        ensures { ReadsOnMaybe tag (explicit tag T.format) self.old result self.new }
    {
        let read = der_core::optional(alloc, &mut self.left, tag);
        self.value(read, None)
    }

    /// A name that is a principal in this realm.
    pub fn name(&mut self, alloc: Global, tag: u8, realm: &Text) -> PrincipalName
        ensures { ReadsOn (explicit tag (name_in realm.now)) self.old result self.new }
    {
        let read = name_field(alloc, &mut self.left, tag, realm.as_str());
        self.value(read, PrincipalName::blank(alloc))
    }

    /// A name that is a principal in this realm, where it is there; without a realm, in the empty one.
    pub fn optional_name(
        &mut self,
        alloc: Global,
        tag: u8,
        realm: &Option<Text>,
    ) -> Option<PrincipalName>
        ensures { ReadsOnMaybe tag (explicit tag (name_in (unwrap_or realm.now []))) self.old result
            self.new }
    {
        let read = optional_name(alloc, &mut self.left, tag, realm);
        self.value(read, None)
    }

    /// No further field.
    pub fn end(&mut self)
        ensures { ReadsAll done self.old tt self.new }
    {
        let read = self.left.end();
        self.value(read, ())
    }
}
