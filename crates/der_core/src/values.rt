//! The values of single elements.

ghost use Rattle.std.specs.Prelude.{◌≡◌, OnErr};
ghost use Rattle.der_core.specs.Format.{Answers, Reads, ReadsSpellings, AreOctets, place};
ghost use Rattle.der_core.specs.Element.{octet_string};
ghost use Rattle.der_core.specs.Values.{has_zero, is_text, text, object_identifier, small_of};
ghost use Rattle.der_core.specs.Values.{small, flags_of, flags, OfText};

use crate::{DerRefusal, Reader};
use sec_base::Oid;
use std::str::from_utf8;

impl<'a> Reader<'a> {
    /// The octets of the next element, an OCTET STRING.
    pub fn octets(&mut self) -> Result<&'a [u8], DerRefusal>
        ensures exact { Reads (λ o. o.now) self.new result (octet_string.read self.old) }
        ensures spelled { ReadsSpellings (λ o. o.now) octet_string self.old self.new result }
        ensures stays { OnErr result (self.new ≡ self.old) }
    {
        self.next_octets()
    }

    /// The text of the next element, a GeneralString: UTF-8 without the character 0.
    pub fn text(&mut self) -> Result<&'a str, DerRefusal>
        ensures exact { Reads (λ o. o.now) self.new result (text.read self.old) }
        ensures spelled { ReadsSpellings (λ o. o.now) text self.old self.new result }
        ensures stays { OnErr result (self.new ≡ self.old) }
    {
        self.next_text()
    }

    /// The next element, an OBJECT IDENTIFIER.
    pub fn oid(&mut self) -> Result<Oid, DerRefusal>
        ensures exact { Reads (λ o. o) self.new result (object_identifier.read self.old) }
        ensures spelled { ReadsSpellings (λ o. o) object_identifier self.old self.new result }
        ensures stays { OnErr result (self.new ≡ self.old) }
    {
        self.next_oid()
    }

    /// The next element, an ENUMERATED of one octet below 128.
    pub fn small(&mut self) -> Result<u8, DerRefusal>
        ensures exact { Reads (λ n. n) self.new result (small.read self.old) }
        ensures spelled { ReadsSpellings (λ n. n) small self.old self.new result }
        ensures stays { OnErr result (self.new ≡ self.old) }
    {
        self.next_small()
    }

    /// The next element, a BIT STRING of 32 bits, the first the most significant.
    pub fn flags(&mut self) -> Result<u32, DerRefusal>
        ensures exact { Reads (λ n. n) self.new result (flags.read self.old) }
        ensures spelled { ReadsSpellings (λ n. n) flags self.old self.new result }
        ensures stays { OnErr result (self.new ≡ self.old) }
    {
        self.next_flags()
    }

    /// What `octets` answers.
    /// It stands apart, so that its definition is unfolded here alone, and the other clauses are proved from what is said here.
    #[tactic(auto, unfolding(crate::specs::Element::octet_string))]
    fn next_octets(&mut self) -> Result<&'a [u8], DerRefusal>
        ensures exact { Reads (λ o. o.now) self.new result (octet_string.read self.old) }
        ensures stays { OnErr result (self.new ≡ self.old) }
        ensures octets { AreOctets self.old.octets }
    {
        let mut ahead = self.again();
        let content = ahead.element(0x04)?;
        *self = ahead;
        Ok(content.rest())
    }

    /// What `text` answers.
    /// It stands apart, so that its definition is unfolded here alone, and the other clauses are proved from what is said here.
    #[tactic(auto, unfolding(crate::specs::Values::text))]
    fn next_text(&mut self) -> Result<&'a str, DerRefusal>
        ensures exact { Reads (λ o. o.now) self.new result (text.read self.old) }
        ensures stays { OnErr result (self.new ≡ self.old) }
        ensures octets { AreOctets self.old.octets }
    {
        let mut ahead = self.again();
        let content = ahead.element(0x1b)?;
        match text_of(content.rest()) {
            Some(text) => {
                *self = ahead;
                Ok(text)
            }
            None => Err(content.no_value()),
        }
    }

    /// What `oid` answers.
    /// It stands apart, so that its definition is unfolded here alone, and the other clauses are proved from what is said here.
    #[tactic(auto, unfolding(crate::specs::Values::object_identifier))]
    fn next_oid(&mut self) -> Result<Oid, DerRefusal>
        ensures exact { Reads (λ o. o) self.new result (object_identifier.read self.old) }
        ensures stays { OnErr result (self.new ≡ self.old) }
        ensures octets { AreOctets self.old.octets }
    {
        let mut ahead = self.again();
        let content = ahead.element(0x06)?;
        match Oid::new(content.rest()) {
            Some(oid) => {
                *self = ahead;
                Ok(oid)
            }
            None => Err(content.no_value()),
        }
    }

    /// What `small` answers.
    /// It stands apart, so that its definition is unfolded here alone, and the other clauses are proved from what is said here.
    #[tactic(auto, unfolding(crate::specs::Values::small))]
    fn next_small(&mut self) -> Result<u8, DerRefusal>
        ensures exact { Reads (λ n. n) self.new result (small.read self.old) }
        ensures stays { OnErr result (self.new ≡ self.old) }
        ensures octets { AreOctets self.old.octets }
    {
        let mut ahead = self.again();
        let content = ahead.element(0x0a)?;
        let value = content.small_value()?;
        *self = ahead;
        Ok(value)
    }

    /// What `flags` answers.
    /// It stands apart, so that its definition is unfolded here alone, and the other clauses are proved from what is said here.
    #[tactic(auto, unfolding(crate::specs::Values::flags))]
    fn next_flags(&mut self) -> Result<u32, DerRefusal>
        ensures exact { Reads (λ n. n) self.new result (flags.read self.old) }
        ensures stays { OnErr result (self.new ≡ self.old) }
        ensures octets { AreOctets self.old.octets }
    {
        let mut ahead = self.again();
        let content = ahead.element(0x03)?;
        let value = content.flags_value()?;
        *self = ahead;
        Ok(value)
    }

    /// The number that all the octets are.
    fn small_value(&self) -> Result<u8, DerRefusal>
        ensures { Answers (λ n. n) result (small_of (place self.now) self.now.octets) }
    {
        match self.rest() {
            [octet] if *octet < 128 => Ok(*octet),
            _ => Err(self.no_value()),
        }
    }

    /// The flags that all the octets are.
    fn flags_value(&self) -> Result<u32, DerRefusal>
        ensures { Answers (λ n. n) result (flags_of (place self.now) self.now.octets) }
    {
        match self.rest() {
            [0, a, b, c, d] => {
                Ok(((*a as u32 * 256 + *b as u32) * 256 + *c as u32) * 256 + *d as u32)
            }
            _ => Err(self.no_value()),
        }
    }
}

/// The text that these octets are, if they are one without the character 0.
#[tactic(auto, using(crate::proofs::Texts::texts), unfolding(crate::specs::Values::is_text))]
fn text_of(octets: &[u8]) -> Option<&str>
    ensures { OfText (is_text octets.now) octets.now result }
{
    match from_utf8(octets) {
        Ok(text) if !has_zero(octets) => Some(text),
        _ => None,
    }
}

/// Whether some octet is 00.
fn has_zero(octets: &[u8]) -> bool
    ensures { result ≡ has_zero octets.now }
{
    for octet in octets {
        if *octet == 0 {
            return true;
        }
    }
    false
}
