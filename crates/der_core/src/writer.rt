//! A writer of DER: each call adds the one spelling of its value.

ghost use Rattle.std.specs.Prelude.{◌≡◌, ◌^◌, ◌<◌, ◌≤◌, ◌++◌, [], ◌∷◌, length, false, OnOk, OnErr};
ghost use Rattle.std.specs.Prelude.{IfOk};
ghost use Rattle.der_core.specs.Format.{Puts};
ghost use Rattle.der_core.specs.Header.{tlv, length_octets};
ghost use Rattle.der_numbers.specs.Number.{flipped};
ghost use Rattle.der_core.specs.Element.{octet_string};
ghost use Rattle.der_core.specs.Integer.{least, int32, natural, uint32};
ghost use Rattle.der_core.specs.Values.{has_zero, text, object_identifier, small, flags};

use sec_base::{NoMemory, Octets, Oid};
use std::alloc::Global;
use std::marker::Model;

/// The room of a writer at first, in octets.
const ROOM: usize = 64;

/// The octets that were written. After want of memory they are what they were before the call.
#[derive(Drop)]
pub struct Writer {
    octets: Vec<u8>,
}

impl Model for Writer {
    ghost use Rattle.std.specs.Prelude.{List, ℕ};

    ghost Value = { List ℕ };

    ghost view = { λ w. w.octets.items };
}

impl Writer {
    /// A writer that has written nothing.
    pub fn new(alloc: Global) -> Result<Writer, NoMemory>
        ensures { IfOk result (λ w. w ≡ []) }
    {
        Ok(Writer {
            octets: Vec::with_capacity(alloc, ROOM)?,
        })
    }

    /// What was written.
    pub fn as_slice(&self) -> &[u8]
        ensures { result.now ≡ self.now }
    {
        self.octets.as_slice()
    }

    /// What was written; the writer is spent.
    pub fn finish(self) -> Result<Octets, NoMemory>
        ensures { IfOk result (λ o. o ≡ self) }
    {
        Ok(Octets::from_vec(self.octets))
    }

    /// Adds an element with this tag and content. A content of 4,294,967,296 octets or more has no length of four octets,
    /// and counts as want of memory.
    #[tactic(auto, using(crate::proofs::WriterSteps::takes_back), unfolding(crate::specs::Header::tlv))]
    pub fn put_tlv(&mut self, tag: u8, content: &[u8]) -> Result<(), NoMemory>
        ensures spells { OnOk result (self.new ≡ self.old ++ tlv tag content.now) }
        ensures small { OnOk result (length content.now < 2 ^ 32) }
        ensures stays { OnErr result (self.new ≡ self.old) }
    {
        let before = self.octets.len();
        self.put_header(tag, content.len())?;
        if let Err(error) = self.octets.extend_from_slice(content) {
            self.octets.truncate(before);
            return Err(NoMemory::from(error));
        }
        Ok(())
    }

    /// Adds octets as they are.
    pub(crate) fn put_raw(&mut self, octets: &[u8]) -> Result<(), NoMemory>
        ensures spells { OnOk result (self.new ≡ self.old ++ octets.now) }
        ensures stays { OnErr result (self.new ≡ self.old) }
    {
        self.octets.extend_from_slice(octets)?;
        Ok(())
    }

    /// Adds a tag and the shortest length.
    #[tactic(auto, unfolding(crate::specs::Header::length_octets))]
    fn put_header(&mut self, tag: u8, size: usize) -> Result<(), NoMemory>
        ensures spells { OnOk result (self.new ≡ self.old ++ tag ∷ length_octets size) }
        ensures small { OnOk result (size < 2 ^ 32) }
        ensures stays { OnErr result (self.new ≡ self.old) }
    {
        if size < 128 {
            self.put_raw(&[tag, size as u8])
        } else if size < 256 {
            self.put_raw(&[tag, 129, size as u8])
        } else if size < 65_536 {
            self.put_raw(&[tag, 130, (size / 256) as u8, (size % 256) as u8])
        } else {
            self.put_long_header(tag, size)
        }
    }

    /// Adds a tag and a length of three octets or more.
    #[tactic(auto, unfolding(crate::specs::Header::length_octets))]
    fn put_long_header(&mut self, tag: u8, size: usize) -> Result<(), NoMemory>
        requires { 65536 ≤ size }
        ensures spells { OnOk result (self.new ≡ self.old ++ tag ∷ length_octets size) }
        ensures small { OnOk result (size < 2 ^ 32) }
        ensures stays { OnErr result (self.new ≡ self.old) }
    {
        let low = (size / 256 % 256) as u8;
        let lowest = (size % 256) as u8;
        if size < 16_777_216 {
            self.put_raw(&[tag, 131, (size / 65_536) as u8, low, lowest])
        } else if size < 4_294_967_296 {
            let high = (size / 16_777_216) as u8;
            self.put_raw(&[tag, 132, high, (size / 65_536 % 256) as u8, low, lowest])
        } else {
            Err(NoMemory)
        }
    }

    /// Adds an OCTET STRING.
    #[tactic(auto, unfolding(crate::specs::Element::octet_string))]
    pub fn put_octets(&mut self, v: &[u8]) -> Result<(), NoMemory>
        ensures spells { OnOk result (Puts octet_string v.now self.old self.new) }
        ensures stays { OnErr result (self.new ≡ self.old) }
    {
        self.put_tlv(0x04, v)
    }

    /// Adds a GeneralString.
    #[tactic(auto, using(crate::proofs::Texts::texts), unfolding(crate::specs::Values::text, crate::specs::Values::is_text))]
    pub fn put_text(&mut self, v: &str) -> Result<(), NoMemory>
        requires { has_zero v.now ≡ false }
        ensures spells { OnOk result (Puts text v.now self.old self.new) }
        ensures stays { OnErr result (self.new ≡ self.old) }
    {
        self.put_tlv(0x1b, v.as_bytes())
    }

    /// Adds an OBJECT IDENTIFIER.
    #[tactic(auto, unfolding(crate::specs::Values::object_identifier))]
    pub fn put_oid(&mut self, v: &Oid) -> Result<(), NoMemory>
        ensures spells { OnOk result (Puts object_identifier v.now self.old self.new) }
        ensures stays { OnErr result (self.new ≡ self.old) }
    {
        self.put_tlv(0x06, v.content())
    }

    /// Adds an ENUMERATED.
    #[tactic(auto, unfolding(crate::specs::Values::small))]
    pub fn put_small(&mut self, v: u8) -> Result<(), NoMemory>
        requires { v < 128 }
        ensures spells { OnOk result (Puts small v self.old self.new) }
        ensures stays { OnErr result (self.new ≡ self.old) }
    {
        self.put_tlv(0x0a, &[v])
    }

    /// Adds a BIT STRING of 32 bits.
    #[tactic(auto, unfolding(crate::specs::Values::flags))]
    pub fn put_flags(&mut self, v: u32) -> Result<(), NoMemory>
        ensures spells { OnOk result (Puts flags v self.old self.new) }
        ensures stays { OnErr result (self.new ≡ self.old) }
    {
        self.put_tlv(
            0x03,
            &[
                0,
                (v / 16_777_216) as u8,
                (v / 65_536 % 256) as u8,
                (v / 256 % 256) as u8,
                (v % 256) as u8,
            ],
        )
    }

    /// Adds an INTEGER.
    #[tactic(auto, unfolding(crate::specs::Integer::int32))]
    pub fn put_int32(&mut self, v: i32) -> Result<(), NoMemory>
        ensures spells { OnOk result (Puts int32 v self.old self.new) }
        ensures stays { OnErr result (self.new ≡ self.old) }
    {
        if v >= 0 {
            self.put_least(v as u32)
        } else {
            self.put_flipped((-1 - v) as u32)
        }
    }

    /// Adds an INTEGER.
    #[tactic(auto, unfolding(crate::specs::Integer::natural))]
    pub fn put_uint32(&mut self, v: u32) -> Result<(), NoMemory>
        ensures spells { OnOk result (Puts uint32 v self.old self.new) }
        ensures stays { OnErr result (self.new ≡ self.old) }
    {
        self.put_least(v)
    }

    /// Adds an INTEGER from `low` to `high`.
    #[tactic(auto, unfolding(crate::specs::Integer::natural))]
    pub fn put_natural(&mut self, v: u32, low: u32, high: u32) -> Result<(), NoMemory>
        requires from { low ≤ v }
        requires to { v ≤ high }
        ensures spells { OnOk result (Puts (natural low high) v self.old self.new) }
        ensures stays { OnErr result (self.new ≡ self.old) }
    {
        self.put_least(v)
    }

    /// Adds an INTEGER of the fewest octets that spell this number.
    #[tactic(auto, unfolding(crate::specs::Integer::least))]
    fn put_least(&mut self, v: u32) -> Result<(), NoMemory>
        ensures spells { OnOk result (self.new ≡ self.old ++ tlv 2 (least v)) }
        ensures small { length (least v) < 2 ^ 32 }
        ensures stays { OnErr result (self.new ≡ self.old) }
    {
        if v < 128 {
            return self.put_tlv(0x02, &[v as u8]);
        }
        if v < 32_768 {
            return self.put_tlv(0x02, &[(v / 256) as u8, (v % 256) as u8]);
        }
        if v < 8_388_608 {
            return self.put_tlv(
                0x02,
                &[(v / 65_536) as u8, (v / 256 % 256) as u8, (v % 256) as u8],
            );
        }
        let low = [
            (v / 16_777_216) as u8,
            (v / 65_536 % 256) as u8,
            (v / 256 % 256) as u8,
            (v % 256) as u8,
        ];
        if v < 2_147_483_648 {
            return self.put_tlv(0x02, &low);
        }
        self.put_tlv(0x02, &[0, low[0], low[1], low[2], low[3]])
    }

    /// Adds an INTEGER of the fewest octets that spell this number, with their bits turned over.
    #[tactic(auto, unfolding(crate::specs::Integer::least))]
    fn put_flipped(&mut self, v: u32) -> Result<(), NoMemory>
        requires { v < 2 ^ 31 }
        ensures spells { OnOk result (self.new ≡ self.old ++ tlv 2 (flipped (least v))) }
        ensures small { length (flipped (least v)) < 2 ^ 32 }
        ensures stays { OnErr result (self.new ≡ self.old) }
    {
        if v < 128 {
            return self.put_tlv(0x02, &[255 - v as u8]);
        }
        if v < 32_768 {
            return self.put_tlv(0x02, &[255 - (v / 256) as u8, 255 - (v % 256) as u8]);
        }
        if v < 8_388_608 {
            return self.put_tlv(
                0x02,
                &[
                    255 - (v / 65_536) as u8,
                    255 - (v / 256 % 256) as u8,
                    255 - (v % 256) as u8,
                ],
            );
        }
        self.put_tlv(
            0x02,
            &[
                255 - (v / 16_777_216) as u8,
                255 - (v / 65_536 % 256) as u8,
                255 - (v / 256 % 256) as u8,
                255 - (v % 256) as u8,
            ],
        )
    }
}
