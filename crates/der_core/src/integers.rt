//! INTEGER, ITU-T X.690 section 8.3.

ghost use Rattle.std.specs.Prelude.{◌≡◌, ◌≤◌, length, OnErr, IfOk};
ghost use Rattle.der_core.specs.Format.{Answers, Reads, ReadsSpellings, AreOctets};
ghost use Rattle.der_numbers.specs.Number.{is_negative};
ghost use Rattle.der_core.specs.Integer.{has_spare_octet, signed_of, shortest_at, int32_at, int32};
ghost use Rattle.der_core.specs.Integer.{natural_at, natural, uint32};

use crate::{DerRefusal, DerWhy, Reader};
use der_numbers::{flipped_number_of, number_of};

impl<'a> Reader<'a> {
    /// The next element, an INTEGER from -2147483648 to 2147483647.
    pub fn int32(&mut self) -> Result<i32, DerRefusal>
        ensures exact { Reads (λ n. n) self.new result (int32.read self.old) }
        ensures spelled { ReadsSpellings (λ n. n) int32 self.old self.new result }
        ensures stays { OnErr result (self.new ≡ self.old) }
    {
        self.next_int32()
    }

    /// The next element, an INTEGER from 0 to 4294967295.
    pub fn uint32(&mut self) -> Result<u32, DerRefusal>
        ensures exact { Reads (λ n. n) self.new result (uint32.read self.old) }
        ensures spelled { ReadsSpellings (λ n. n) uint32 self.old self.new result }
        ensures stays { OnErr result (self.new ≡ self.old) }
    {
        self.next_natural(0, u32::MAX)
    }

    /// The next element, an INTEGER from `low` to `high`.
    pub fn natural(&mut self, low: u32, high: u32) -> Result<u32, DerRefusal>
        ensures exact { Reads (λ n. n) self.new result ((natural low high).read self.old) }
        ensures spelled { ReadsSpellings (λ n. n) (natural low high) self.old self.new result }
        ensures stays { OnErr result (self.new ≡ self.old) }
        ensures most { IfOk result (λ n. n ≤ high) }
    {
        self.next_natural(low, high)
    }

    /// What `int32` answers.
    /// It stands apart, so that its definition is unfolded here alone, and the other clauses are proved from what is said here.
    #[tactic(auto, unfolding(crate::specs::Integer::int32))]
    fn next_int32(&mut self) -> Result<i32, DerRefusal>
        ensures exact { Reads (λ n. n) self.new result (int32.read self.old) }
        ensures stays { OnErr result (self.new ≡ self.old) }
        ensures octets { AreOctets self.old.octets }
    {
        let mut ahead = self.again();
        let content = ahead.element(0x02)?;
        let value = content.int32_value()?;
        *self = ahead;
        Ok(value)
    }

    /// What `uint32` and `natural` answer.
    /// It stands apart, so that its definition is unfolded here alone, and the other clauses are proved from what is said here.
    #[tactic(auto, unfolding(crate::specs::Integer::natural))]
    fn next_natural(&mut self, low: u32, high: u32) -> Result<u32, DerRefusal>
        ensures exact { Reads (λ n. n) self.new result ((natural low high).read self.old) }
        ensures stays { OnErr result (self.new ≡ self.old) }
        ensures octets { AreOctets self.old.octets }
        ensures most { IfOk result (λ n. n ≤ high) }
    {
        let mut ahead = self.again();
        let content = ahead.element(0x02)?;
        let value = content.natural_value(low, high)?;
        *self = ahead;
        Ok(value)
    }

    /// The number that all the octets spell.
    #[tactic(auto, unfolding(crate::specs::Integer::int32_at))]
    fn int32_value(&self) -> Result<i32, DerRefusal>
        ensures { Answers (λ n. n) result (int32_at self.now) }
    {
        let octets = self.shortest()?;
        if octets.len() > 4 {
            return Err(self.no_value());
        }
        Ok(signed_number_of(octets))
    }

    /// The number from `low` to `high` that all the octets spell.
    #[tactic(auto, unfolding(crate::specs::Integer::natural_at))]
    fn natural_value(&self, low: u32, high: u32) -> Result<u32, DerRefusal>
        ensures exact { Answers (λ n. n) result (natural_at low high self.now) }
        ensures most { IfOk result (λ n. n ≤ high) }
    {
        let octets = self.shortest()?;
        if octets.len() > 5 || is_negative(octets) {
            return Err(self.no_value());
        }
        let number = number_of(octets);
        if number < low as u64 || number > high as u64 {
            return Err(self.no_value());
        }
        Ok(number as u32)
    }

    /// All the octets, where they are the content of an INTEGER.
    #[tactic(auto, unfolding(crate::specs::Integer::shortest_at))]
    fn shortest(&self) -> Result<&'a [u8], DerRefusal>
        ensures { Answers (λ o. o.now) result (shortest_at self.now) }
    {
        let octets = self.rest();
        if octets.is_empty() {
            return Err(self.no_value());
        }
        if has_spare_octet(octets) {
            return Err(DerRefusal {
                at: self.place(),
                why: DerWhy::NotShortest,
            });
        }
        Ok(octets)
    }
}

/// Whether the first octet has its highest bit.
fn is_negative(octets: &[u8]) -> bool
    ensures { result ≡ is_negative octets.now }
{
    match octets {
        [] => false,
        [first, ..] => *first >= 128,
    }
}

/// Whether the first octet only repeats the sign of the second.
fn has_spare_octet(octets: &[u8]) -> bool
    ensures { result ≡ has_spare_octet octets.now }
{
    match octets {
        [first, second, ..] => {
            (*first == 0 && *second < 128) || (*first == 255 && *second >= 128)
        }
        _ => false,
    }
}

/// The number that at most four octets spell in two's complement.
fn signed_number_of(octets: &[u8]) -> i32
    requires few { length octets.now ≤ 4 }
    ensures { result ≡ signed_of octets.now }
{
    if is_negative(octets) {
        -1 - flipped_number_of(octets) as i32
    } else {
        number_of(octets) as i32
    }
}
