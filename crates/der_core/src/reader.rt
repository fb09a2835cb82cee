//! A reader over the octets of one value, front to back.

ghost use Rattle.std.specs.Prelude.{◌≡◌, ◌≤◌, length, OnErr, IfOk};
ghost use Rattle.der_core.specs.Format.{place, begins, first_octet, Reads, ReadsSpellings};
ghost use Rattle.der_core.specs.Format.{AreOctets};
ghost use Rattle.der_core.specs.declared.refusal.DerWhy.TheVariants.{Value};
ghost use Rattle.der_core.specs.Element.{any_element, raw_element};
ghost use Rattle.der_core.specs.Header.{tlv_at, content_at, header_at, length_at, long_length_at};
ghost use Rattle.der_core.specs.Header.{end_at};

use crate::{DerRefusal, DerWhy};
use der_numbers::long_length;
use std::marker::Model;

/// The octets that are left, and the place behind the last of them.
///
/// Places count from the first octet that the outermost reader was made with, in inner readers too. After a refusal a
/// reader stands where it stood. What a reader gives lives as long as the octets.
#[derive(Drop)]
pub struct Reader<'a> {
    octets: &'a [u8],
    end: usize,
    ghost within: { length octets.now ≤ end },
}

impl<'a> Model for Reader<'a> {
    ghost use Rattle.der_core.specs.Format.{Input};

    ghost Value = { Input };

    ghost view = { λ r. record { end = r.end; octets = r.octets.now } };
}

impl<'a> Reader<'a> {
    /// A reader over all of these octets.
    pub fn new(bytes: &'a [u8]) -> Reader<'a>
        ensures { result ≡ record { end = length bytes.now; octets = bytes.now } }
    {
        Reader {
            octets: bytes,
            end: bytes.len(),
        }
    }

    /// The place of the next octet.
    pub fn place(&self) -> usize
        ensures { result ≡ place self.now }
    {
        self.end - self.octets.len()
    }

    /// The tag octet of the next element, and None at the end.
    pub fn peek(&self) -> Option<u8>
        ensures { result ≡ first_octet self.now.octets }
    {
        match self.octets {
            [] => None,
            [first, ..] => Some(*first),
        }
    }

    /// Whether the next element has this tag.
    pub fn begins(&self, tag: u8) -> bool
        ensures { result ≡ begins tag self.now.octets }
    {
        begins_with(self.octets, tag)
    }

    /// How many octets are left.
    pub fn left(&self) -> usize
        ensures { result ≡ length self.now.octets }
    {
        self.octets.len()
    }

    /// A reader over the content of the next element, which has this tag.
    pub fn tlv(&mut self, tag: u8) -> Result<Reader<'a>, DerRefusal>
        ensures exact { Reads (λ r. r) self.new result (tlv_at tag self.old) }
        ensures spelled { ReadsSpellings (λ r. r.octets) (any_element tag) self.old self.new
            result }
        ensures stays { OnErr result (self.new ≡ self.old) }
    {
        self.element(tag)
    }

    /// The whole next element, which has this tag, with its header.
    pub fn raw(&mut self, tag: u8) -> Result<&'a [u8], DerRefusal>
        ensures exact { Reads (λ o. o.now) self.new result ((raw_element tag).read self.old) }
        ensures spelled { ReadsSpellings (λ o. o.now) (raw_element tag) self.old self.new result }
        ensures stays { OnErr result (self.new ≡ self.old) }
    {
        self.next_raw(tag)
    }

    /// What `raw` answers.
    /// It stands apart, so that the other clauses are proved from what is said here.
    fn next_raw(&mut self, tag: u8) -> Result<&'a [u8], DerRefusal>
        ensures exact { Reads (λ o. o.now) self.new result ((raw_element tag).read self.old) }
        ensures stays { OnErr result (self.new ≡ self.old) }
        ensures octets { AreOctets self.old.octets }
    {
        let mut ahead = self.again();
        let _content = ahead.element(tag)?;
        let size = self.octets.len().saturating_sub(ahead.octets.len());
        let (octets, _rest) = self.octets.split_at(size);
        *self = ahead;
        Ok(octets)
    }

    /// What `tlv` gives.
    /// It stands apart, so that its definition is unfolded here alone, and the other clauses are proved from what is said here.
    #[tactic(auto, unfolding(crate::specs::Header::tlv_at))]
    pub(crate) fn element(&mut self, tag: u8) -> Result<Reader<'a>, DerRefusal>
        ensures exact { Reads (λ r. r) self.new result (tlv_at tag self.old) }
        ensures stays { OnErr result (self.new ≡ self.old) }
        ensures octets { AreOctets self.old.octets }
    {
        let mut ahead = self.again();
        let size = ahead.header(tag)?;
        let content = ahead.content(size)?;
        *self = ahead;
        Ok(content)
    }

    /// A reader over this many octets, which are taken.
    fn content(&mut self, size: usize) -> Result<Reader<'a>, DerRefusal>
        ensures { Reads (λ r. r) self.new result (content_at size self.old) }
    {
        if self.octets.len() < size {
            return Err(DerRefusal {
                at: self.end,
                why: DerWhy::Short,
            });
        }
        let (content, rest) = self.octets.split_at(size);
        let end = self.end - rest.len();
        self.octets = rest;
        Ok(Reader {
            octets: content,
            end,
        })
    }

    /// The length behind this tag.
    #[tactic(auto, unfolding(crate::specs::Header::header_at))]
    fn header(&mut self, tag: u8) -> Result<usize, DerRefusal>
        ensures { Reads (λ r. r) self.new result (header_at tag self.old) }
    {
        let at = self.place();
        match self.octets {
            [] => Err(DerRefusal {
                at: self.end,
                why: DerWhy::Short,
            }),
            [first, rest @ ..] => {
                if *first != tag {
                    return Err(DerRefusal {
                        at,
                        why: DerWhy::Tag,
                    });
                }
                self.octets = rest;
                self.length()
            }
        }
    }

    /// The length at the front.
    #[tactic(auto, unfolding(crate::specs::Header::length_at))]
    fn length(&mut self) -> Result<usize, DerRefusal>
        ensures { Reads (λ r. r) self.new result (length_at self.old) }
    {
        let at = self.place();
        match self.octets {
            [] => Err(DerRefusal {
                at: self.end,
                why: DerWhy::Short,
            }),
            [first, rest @ ..] => {
                self.octets = rest;
                if *first < 128 {
                    return Ok(*first as usize);
                }
                if *first == 128 || *first > 132 {
                    return Err(DerRefusal {
                        at,
                        why: DerWhy::Length,
                    });
                }
                self.long_length(at, *first as usize - 128)
            }
        }
    }

    /// A length of so many octets, whose first octet stood at this place.
    #[tactic(auto, unfolding(crate::specs::Header::long_length_at))]
    fn long_length(&mut self, at: usize, size: usize) -> Result<usize, DerRefusal>
        requires { size ≤ 4 }
        ensures { Reads (λ r. r) self.new result (long_length_at at size self.old) }
    {
        if self.octets.len() < size {
            return Err(DerRefusal {
                at: self.end,
                why: DerWhy::Short,
            });
        }
        let (octets, rest) = self.octets.split_at(size);
        let Some(length) = long_length(octets) else {
            return Err(DerRefusal {
                at,
                why: DerWhy::NotShortest,
            });
        };
        self.octets = rest;
        Ok(length as usize)
    }

    /// The refusal of the octets that are left as no value.
    pub(crate) fn no_value(&self) -> DerRefusal
        ensures { result ≡ record { at = place self.now; why = Value } }
    {
        DerRefusal {
            at: self.place(),
            why: DerWhy::Value,
        }
    }

    /// All the octets that are left.
    pub fn rest(&self) -> &'a [u8]
        ensures { result.now ≡ self.now.octets }
    {
        self.octets
    }

    /// A second reader at the same place.
    pub(crate) fn again(&self) -> Reader<'a>
        ensures same { result ≡ self.now }
        ensures octets { AreOctets self.now.octets }
    {
        Reader {
            octets: known(self.octets),
            end: self.end,
        }
    }

    /// Refuses octets that are left.
    #[tactic(auto, unfolding(crate::specs::Header::end_at))]
    pub fn end(&self) -> Result<(), DerRefusal>
        ensures { result ≡ end_at self.now }
    {
        if self.octets.is_empty() {
            return Ok(());
        }
        Err(DerRefusal {
            at: self.place(),
            why: DerWhy::Trailing,
        })
    }
}

/// Whether the first octet is this one.
fn begins_with(octets: &[u8], first: u8) -> bool
    ensures { result ≡ begins first octets.now }
{
    match octets {
        [] => false,
        [octet, ..] => *octet == first,
    }
}

/// The same octets.
fn known(octets: &[u8]) -> &[u8]
    ensures same { result.now ≡ octets.now }
    ensures each { AreOctets octets.now }
{
    octets
}
