//! A reader of fields, front to back.

ghost use Rattle.std.specs.Prelude.{◌≡◌, ◌≤◌, length, IfOk};
ghost use Rattle.krb_files.specs.Keytab.{version_of};
ghost use Rattle.krb_files.specs.declared.refusal.FileWhy.TheVariants.{Magic};
ghost use Rattle.krb_files.specs.Fields.{place, refusal, cut, Reads, Answers, magic_at, number_of};
ghost use Rattle.krb_files.specs.Fields.{octets_at, number_at, counted_at, record_at, passed_at};

use crate::{FileRefusal, FileWhy};
use std::marker::Model;

/// What ends where the octets of a reader end.
#[derive(Clone, Copy)]
pub enum Bounds {
    /// The file.
    File,
    /// One record of the file.
    Record,
}

/// The octets that are left of a file or of a record, and the place behind the last of them.
#[derive(Drop)]
pub struct Fields<'a> {
    octets: &'a [u8],
    end: usize,
    bounds: Bounds,
    ghost within: { length octets.now ≤ end },
}

impl<'a> Model for Fields<'a> {
    ghost use Rattle.krb_files.specs.Fields.{Input};

    ghost Value = { Input };

    ghost view = { λ f. record { end = f.end; octets = f.octets.now; bounds = f.bounds } };
}

/// The number that at most four octets spell.
fn number_of_octets(octets: &[u8]) -> u32
    requires { length octets.now ≤ 4 }
    ensures { result ≡ number_of octets.now }
{
    match octets {
        [] => 0,
        [a] => *a as u32,
        [a, b] => *a as u32 * 256 + *b as u32,
        [a, b, c] => (*a as u32 * 256 + *b as u32) * 256 + *c as u32,
        [a, b, c, d] => ((*a as u32 * 256 + *b as u32) * 256 + *c as u32) * 256 + *d as u32,
        [..] => unreachable!(),
    }
}

/// The refusal of a file that doesn't begin as its format does.
fn wrong_magic() -> FileRefusal
    ensures { result ≡ refusal Magic 0 }
{
    FileRefusal {
        at: 0,
        why: FileWhy::Magic,
    }
}

impl<'a> Fields<'a> {
    /// A reader behind the two octets of a format: 05 and its version.
    #[tactic(auto, unfolding(crate::specs::Fields::magic_at))]
    pub fn behind_magic(file: &'a [u8], version: u8) -> Result<Fields<'a>, FileRefusal>
        ensures { Answers (λ f. f) result (magic_at version file.now) }
    {
        match file {
            [first, second, rest @ ..] => {
                if *first != 5 || *second != version {
                    return Err(wrong_magic());
                }
                Ok(Fields {
                    octets: rest,
                    end: file.len(),
                    bounds: Bounds::File,
                })
            }
            [..] => Err(wrong_magic()),
        }
    }

    /// The version of a key of this lower version, by what stands behind the key.
    pub fn version(&self, low: u32) -> u32
        ensures { result ≡ version_of low self.now.octets }
    {
        if self.octets.len() < 4 {
            return low;
        }
        let high = number_of_octets(&self.octets[..4]);
        if high == 0 { low } else { high }
    }

    /// The place of the next octet.
    pub fn place(&self) -> usize
        ensures { result ≡ place self.now }
    {
        self.end - self.octets.len()
    }

    /// How many octets are left.
    pub fn left(&self) -> usize
        ensures { result ≡ length self.now.octets }
    {
        self.octets.len()
    }

    /// What is answered where the field that begins here isn't whole.
    fn cut(&self) -> FileRefusal
        ensures { result ≡ cut self.now }
    {
        match self.bounds {
            Bounds::File => FileRefusal {
                at: self.end,
                why: FileWhy::Short,
            },
            Bounds::Record => FileRefusal {
                at: self.place(),
                why: FileWhy::Length,
            },
        }
    }

    /// So many octets of the field that is answered for by `cut` where it isn't whole.
    #[tactic(auto, unfolding(crate::specs::Fields::octets_at))]
    fn octets(&mut self, field: &Fields, size: usize) -> Result<&'a [u8], FileRefusal>
        ensures exact { Reads (λ o. o.now) self.new result (octets_at field.now size self.old) }
        ensures sized { IfOk result (λ o. length o.now ≡ size) }
        ensures room { IfOk result (λ o. length o.now ≤ place self.new) }
    {
        if self.octets.len() < size {
            return Err(field.cut());
        }
        let (octets, rest) = self.octets.split_at(size);
        self.octets = rest;
        Ok(octets)
    }

    /// A number of so many octets, at most four.
    #[tactic(auto, unfolding(crate::specs::Fields::number_at))]
    pub fn number(&mut self, size: usize) -> Result<u32, FileRefusal>
        requires { size ≤ 4 }
        ensures { Reads (λ n. n) self.new result (number_at size self.old) }
    {
        let field = self.here();
        let octets = self.octets(&field, size)?;
        Ok(number_of_octets(octets))
    }

    /// Octets behind a number of so many octets, at most four, that counts them.
    #[tactic(auto, unfolding(crate::specs::Fields::counted_at))]
    pub fn counted(&mut self, size: usize) -> Result<&'a [u8], FileRefusal>
        requires { size ≤ 4 }
        ensures { Reads (λ o. o.now) self.new result (counted_at size self.old) }
    {
        let field = self.here();
        let count = self.number(size)?;
        self.octets(&field, count as usize)
    }

    /// A reader over a record of so many octets.
    #[tactic(auto, unfolding(crate::specs::Fields::record_at))]
    pub fn record(&mut self, size: usize) -> Result<Fields<'a>, FileRefusal>
        ensures { Reads (λ f. f) self.new result (record_at size self.old) }
    {
        let field = self.here();
        let octets = self.octets(&field, size)?;
        Ok(Fields {
            octets,
            end: self.place(),
            bounds: Bounds::Record,
        })
    }

    /// Passes over so many octets.
    #[tactic(auto, unfolding(crate::specs::Fields::passed_at))]
    pub fn pass(&mut self, size: usize) -> Result<(), FileRefusal>
        ensures { Reads (λ u. u) self.new result (passed_at size self.old) }
    {
        let field = self.here();
        let _octets = self.octets(&field, size)?;
        Ok(())
    }

    /// A reader of the same octets.
    fn here(&self) -> Fields<'a>
        ensures { result ≡ self.now }
    {
        Fields {
            octets: self.octets,
            end: self.end,
            bounds: self.bounds,
        }
    }
}
