//! A user's name as a text has it: `=2C` stands for a comma, `=3D` for `=` (RFC 5802 section 5.1).

ghost use Rattle.std.specs.Prelude.{◌≡◌, ◌++◌, IfOk, OnOk, option_to_list};
ghost use Rattle.scram_mech.specs.Name.{longer, within, name_step, name_ends, unescaped, escaped};
ghost use Rattle.scram_mech.specs.Name.{escape_of, given, behind};
ghost use Rattle.scram_mech.specs.declared.name.Escape.TheVariants.{Outside};

use crate::signs::is_value;
use crate::texts::put;
use sec_base::{NoMemory, Octets};
use std::alloc::Global;

/// How much of an escape was read.
#[derive(Clone, Copy)]
pub enum Escape {
    /// No escape is open.
    Outside,
    /// `=`.
    Begun,
    /// `=2`.
    Comma,
    /// `=3`.
    Equals,
}

/// A name, of whose octets at least `need` and at most `left` are still to come.
#[derive(Clone, Copy)]
pub struct Name {
    pub escape: Escape,
    pub need: u16,
    pub left: u16,
}

impl Name {
    /// The name with one octet more.
    fn longer(self) -> Option<Name>
        ensures { result ≡ longer self }
    {
        if self.left == 0 {
            return None;
        }
        Some(Name {
            escape: Escape::Outside,
            need: self.need.saturating_sub(1),
            left: self.left - 1,
        })
    }

    /// The name in this part of an escape.
    fn within(self, escape: Escape) -> Option<Name>
        ensures { result ≡ within escape self }
    {
        if self.left == 0 {
            return None;
        }
        Some(Name {
            escape,
            need: self.need,
            left: self.left,
        })
    }

    /// What is due behind this octet; None where it can't stand here.
    pub fn step(self, octet: u8) -> Option<Name>
        ensures { result ≡ name_step self octet }
    {
        match self.escape {
            Escape::Outside => {
                if octet == b'=' {
                    self.within(Escape::Begun)
                } else if is_value(octet) {
                    self.longer()
                } else {
                    None
                }
            }
            Escape::Begun => match octet {
                b'2' => self.within(Escape::Comma),
                b'3' => self.within(Escape::Equals),
                _ => None,
            },
            Escape::Comma => match octet {
                b'C' => self.longer(),
                _ => None,
            },
            Escape::Equals => match octet {
                b'D' => self.longer(),
                _ => None,
            },
        }
    }

    /// Whether the name may end here.
    pub fn ends(self) -> bool
        ensures { result ≡ name_ends self }
    {
        match self.escape {
            Escape::Outside => self.need == 0,
            Escape::Begun | Escape::Comma | Escape::Equals => false,
        }
    }
}

/// Adds an octet of a name to a text.
fn put_octet(text: &mut Vec<u8>, octet: u8) -> Result<(), NoMemory>
    ensures { OnOk result (text.new.items ≡ text.old.items ++ escape_of octet) }
{
    match octet {
        b',' => put(text, b"=2C"),
        b'=' => put(text, b"=3D"),
        plain => put(text, &[plain]),
    }
}

/// Adds a name to a text.
#[tactic(auto, unfolding(crate::specs::Name::escaped))]
pub fn put_name(text: &mut Vec<u8>, name: &[u8]) -> Result<(), NoMemory>
    ensures { OnOk result (text.new.items ≡ text.old.items ++ escaped name.now) }
{
    for octet in name {
        put_octet(text, *octet)?;
    }
    Ok(())
}

impl Escape {
    /// The octet of a name that this one of a text gives behind it, if any.
    fn given(self, octet: u8) -> Option<u8>
        ensures { option_to_list result ≡ given self octet }
    {
        match self {
            Escape::Outside => { if octet == b'=' { None } else { Some(octet) } }
            Escape::Begun => None,
            Escape::Comma => Some(b','),
            Escape::Equals => Some(b'='),
        }
    }

    /// How much of an escape is open behind this octet of a text.
    fn behind(self, octet: u8) -> Escape
        ensures { result ≡ behind self octet }
    {
        match self {
            Escape::Outside => {
                if octet == b'=' {
                    Escape::Begun
                } else {
                    Escape::Outside
                }
            }
            Escape::Begun => {
                if octet == b'2' {
                    Escape::Comma
                } else {
                    Escape::Equals
                }
            }
            Escape::Comma | Escape::Equals => Escape::Outside,
        }
    }
}

/// Adds an octet to a name, if there is one.
fn put_given(name: &mut Vec<u8>, given: Option<u8>) -> Result<(), NoMemory>
    ensures { OnOk result (name.new.items ≡ name.old.items ++ option_to_list given) }
{
    match given {
        Some(octet) => {
            name.push(octet)?;
            Ok(())
        }
        None => Ok(()),
    }
}

/// The name that stands so in a text.
#[tactic(auto, unfolding(crate::specs::Name::unescaped))]
pub fn unescape(alloc: Global, octets: &[u8]) -> Result<Octets, NoMemory>
    ensures { IfOk result (λ o. o ≡ unescaped Outside octets.now) }
{
    let mut name = Vec::new(alloc);
    let mut escape = Escape::Outside;
    for octet in octets {
        put_given(&mut name, escape.given(*octet))?;
        escape = escape.behind(*octet);
    }
    Ok(Octets::from_vec(name))
}
