//! Further parts of a text: `,X=VALUE`, with a letter that no named part has (RFC 5802 section 5.1).

ghost use Rattle.std.specs.Prelude.{◌≡◌};
ghost use Rattle.scram_mech.specs.Further.{go, is_last, letter, further_step, further_ends};

use crate::signs::{is_free, is_value};

/// What is due of a further part.
#[derive(Clone, Copy)]
pub enum Due {
    /// A comma, or the end.
    Part,
    /// The letter.
    Letter,
    /// `=`.
    Equals,
    /// More of the value, a comma, or the end.
    Value,
    /// Nothing: the letter of the last part was read.
    Nothing,
}

/// Further parts, up to the end, or up to the letter of the named part behind them.
#[derive(Clone, Copy)]
pub struct Further {
    pub due: Due,
    pub last: Option<u8>,
}

impl Further {
    fn go(self, due: Due) -> Option<Further>
        ensures { result ≡ go self due }
    {
        Some(Further {
            due,
            last: self.last,
        })
    }

    /// Whether it is the letter of the named part behind the further ones.
    fn is_last(self, octet: u8) -> bool
        ensures { result ≡ is_last self.last octet }
    {
        match self.last {
            Some(last) => octet == last,
            None => false,
        }
    }

    /// What is due behind this letter.
    fn letter(self, octet: u8) -> Option<Further>
        ensures { result ≡ letter self octet }
    {
        if self.is_last(octet) {
            self.go(Due::Nothing)
        } else if is_free(octet) {
            self.go(Due::Equals)
        } else {
            None
        }
    }

    /// What is due behind this octet; None where it can't stand here.
    pub fn step(self, octet: u8) -> Option<Further>
        ensures { result ≡ further_step self octet }
    {
        match self.due {
            Due::Part => {
                if octet == b',' {
                    self.go(Due::Letter)
                } else {
                    None
                }
            }
            Due::Letter => self.letter(octet),
            Due::Equals => {
                if octet == b'=' {
                    self.go(Due::Value)
                } else {
                    None
                }
            }
            Due::Value => {
                if octet == b',' {
                    self.go(Due::Letter)
                } else if is_value(octet) {
                    self.go(Due::Value)
                } else {
                    None
                }
            }
            Due::Nothing => None,
        }
    }

    /// Whether the parts may end here.
    pub fn ends(self) -> bool
        ensures { result ≡ further_ends self }
    {
        match self.due {
            Due::Part | Due::Value => self.last.is_none(),
            Due::Letter | Due::Equals => false,
            Due::Nothing => true,
        }
    }
}
