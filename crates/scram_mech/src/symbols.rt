//! Base64 with padding (RFC 4648 section 4): the signs of octets, four for three.

ghost use Rattle.std.specs.Prelude.{◌≡◌, ◌<◌};
ghost use Rattle.scram_mech.specs.Symbols.{at, may_be_last, pad, next_group, sextet, symbols_step};
ghost use Rattle.scram_mech.specs.Symbols.{symbols_end};

use crate::signs::sextet_of;

/// Which sign of a group of four is due, with the six bits of the sign before where it may be the last one.
#[derive(Clone, Copy)]
pub enum Spot {
    First,
    Second,
    Third(u8),
    Fourth(u8),
    /// The second `=`.
    Padding,
    /// None: the padding is there.
    Full,
}

/// The signs of octets of which, from this group on, at least `need` and at most `left` are still to come.
#[derive(Clone, Copy)]
pub struct Symbols {
    pub spot: Spot,
    pub need: u16,
    pub left: u16,
}

impl Symbols {
    fn at(self, spot: Spot) -> Option<Symbols>
        ensures { result ≡ at self spot }
    {
        Some(Symbols {
            spot,
            need: self.need,
            left: self.left,
        })
    }

    /// Whether the last octet of all may be the one that these six bits end, the first of its group or the second.
    fn may_be_last(self, bits: u8, unit: u8, octets: u16) -> bool
        requires { 0 < unit }
        ensures { result ≡ may_be_last self bits unit octets }
    {
        bits % unit == 0 && self.need <= octets
    }

    /// What is due behind `=`.
    fn pad(self) -> Option<Symbols>
        ensures { result ≡ pad self }
    {
        match self.spot {
            Spot::Third(bits) => {
                if self.may_be_last(bits, 16, 1) {
                    self.at(Spot::Padding)
                } else {
                    None
                }
            }
            Spot::Fourth(bits) => {
                if self.may_be_last(bits, 4, 2) {
                    self.at(Spot::Full)
                } else {
                    None
                }
            }
            Spot::Padding => self.at(Spot::Full),
            Spot::First | Spot::Second | Spot::Full => None,
        }
    }

    /// What is due behind a sign of these six bits.
    fn sextet(self, bits: u8) -> Option<Symbols>
        ensures { result ≡ sextet self bits }
    {
        match self.spot {
            Spot::First => {
                if self.left >= 1 {
                    self.at(Spot::Second)
                } else {
                    None
                }
            }
            Spot::Second => {
                if self.left >= 2 || self.may_be_last(bits, 16, 1) {
                    self.at(Spot::Third(bits))
                } else {
                    None
                }
            }
            Spot::Third(_) => {
                if self.left >= 3 || self.left == 2 && self.may_be_last(bits, 4, 2) {
                    self.at(Spot::Fourth(bits))
                } else {
                    None
                }
            }
            Spot::Fourth(_) => self.next_group(),
            Spot::Padding | Spot::Full => None,
        }
    }

    /// The next group.
    fn next_group(self) -> Option<Symbols>
        ensures { result ≡ next_group self }
    {
        if self.left < 3 {
            return None;
        }
        Some(Symbols {
            spot: Spot::First,
            need: self.need.saturating_sub(3),
            left: self.left - 3,
        })
    }

    /// What is due behind this octet; None where it can't stand here.
    #[tactic(auto, unfolding(crate::specs::Symbols::symbols_step))]
    pub fn step(self, octet: u8) -> Option<Symbols>
        ensures { result ≡ symbols_step self octet }
    {
        if octet == b'=' {
            return self.pad();
        }
        match sextet_of(octet) {
            Some(bits) => self.sextet(bits),
            None => None,
        }
    }

    /// Whether the signs may end here.
    pub fn ends(self) -> bool
        ensures { result ≡ symbols_end self }
    {
        match self.spot {
            Spot::First => self.need == 0,
            Spot::Full => true,
            Spot::Second | Spot::Third(_) | Spot::Fourth(_) | Spot::Padding => false,
        }
    }
}
