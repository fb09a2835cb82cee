//! Octets of one class in a row.

ghost use Rattle.std.specs.Prelude.{◌≡◌};
ghost use Rattle.scram_mech.specs.Run.{has, run_step, run_ends};

use crate::signs::{is_line_name, is_nonce, is_printable};

/// A class of octets.
#[derive(Clone, Copy)]
pub enum Class {
    /// Of a nonce.
    Nonce,
    /// Of a user's name, and of a password.
    Printable,
    /// Of a name in a verifier file.
    LineName,
}

impl Class {
    pub fn has(self, octet: u8) -> bool
        ensures { result ≡ has self octet }
    {
        match self {
            Class::Nonce => is_nonce(octet),
            Class::Printable => is_printable(octet),
            Class::LineName => is_line_name(octet),
        }
    }
}

/// Octets of a class, of which at least `need` and at most `left` are still to come.
#[derive(Clone, Copy)]
pub struct Run {
    pub class: Class,
    pub need: u16,
    pub left: u16,
}

impl Run {
    /// What is due behind this octet; None where it can't stand here.
    pub fn step(self, octet: u8) -> Option<Run>
        ensures { result ≡ run_step self octet }
    {
        if self.left == 0 || !self.class.has(octet) {
            return None;
        }
        Some(Run {
            class: self.class,
            need: self.need.saturating_sub(1),
            left: self.left - 1,
        })
    }

    /// Whether the octets may end here.
    pub fn ends(self) -> bool
        ensures { result ≡ run_ends self }
    {
        self.need == 0
    }
}
