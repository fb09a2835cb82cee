//! What is refused, and where.

ghost use Rattle.std.specs.Prelude.{◌≡◌, ◌-◌, length};
ghost use Rattle.scram_mech.specs.declared.refusal.ScramRefusal.TheVariants as refusals;
ghost use Rattle.scram_mech.specs.declared.refusal.VerifierRefusal.TheVariants as verifiers;
ghost use Rattle.scram_mech.specs.Numbers.{scram_number};
ghost use Rattle.scram_mech.specs.Reading.{text_refusal};

use sec_base::NoMemory;
use std::alloc::{AllocError, AllocFailed};

/// Why a step of an exchange is refused, in the order in which it is judged but for what the calls say.
#[derive(Clone, Copy, Debug, PartialEq, Eq)]
pub enum ScramRefusal {
    /// The text isn't in its grammar: `at` is the end of the longest front of it with which some text of the grammar begins.
    Text { at: usize },
    /// The text begins `m=`, an extension that must be understood (RFC 5802 section 5.1). This is judged before `Text`.
    Mandatory,
    /// The nonce isn't the one that is due, or adds nothing to the own one.
    Nonce,
    /// The number of rounds is below 4,096 or above 200,000.
    Rounds,
    /// No line of the verifiers has the name.
    NoUser,
    /// The acceptor has channel bindings, and the data that came are others.
    Bindings,
    /// The proof isn't one of the stored key.
    Proof,
    /// The signature isn't that of the server key.
    Signature,
    /// The acceptor answered with an error.
    PeerError,
    /// No memory was to be had.
    NoMemory,
}

impl ScramRefusal {
    /// The number by which it is told: the minor status that an acceptor sends, and what a client prints.
    pub fn number(self) -> u32
        ensures { result ≡ scram_number self }
    {
        match self {
            ScramRefusal::Text { at: _ } => 201,
            ScramRefusal::Mandatory => 202,
            ScramRefusal::Nonce => 203,
            ScramRefusal::Rounds => 204,
            ScramRefusal::NoUser => 205,
            ScramRefusal::Bindings => 206,
            ScramRefusal::Proof => 207,
            ScramRefusal::Signature => 208,
            ScramRefusal::PeerError => 209,
            ScramRefusal::NoMemory => 0,
        }
    }
}

impl From<NoMemory> for ScramRefusal {
    ghost from_gives = { λ _ e. e ≡ refusals.NoMemory };

    fn from(_error: NoMemory) -> ScramRefusal {
        ScramRefusal::NoMemory
    }
}

impl From<AllocError> for ScramRefusal {
    ghost from_gives = { λ _ e. e ≡ refusals.NoMemory };

    fn from(_error: AllocError) -> ScramRefusal {
        ScramRefusal::NoMemory
    }
}

impl<T: Drop> From<AllocFailed<T>> for ScramRefusal {
    ghost from_gives = { λ _ e. e ≡ refusals.NoMemory };

    fn from(_error: AllocFailed<T>) -> ScramRefusal {
        ScramRefusal::NoMemory
    }
}

/// Why a verifier file is refused. A bad line counts before a name that stands twice, wherever they stand.
#[derive(Clone, Copy)]
pub enum VerifierRefusal {
    /// The first line that isn't in the grammar; lines are counted from 1.
    Line { number: usize },
    /// The first line whose name stood before.
    Twice { number: usize },
    /// No memory was to be had.
    NoMemory,
}

impl From<NoMemory> for VerifierRefusal {
    ghost from_gives = { λ _ e. e ≡ verifiers.NoMemory };

    fn from(_error: NoMemory) -> VerifierRefusal {
        VerifierRefusal::NoMemory
    }
}

impl From<AllocError> for VerifierRefusal {
    ghost from_gives = { λ _ e. e ≡ verifiers.NoMemory };

    fn from(_error: AllocError) -> VerifierRefusal {
        VerifierRefusal::NoMemory
    }
}

impl<T: Drop> From<AllocFailed<T>> for VerifierRefusal {
    ghost from_gives = { λ _ e. e ≡ verifiers.NoMemory };

    fn from(_error: AllocFailed<T>) -> VerifierRefusal {
        VerifierRefusal::NoMemory
    }
}

/// A reading ended where no text of the grammar goes on: so many octets were left there.
#[derive(Clone, Copy)]
pub struct Stuck {
    pub left: usize,
}

impl Stuck {
    /// The refusal of this text, whose place counts from its first octet.
    pub fn in_text(self, text: &[u8]) -> ScramRefusal
        ensures { result ≡ text_refusal text.now self }
    {
        ScramRefusal::Text {
            at: text.len().saturating_sub(self.left),
        }
    }
}
