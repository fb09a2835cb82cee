//! What a reader of DER refuses, and where.

ghost use Rattle.std.specs.Prelude.{◌≡◌};
ghost use Rattle.der_core.specs.declared.refusal.DerWhy.TheVariants as whys;

use sec_base::NoMemory;
use std::alloc::{AllocError, AllocFailed};

/// What is wrong, in the order in which one element is judged.
#[derive(Clone, Copy, Debug, PartialEq, Eq)]
pub enum DerWhy {
    /// The octets end before the element does.
    Short,
    /// Another tag stands where this one is due.
    Tag,
    /// The length is indefinite, or has more than four octets of its own.
    Length,
    /// The length or the INTEGER has a shorter spelling.
    NotShortest,
    /// The content is none of the values that are due.
    Value,
    /// Octets are left where nothing more may stand.
    Trailing,
    /// There was no memory for the value.
    NoMemory,
}

/// A refusal: why, and the place of the octet that is wrong, counted from the first octet that was read.
#[derive(Clone, Copy, Debug, PartialEq, Eq)]
pub struct DerRefusal {
    pub at: usize,
    pub why: DerWhy,
}

impl From<NoMemory> for DerRefusal {
    ghost from_gives = { λ _ e. e.why ≡ whys.NoMemory };

    fn from(_error: NoMemory) -> DerRefusal {
        DerRefusal {
            at: 0,
            why: DerWhy::NoMemory,
        }
    }
}

impl From<AllocError> for DerRefusal {
    ghost from_gives = { λ _ e. e.why ≡ whys.NoMemory };

    fn from(_error: AllocError) -> DerRefusal {
        DerRefusal::from(NoMemory)
    }
}

impl<T: Drop> From<AllocFailed<T>> for DerRefusal {
    ghost from_gives = { λ _ e. e.why ≡ whys.NoMemory };

    fn from(_error: AllocFailed<T>) -> DerRefusal {
        DerRefusal::from(NoMemory)
    }
}
