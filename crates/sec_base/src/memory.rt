//! Want of memory, the one answer that no clause gives a cause.

use std::alloc::{AllocError, AllocFailed};

/// No memory was to be had.
#[derive(Clone, Copy, Debug, PartialEq, Eq)]
pub struct NoMemory;

impl From<AllocError> for NoMemory {
    ghost from_gives = { λ _ _. Unit {0} };

    fn from(_error: AllocError) -> NoMemory {
        NoMemory
    }
}

impl<T: Drop> From<AllocFailed<T>> for NoMemory {
    ghost from_gives = { λ _ _. Unit {0} };

    fn from(_failed: AllocFailed<T>) -> NoMemory {
        NoMemory
    }
}
