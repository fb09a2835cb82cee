//! Why no file is made.

ghost use Rattle.std.specs.Prelude.{◌≡◌};
ghost use Rattle.files_command.specs.declared.refusal.NoFile.TheVariants as refusals;

use sec_base::NoMemory;
use std::alloc::{AllocError, AllocFailed};

/// Why no file is made.
#[derive(Clone, Copy, Debug, PartialEq, Eq)]
pub enum NoFile {
    /// The words are in none of the commands, or no file can be made of them.
    Usage,
    /// There was no memory.
    NoMemory,
}

impl From<NoMemory> for NoFile {
    ghost from_gives = { λ _ e. e ≡ refusals.NoMemory };

    fn from(_error: NoMemory) -> NoFile {
        NoFile::NoMemory
    }
}

impl From<AllocError> for NoFile {
    ghost from_gives = { λ _ e. e ≡ refusals.NoMemory };

    fn from(_error: AllocError) -> NoFile {
        NoFile::NoMemory
    }
}

impl<T: Drop> From<AllocFailed<T>> for NoFile {
    ghost from_gives = { λ _ e. e ≡ refusals.NoMemory };

    fn from(_error: AllocFailed<T>) -> NoFile {
        NoFile::NoMemory
    }
}
