//! What a reader of a file refuses, and where.

ghost use Rattle.std.specs.Prelude.{◌≡◌};
ghost use Rattle.krb_files.specs.declared.refusal.FileWhy.TheVariants as whys;

use sec_base::NoMemory;
use std::alloc::{AllocError, AllocFailed};

/// What is wrong with a file.
#[derive(Clone, Copy, Debug, PartialEq, Eq)]
pub enum FileWhy {
    /// The file doesn't begin with the two octets of its format.
    Magic,
    /// The file ends inside a field, a record or a hole.
    Short,
    /// A field passes its record, or a key hasn't the length of its type.
    Length,
    /// The realm and the components are no principal.
    Name,
    /// There was no memory for what the file holds.
    NoMemory,
}

/// A refusal: why, and the place of what is wrong, counted from the file's first octet.
#[derive(Clone, Copy, Debug, PartialEq, Eq)]
pub struct FileRefusal {
    pub at: usize,
    pub why: FileWhy,
}

impl From<NoMemory> for FileRefusal {
    ghost from_gives = { λ _ e. e.why ≡ whys.NoMemory };

    fn from(_error: NoMemory) -> FileRefusal {
        FileRefusal {
            at: 0,
            why: FileWhy::NoMemory,
        }
    }
}

impl From<AllocError> for FileRefusal {
    ghost from_gives = { λ _ e. e.why ≡ whys.NoMemory };

    fn from(_error: AllocError) -> FileRefusal {
        FileRefusal::from(NoMemory)
    }
}

impl<T: Drop> From<AllocFailed<T>> for FileRefusal {
    ghost from_gives = { λ _ e. e.why ≡ whys.NoMemory };

    fn from(_error: AllocFailed<T>) -> FileRefusal {
        FileRefusal::from(NoMemory)
    }
}
