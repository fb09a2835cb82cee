//! Where files are read from.

ghost use Rattle.std.specs.Prelude.{◌≡◌, ℕ, ◌≤◌, Bool, List, IsTrue, IsErrOf};
ghost use Rattle.sec_base.specs.Answers.{Rose};

use crate::octets::Octets;
use crate::text::Text;
use std::alloc::Global;

/// A file by its name.
#[derive(Drop)]
pub struct NamedFile {
    pub name: Text,
    pub content: Octets,
}

/// Why a file was not given.
#[derive(Clone, Copy, Debug, PartialEq, Eq)]
pub enum LoadRefusal {
    /// It isn't there, or reading it failed; the shelf's count of faults rose.
    Fault,
    /// It has more octets than the limit.
    TooLong,
    /// There was no memory for it.
    NoMemory,
}

/// Where files are read from.
///
/// `faults` counts the calls that failed. Where the shelf tells its files, `files` has them, the first of a name being the one that
/// is given, and `asked` the names that were asked, in order.
pub trait Shelf {
    ghost use Rattle.sec_base.specs.declared.shelf.NamedFile.{NamedFile};
    ghost use Rattle.sec_base.specs.Shelf.{Loads, Asks};

    ghost faults: { Self → ℕ };

    ghost tells: { Self → Bool };

    ghost files: { Self → List NamedFile };

    ghost asked: { Self → List (List ℕ) };

    /// The contents of the file of this name, at most `limit` octets.
    fn load(&mut self, alloc: Global, name: &str, limit: usize) -> Result<Octets, LoadRefusal>
        ensures told { IsTrue (tells self.old) → Loads (files self.old) name.now limit result }
        ensures asked { IsTrue (tells self.old)
            → Asks (asked self.old) (asked self.new) name.now result }
        ensures files { files self.new ≡ files self.old }
        ensures tells { tells self.new ≡ tells self.old }
        ensures fault { IsErrOf result LoadRefusal.Fault
            → Rose (faults self.old) (faults self.new) }
        ensures faults { faults self.old ≤ faults self.new };
}
