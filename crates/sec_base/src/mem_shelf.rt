//! A shelf in memory.

ghost use Rattle.std.specs.Prelude.{◌≡◌, ◌≤◌, [], Some, None, IsTrue, IsErr, IsErrOf, nat_eq};
ghost use Rattle.std.specs.Cmp.Lexicographic.{pointwise};
ghost use Rattle.std.specs.Option.{option_map};
ghost use Rattle.sec_base.specs.Answers.{Rose};
ghost use Rattle.sec_base.specs.Shelf.{content_of, Copies, Loads, Asks};

use crate::failing::Failing;
use crate::octets::Octets;
use crate::shelf::{LoadRefusal, NamedFile, Shelf};
use crate::text::Text;
use std::alloc::Global;

/// A shelf of stated files, which tells them and keeps the names that were asked.
#[derive(Drop)]
pub struct MemShelf {
    files: Vec<NamedFile>,
    asked: Vec<Text>,
    failing: Failing,
}

impl MemShelf {
    ghost use Rattle.sec_base.specs.Failures.{failures_from, shelf_failures};

    /// A shelf of these files; of two with one name the first is given. The calls whose numbers, counted from 1, stand in `failing`
    /// fail.
    pub fn new(alloc: Global, files: Vec<NamedFile>, failing: Vec<u64>) -> MemShelf
        ensures files { ⟦<MemShelf as Shelf>⟧.files result ≡ files.items }
        ensures asked { ⟦<MemShelf as Shelf>⟧.asked result ≡ [] }
        ensures faults { ⟦<MemShelf as Shelf>⟧.faults result ≡ 0 }
        ensures tells { IsTrue (⟦<MemShelf as Shelf>⟧.tells result) }
        ensures failing { shelf_failures result ≡ failures_from failing.items }
    {
        MemShelf {
            files,
            asked: Vec::new(alloc),
            failing: Failing::new(failing),
        }
    }

    /// The names that were asked so far.
    pub fn asked(&self) -> &[Text]
        ensures { result.now ≡ ⟦<MemShelf as Shelf>⟧.asked self.now }
    {
        self.asked.as_slice()
    }

    /// How many calls failed.
    pub fn faults(&self) -> u64
        ensures { result ≡ ⟦<MemShelf as Shelf>⟧.faults self.now }
    {
        self.failing.faults
    }
}

/// Whether a file has this name.
fn is_named(file: &NamedFile, name: &str) -> bool
    ensures { result ≡ pointwise nat_eq file.now.name name.now }
{
    file.name.as_str().as_bytes() == name.as_bytes()
}

/// The contents of the first file of this name.
fn find<'a>(files: &'a [NamedFile], name: &str) -> Option<&'a [u8]>
    ensures { option_map (λ bytes. bytes.now) result ≡ content_of files.now name.now }
{
    for file in files {
        if is_named(file, name) {
            return Some(file.content.as_slice());
        }
    }
    None
}

impl Shelf for MemShelf {
    ghost use Rattle.std.specs.Prelude.{true};
    ghost use Rattle.sec_base.specs.Failures.{shelf_failures, fails_next, one_more};

    ghost faults = { λ s. s.failing.faults };

    ghost tells = { λ _. true };

    ghost files = { λ s. s.files.items };

    ghost asked = { λ s. s.asked.items };

    fn load(&mut self, alloc: Global, name: &str, limit: usize) -> Result<Octets, LoadRefusal>
        ensures told { IsTrue (⟦<MemShelf as Shelf>⟧.tells self.old)
            → Loads (⟦<MemShelf as Shelf>⟧.files self.old) name.now limit result }
        ensures asked { IsTrue (⟦<MemShelf as Shelf>⟧.tells self.old)
            → Asks (⟦<MemShelf as Shelf>⟧.asked self.old)
            (⟦<MemShelf as Shelf>⟧.asked self.new) name.now result }
        ensures files { ⟦<MemShelf as Shelf>⟧.files self.new
            ≡ ⟦<MemShelf as Shelf>⟧.files self.old }
        ensures tells { ⟦<MemShelf as Shelf>⟧.tells self.new
            ≡ ⟦<MemShelf as Shelf>⟧.tells self.old }
        ensures fault { IsErrOf result LoadRefusal.Fault
            → Rose (⟦<MemShelf as Shelf>⟧.faults self.old) (⟦<MemShelf as Shelf>⟧.faults self.new) }
        ensures faults { ⟦<MemShelf as Shelf>⟧.faults self.old
            ≤ ⟦<MemShelf as Shelf>⟧.faults self.new }
        // a call fails where it is to
        ensures fails { IsTrue (fails_next (shelf_failures self.old)) → IsErr result }
        ensures counted { shelf_failures self.new ≡ one_more (shelf_failures self.old) }
    {
        let fails = self.failing.fails();
        let Ok(asked) = Text::of(alloc, name) else {
            return Err(LoadRefusal::NoMemory);
        };
        if self.asked.push(asked).is_err() {
            return Err(LoadRefusal::NoMemory);
        }
        if fails {
            self.failing.fault();
            return Err(LoadRefusal::Fault);
        }
        match find(&self.files, name) {
            None => {
                self.failing.fault();
                Err(LoadRefusal::Fault)
            }
            Some(content) => copy_within(alloc, content, limit),
        }
    }
}

/// A copy of the contents, where they are within the limit.
fn copy_within(alloc: Global, content: &[u8], limit: usize) -> Result<Octets, LoadRefusal>
    ensures { Copies content.now limit result }
{
    if content.len() > limit {
        return Err(LoadRefusal::TooLong);
    }
    match Octets::of(alloc, content) {
        Ok(octets) => Ok(octets),
        Err(_) => Err(LoadRefusal::NoMemory),
    }
}
