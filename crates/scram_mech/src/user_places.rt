//! Where the lines of users stand, found by their names.

ghost use Rattle.std.specs.Prelude.{◌≡◌, ℕ, List, Some, None, OnOk, if◌then◌else◌};
ghost use Rattle.scram_mech.specs.Judging.{same};
ghost use Rattle.scram_mech.specs.UserPlaces.{place_of};

use sec_base::NoMemory;
use std::alloc::Global;
use std::collections::BTreeMap;

/// The places of names, in a tree: each is looked up in steps by the logarithm of their number, whether it is there or not.
#[derive(Drop)]
pub(crate) struct Places {
    by_name: BTreeMap<Vec<u8>, usize>,
}

impl Places {
    /// Names without places.
    pub(crate) fn none(alloc: Global) -> Places
        ensures { (name : List ℕ) → place_of result name ≡ None }
    {
        Places {
            by_name: BTreeMap::new(alloc),
        }
    }

    /// The place of a name.
    pub(crate) fn find(&self, name: &[u8]) -> Option<usize>
        ensures { result ≡ place_of self.now name.now }
    {
        match self.by_name.get(name) {
            Some(place) => Some(*place),
            None => None,
        }
    }

    /// Gives a name this place.
    pub(crate) fn put(&mut self, alloc: Global, name: &[u8], place: usize) -> Result<(), NoMemory>
        ensures { OnOk result ((other : List ℕ) → place_of self.new other
            ≡ (if same name.now other then Some place else place_of self.old other)) }
    {
        let key = Vec::from_slice(alloc, name)?;
        self.by_name.insert(key, place)?;
        Ok(())
    }
}
