//! A keeper that counts.

ghost use Rattle.std.specs.Prelude.{◌≡◌};

use gss_server::Keeper;
use sec_base::NoMemory;

/// Counts what it is given and lets it go, so that what a run holds doesn't grow with what comes.
#[derive(Drop)]
pub(crate) struct KeepCount {
    /// How many things it was given.
    pub(crate) count: u64,
}

impl KeepCount {
    /// It was given nothing yet.
    pub(crate) fn new() -> KeepCount
        ensures { result.count ≡ 0 }
    {
        KeepCount { count: 0 }
    }
}

impl<T: Drop> Keeper<T> for KeepCount {
    ghost use Rattle.std.specs.Prelude.{◌<◌, [], ◌∷◌, replicate};

    type Part = ();

    ghost parts = { λ _. tt ∷ [] };

    ghost kept = { λ keeper. replicate keeper.count tt };

    ghost ready = { λ keeper. keeper.count < 18446744073709551615 };

    fn make_room(&mut self) -> Result<(), NoMemory> {
        if self.count < u64::MAX {
            Ok(())
        } else {
            Err(NoMemory)
        }
    }

    fn keep(&mut self, one: T) {
        drop(one);
        self.count += 1;
    }
}
