//! What time it is.

ghost use Rattle.std.specs.Prelude.{◌≡◌, ℕ, ◌∷◌, [], ◌++◌, Bool, List, IsTrue};

use crate::moment::Moment;

/// A clock, which never fails. Where it tells its moments, `given` has those that it gave, in order; one that stopped telling
/// doesn't begin again.
pub trait Clock {
    ghost tells: { Self → Bool };

    ghost given: { Self → List ℕ };

    /// What time it is.
    fn now(&mut self) -> Moment
        ensures kept { IsTrue (tells self.new) → IsTrue (tells self.old) }
        ensures told { IsTrue (tells self.new) → given self.new ≡ given self.old ++ result ∷ [] };
}
