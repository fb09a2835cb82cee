//! Random octets.

ghost use Rattle.std.specs.Prelude.{◌≡◌, ℕ, ◌++◌, Bool, List, IsTrue};

/// A source of random octets, which never fails. Where it tells its octets, `given` has those that it gave, in order; one that
/// stopped telling doesn't begin again.
pub trait Draw {
    ghost tells: { Self → Bool };

    ghost given: { Self → List ℕ };

    /// Fills `out` with the next octets.
    fn fill(&mut self, out: &mut [u8])
        ensures kept { IsTrue (tells self.new) → IsTrue (tells self.old) }
        ensures told { IsTrue (tells self.new) → given self.new ≡ given self.old ++ out.new };
}
