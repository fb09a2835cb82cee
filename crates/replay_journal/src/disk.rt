//! A disk.
ghost use Rattle.std.specs.Prelude.{◌≡◌, ◌≤◌, ◌+◌, ◌<◌, ◌^◌, ℕ, List, length, take, drop, IfOk};
ghost use Rattle.std.specs.Prelude.{OnOk, OnErr, IsErr, IsTrue};
ghost use Rattle.sec_base.specs.Answers.{Rose};
ghost use Rattle.replay_journal.specs.Disks.{Written, Torn, Follows, Only, OldOrNew, Elapses};

/// A call of a disk failed.
#[derive(Clone, Copy, Debug, PartialEq, Eq)]
pub struct DiskFault;

/// One file.
///
/// Where it tells, `contents` is what a read gives. `may_leave` is what a crash at this moment may
/// leave, and `left_since` what a crash at some moment from that one on might have left, during a
/// call or between two. Of the moments it is only said that they don't fall.
pub trait Disk {
    ghost use Rattle.std.specs.Prelude.{Bool};

    ghost tells: { Self → Bool };

    ghost contents: { Self → List ℕ };

    ghost may_leave: { Self → List ℕ → Type 0 };

    ghost moment: { Self → ℕ };

    ghost left_since: { Self → ℕ → List ℕ → Type 0 };

    /// How many calls failed.
    ghost faults: { Self → ℕ };

    /// How many octets it has.
    fn len(&mut self) -> Result<u64, DiskFault>
        ensures told { IsTrue (tells self.old) → IfOk result (λ count. count
            ≡ length (contents self.old)) }
        ensures tells { tells self.new ≡ tells self.old }
        ensures same { contents self.new ≡ contents self.old }
        ensures crash { (c : List ℕ) → may_leave self.new c → may_leave self.old c }
        ensures time { Elapses (moment self.old) (moment self.new) (left_since self.old)
            (left_since self.new) (may_leave self.new) }
        ensures fault { IsErr result → Rose (faults self.old) (faults self.new) }
        ensures faults { faults self.old ≤ faults self.new };

    /// Reads octets that are there.
    fn read_at(&mut self, at: u64, buf: &mut [u8]) -> Result<(), DiskFault>
        requires { IsTrue (tells self.old) → at + length buf.old ≤ length (contents self.old) }
        ensures told { IsTrue (tells self.old) → OnOk result (buf.new
            ≡ take (length buf.old) (drop at (contents self.old))) }
        ensures tells { tells self.new ≡ tells self.old }
        ensures same { contents self.new ≡ contents self.old }
        ensures crash { (c : List ℕ) → may_leave self.new c → may_leave self.old c }
        ensures time { Elapses (moment self.old) (moment self.new) (left_since self.old)
            (left_since self.new) (may_leave self.new) }
        ensures fault { IsErr result → Rose (faults self.old) (faults self.new) }
        ensures faults { faults self.old ≤ faults self.new };

    /// Writes over what is there, and past the end. Until a sync, a crash may leave any octets
    /// in the range.
    fn write_at(&mut self, at: u64, bytes: &[u8]) -> Result<(), DiskFault>
        requires { IsTrue (tells self.old) → at ≤ length (contents self.old) }
        ensures told { IsTrue (tells self.old)
            → OnOk result (Written (contents self.old) at bytes.now (contents self.new)) }
        ensures tells { tells self.new ≡ tells self.old }
        ensures crash { Follows (Torn at (length bytes.now)) (may_leave self.old)
            (may_leave self.new) }
        ensures time { Elapses (moment self.old) (moment self.new) (left_since self.old)
            (left_since self.new) (may_leave self.new) }
        ensures fault { IsErr result → Rose (faults self.old) (faults self.new) }
        ensures faults { faults self.old ≤ faults self.new };

    /// After it, a crash leaves what a read gives.
    fn sync(&mut self) -> Result<(), DiskFault>
        ensures durable { IsTrue (tells self.old)
            → OnOk result (Only (contents self.old) (may_leave self.new)) }
        ensures tells { tells self.new ≡ tells self.old }
        ensures same { contents self.new ≡ contents self.old }
        ensures crash { OnErr result ((c : List ℕ) → may_leave self.new c → may_leave self.old c) }
        ensures time { Elapses (moment self.old) (moment self.new) (left_since self.old)
            (left_since self.new) (may_leave self.new) }
        ensures fault { IsErr result → Rose (faults self.old) (faults self.new) }
        ensures faults { faults self.old ≤ faults self.new };

    /// Puts a file of these octets in the place of the one that is there: it is written beside
    /// it, synced, and named as it, and the folder is synced. A crash leaves the old octets or
    /// the new ones.
    fn replace(&mut self, bytes: &[u8]) -> Result<(), DiskFault>
        ensures told { IsTrue (tells self.old) → OnOk result (contents self.new ≡ bytes.now) }
        ensures durable { IsTrue (tells self.old)
            → OnOk result (Only bytes.now (may_leave self.new)) }
        ensures tells { tells self.new ≡ tells self.old }
        ensures crash { OldOrNew bytes.now (may_leave self.old) (may_leave self.new) }
        ensures time { Elapses (moment self.old) (moment self.new) (left_since self.old)
            (left_since self.new) (may_leave self.new) }
        ensures fault { IsErr result → Rose (faults self.old) (faults self.new) }
        ensures faults { faults self.old ≤ faults self.new };

    /// This moment is one of those since an earlier one.
    ghost counts_now: { (file : Self) (t : ℕ) (c : List ℕ) → t ≤ moment file → may_leave file c
        → left_since file t c };

    /// Since this moment there is no other.
    ghost only_now: { (file : Self) (c : List ℕ) → left_since file (moment file) c
        → may_leave file c };
}
