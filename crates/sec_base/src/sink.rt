//! Where a program's texts go.

ghost use Rattle.std.specs.Prelude.{◌≡◌, ℕ, ◌≤◌, Bool, List, IsTrue, OnErr};
ghost use Rattle.sec_base.specs.Answers.{Rose};
ghost use Rattle.sec_base.specs.Sink.{Appends};

/// A write failed, and the sink's count of faults rose.
#[derive(Clone, Copy, Debug, PartialEq, Eq)]
pub struct SinkFault;

/// Where octets are written, as standard output is.
///
/// `faults` counts the calls that failed. Where the sink tells its octets, `written` has those that were written.
pub trait Sink {
    ghost faults: { Self → ℕ };

    ghost tells: { Self → Bool };

    ghost written: { Self → List ℕ };

    /// Appends all of `bytes`; at a fault a front of them was appended.
    fn write(&mut self, bytes: &[u8]) -> Result<(), SinkFault>
        ensures told { IsTrue (tells self.old)
            → Appends (written self.old) (written self.new) result bytes.now }
        ensures tells { tells self.new ≡ tells self.old }
        ensures fault { OnErr result (Rose (faults self.old) (faults self.new)) }
        ensures faults { faults self.old ≤ faults self.new };
}
