//! A stream of octets in both directions, as a TCP connection is one.

ghost use Rattle.std.specs.Prelude.{◌≡◌, ℕ, ◌<◌, ◌≤◌, Bool, true, false, length, IfOk};
ghost use Rattle.std.specs.Prelude.{OnErr, OnOk};
ghost use Rattle.sec_base.specs.Answers.{Rose};
ghost use Rattle.sec_base.specs.Link.{Wire, Reads, Writes};

/// A read or a write failed, and the link's count of faults rose.
#[derive(Clone, Copy, Debug, PartialEq, Eq)]
pub struct LinkFault;

/// A stream of octets in both directions.
///
/// `faults` counts the calls that failed, and a read or a write that answers well leaves it where it was. `wire` has the octets that were taken
/// and those that were written, of each link, and those still to come where the link tells its octets. `closed` says whether `close` was called, and `closes` what it makes of the link.
pub trait Link {
    ghost faults: { Self → ℕ };

    ghost tells: { Self → Bool };

    ghost wire: { Self → Wire };

    ghost closed: { Self → Bool };

    ghost closes: { Self → Self → Type 0 };

    /// Takes the next octets, as many as are there and fit, to the front of `buf`. 0 octets into a buffer that isn't empty
    /// are the end of input.
    fn read(&mut self, buf: &mut [u8]) -> Result<usize, LinkFault>
        requires { closed self.old ≡ false }
        ensures count { IfOk result (λ count. count ≤ length buf.old) }
        ensures told { Reads (tells self.old) (wire self.old) (wire self.new) result buf.new }
        ensures tells { tells self.new ≡ tells self.old }
        ensures unclosed { closed self.new ≡ false }
        ensures fault { OnErr result (Rose (faults self.old) (faults self.new)) }
        ensures steady { OnOk result (faults self.new ≡ faults self.old) }
        ensures faults { faults self.old ≤ faults self.new };

    /// Writes the first octets of `buf`, at least one of a buffer that isn't empty.
    fn write(&mut self, buf: &[u8]) -> Result<usize, LinkFault>
        requires { closed self.old ≡ false }
        ensures count { IfOk result (λ count. count ≤ length buf.now) }
        ensures some { IfOk result (λ count. 0 < length buf.now → 0 < count) }
        ensures told { Writes (tells self.old) (wire self.old) (wire self.new) result buf.now }
        ensures tells { tells self.new ≡ tells self.old }
        ensures unclosed { closed self.new ≡ false }
        ensures fault { OnErr result (Rose (faults self.old) (faults self.new)) }
        ensures steady { OnOk result (faults self.new ≡ faults self.old) }
        ensures faults { faults self.old ≤ faults self.new };

    /// Ends the stream in both directions.
    fn close(&mut self)
        ensures told { wire self.new ≡ wire self.old }
        ensures tells { tells self.new ≡ tells self.old }
        ensures closed { closed self.new ≡ true }
        ensures closes { closes self.old self.new }
        ensures faults { faults self.old ≤ faults self.new };
}
