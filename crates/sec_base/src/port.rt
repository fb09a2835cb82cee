//! Where connections come in.

ghost use Rattle.std.specs.Prelude.{◌≡◌, ℕ, ◌≤◌, Bool, false, List, IsTrue, IfOk, IfSome, OnErr};
ghost use Rattle.std.specs.Prelude.{OnOk};
ghost use Rattle.sec_base.specs.Answers.{Rose};
ghost use Rattle.sec_base.specs.Port.{Accepts};

use crate::link::Link;

/// No link could be given, and the port's count of faults rose.
#[derive(Clone, Copy, Debug, PartialEq, Eq)]
pub struct PortFault;

/// Where links come in, one after the other.
///
/// `faults` counts the calls that failed, and a call that answers well leaves it where it was. Where the port tells its links, `links` has those to come.
pub trait Port {
    type Link: Link;

    ghost faults: { Self → ℕ };

    ghost tells: { Self → Bool };

    ghost links: { Self → List Self.Link };

    /// The next link, which isn't closed; None where no further one comes.
    fn accept(&mut self) -> Result<Option<Self::Link>, PortFault>
        ensures told { IsTrue (tells self.old) → Accepts (links self.old) (links self.new) result }
        ensures tells { tells self.new ≡ tells self.old }
        ensures unclosed { IfOk result
            (λ next. IfSome next (λ link. Self.Link.closed link ≡ false)) }
        ensures fault { OnErr result (Rose (faults self.old) (faults self.new)) }
        ensures steady { OnOk result (faults self.new ≡ faults self.old) }
        ensures faults { faults self.old ≤ faults self.new };
}
