//! Datagrams in both directions, as a UDP socket has them.

ghost use Rattle.std.specs.Prelude.{◌≡◌, ℕ, ◌≤◌, Bool, List, Option, IsTrue, OnErr, length};
ghost use Rattle.sec_base.specs.Answers.{Rose};
ghost use Rattle.datagram_post.specs.Posts.{FitsIn, Hears, Sends};

/// A datagram wasn't sent or received, and the post's count of faults rose.
#[derive(Clone, Copy, Debug, PartialEq, Eq)]
pub struct PostFault;

/// Datagrams in both directions.
///
/// `faults` counts the calls that failed. Where the post tells its datagrams, `heard` has what `recv` answered, in order, None
/// where nothing came within its wait; and `sent` has what was sent, in order.
pub trait Post {
    ghost faults: { Self → ℕ };

    ghost tells: { Self → Bool };

    ghost heard: { Self → List (Option (List ℕ)) };

    ghost sent: { Self → List (List ℕ) };

    /// The next datagram, at the front of `buf`, as far as it fits; or None where nothing came within the wait.
    fn recv(&mut self, buf: &mut [u8]) -> Result<Option<usize>, PostFault>
        ensures fits { FitsIn result buf.new }
        ensures size { length buf.new ≡ length buf.old }
        ensures told { IsTrue (tells self.old)
            → Hears (heard self.old) (heard self.new) result buf.new }
        ensures sent { IsTrue (tells self.old) → sent self.new ≡ sent self.old }
        ensures tells { tells self.new ≡ tells self.old }
        ensures fault { OnErr result (Rose (faults self.old) (faults self.new)) }
        ensures faults { faults self.old ≤ faults self.new };

    /// Sends a datagram, whole or not at all. A server's goes to the sender of the last datagram.
    fn send(&mut self, bytes: &[u8]) -> Result<(), PostFault>
        ensures told { IsTrue (tells self.old)
            → Sends (sent self.old) (sent self.new) bytes.now result }
        ensures heard { IsTrue (tells self.old) → heard self.new ≡ heard self.old }
        ensures tells { tells self.new ≡ tells self.old }
        ensures fault { OnErr result (Rose (faults self.old) (faults self.new)) }
        ensures faults { faults self.old ≤ faults self.new };
}
