//! A clock in memory.

ghost use Rattle.std.specs.Prelude.{◌≡◌, [], ◌++◌, ◌∷◌, IsTrue, length};
ghost use Rattle.sec_base.specs.MemClock.{moment_after, moments_given, stated_moments};

use crate::clock::Clock;
use crate::moment::Moment;

/// A clock that gives the moments of a list and then the last of them again and again; with an empty list it gives the start of
/// 1970. It tells them, until it has given 2^64 - 1.
#[derive(Drop)]
pub struct MemClock {
    moments: Vec<Moment>,
    count: u64,
}

impl MemClock {
    pub fn new(moments: Vec<Moment>) -> MemClock
        ensures given { ⟦<MemClock as Clock>⟧.given result ≡ [] }
        ensures tells { IsTrue (⟦<MemClock as Clock>⟧.tells result) }
        ensures stated { stated_moments result ≡ moments.items }
    {
        MemClock { moments, count: 0 }
    }

    /// How many moments were given.
    pub fn count(&self) -> u64
        ensures count { result ≡ length (⟦<MemClock as Clock>⟧.given self.now) }
        ensures given { ⟦<MemClock as Clock>⟧.given self.now
            ≡ moments_given (stated_moments self.now) 0 result }
    {
        self.count
    }
}

/// The moment after `count` others.
fn moment_at(moments: &[Moment], count: u64) -> Moment
    ensures { result ≡ moment_after moments.now 0 count }
{
    if count < moments.len() as u64 {
        return moments[count as usize];
    }
    if moments.is_empty() {
        return Moment::start();
    }
    moments[moments.len() - 1]
}

impl Clock for MemClock {
    ghost use Rattle.std.specs.Prelude.{nat_lt, ◌^◌, ◌-◌};

    ghost tells = { λ c. nat_lt c.count (2 ^ 64 - 1) };

    ghost given = { λ c. moments_given c.moments.items 0 c.count };

    fn now(&mut self) -> Moment
        ensures kept { IsTrue (⟦<MemClock as Clock>⟧.tells self.new)
            → IsTrue (⟦<MemClock as Clock>⟧.tells self.old) }
        ensures told { IsTrue (⟦<MemClock as Clock>⟧.tells self.new)
            → ⟦<MemClock as Clock>⟧.given self.new
            ≡ ⟦<MemClock as Clock>⟧.given self.old ++ result ∷ [] }
        ensures stated { stated_moments self.new ≡ stated_moments self.old }
        ensures next { result
            ≡ moment_after (stated_moments self.old) 0
            (length (⟦<MemClock as Clock>⟧.given self.old)) }
    {
        let moment = moment_at(&self.moments, self.count);
        self.count = self.count.saturating_add(1);
        moment
    }
}
