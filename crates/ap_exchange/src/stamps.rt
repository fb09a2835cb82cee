//! Stamps of authenticators.

ghost use Rattle.std.specs.Prelude.{◌≡◌, None};
ghost use Rattle.ap_exchange.specs.Stamps.{next_stamp, last_after};

use sec_base::Moment;
use std::marker::Model;

/// The stamps that an initiator gives, no two of which are equal. Contracts see the last one.
#[derive(Drop)]
pub struct Stamps {
    last: Option<Moment>,
}

impl Model for Stamps {
    ghost use Rattle.std.specs.Prelude.{Option, ℕ};

    ghost Value = { Option ℕ };

    ghost view = { λ s. s.last };
}

impl Stamps {
    /// No stamp was given yet.
    pub fn new() -> Stamps
        ensures { result ≡ None }
    {
        Stamps { last: None }
    }

    /// The stamp for this moment: the moment itself where it is later than the last stamp, else the last stamp and one
    /// microsecond; None exactly where that passes the greatest moment, and then nothing changes.
    pub fn next(&mut self, now: Moment) -> Option<Moment>
        ensures stamp { result ≡ next_stamp self.old now }
        ensures last { self.new ≡ last_after self.old result }
    {
        let stamp = match self.last {
            None => now,
            Some(last) => {
                if last < now {
                    now
                } else if last < Moment::greatest() {
                    last.later(1)
                } else {
                    return None;
                }
            }
        };
        self.last = Some(stamp);
        Some(stamp)
    }
}
