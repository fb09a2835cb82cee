//! Moments of civil time, in microseconds.

ghost use Rattle.std.specs.Prelude.{◌≡◌, ℕ, ◌+◌, ◌*◌, ◌/◌, ◌%◌, ◌<◌, ◌≤◌, ◌&&◌, if◌then◌else◌};
ghost use Rattle.std.specs.Prelude.{nat_le, nat_lt, min, Some, None};
ghost use Rattle.sec_base.specs.Moment.{greatest_moment};

use std::marker::Model;

/// The microseconds of one second.
const MICROS: u64 = 1_000_000;

/// The last second of the year 9999.
const LAST_SECOND: u64 = 253_402_300_799;

/// The last microsecond of the year 9999.
const GREATEST: u64 = 253_402_300_799_999_999;

/// A moment from the start of 1970 to the end of the year 9999 (UTC, no leap seconds). Contracts see it as the number of
/// microseconds since 1970.
#[derive(Clone, Copy, Debug, PartialEq, Eq, PartialOrd, Ord)]
pub struct Moment {
    total: u64,
}

impl Model for Moment {
    ghost use Rattle.std.specs.Prelude.{ℕ, ◌≤◌};
    ghost use Rattle.sec_base.specs.Moment.{greatest_moment};

    ghost Value = { ℕ };

    ghost view = { λ m. m.total };

    ghost invariant = { λ m. m.total ≤ greatest_moment };

    ghost inverse = { λ n. record { total = n } };
}

impl Moment {
    /// The moment `secs` seconds and `micros` microseconds after the start of 1970; None past the year 9999, or where
    /// `micros` are a second or more.
    pub fn new(secs: u64, micros: u32) -> Option<Moment>
        ensures { result ≡ (if nat_le secs 253402300799 && nat_lt micros 1000000
            then Some (secs * 1000000 + micros) else None) }
    {
        if secs > LAST_SECOND || micros as u64 >= MICROS {
            return None;
        }
        Some(Moment {
            total: secs * MICROS + micros as u64,
        })
    }

    /// The start of 1970.
    pub fn start() -> Moment
        ensures { result ≡ 0 }
    {
        Moment { total: 0 }
    }

    /// The last microsecond of the year 9999.
    pub fn greatest() -> Moment
        ensures { result ≡ greatest_moment }
    {
        Moment { total: GREATEST }
    }

    /// The microseconds since 1970.
    pub fn total(self) -> u64
        ensures value { result ≡ self }
        ensures most { result ≤ greatest_moment }
    {
        self.total
    }

    /// The whole seconds since 1970.
    pub fn secs(self) -> u64
        ensures { result ≡ self / 1000000 }
    {
        self.total / MICROS
    }

    /// The microseconds past the whole second.
    pub fn micros(self) -> u32
        ensures { result ≡ self % 1000000 }
    {
        (self.total % MICROS) as u32
    }

    /// The moment `span` microseconds later, or the greatest moment where that would pass it.
    pub fn later(self, span: u64) -> Moment
        ensures { result ≡ min (self + span) greatest_moment }
    {
        Moment {
            total: self.total.saturating_add(span).min(GREATEST),
        }
    }
}
