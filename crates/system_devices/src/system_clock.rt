//! The system's clock.

ghost use Rattle.std.specs.Prelude.{◌≡◌, ◌++◌, ◌∷◌, [], IsTrue};
ghost use Rattle.system_devices.specs.Devices.{last_given};

use crate::moments::Moments;
use sec_base::{Clock, Moment};
use std::rt::Clock as SystemTimeSource;
use std::time::{Instant, SystemTime, UNIX_EPOCH};

/// The microseconds of an hour, for which what the system says is believed unasked.
const HOUR: u64 = 3_600_000_000;

/// The microseconds of a day, by which a clock may be ahead of the time that went by.
const DAY: u64 = 86_400_000_000;

/// For how many seconds a clock that is further ahead has to stay so before it is believed.
const STAY: u64 = 600;

/// A moment that was believed, and when that was by the clock that nobody sets.
#[derive(Clone, Copy)]
struct Anchor {
    moment: Moment,
    at: Instant,
}

/// The system's clock. Where it can't be read, or is out of range, it gives the last moment that it gave, at first the start of 1970.
/// Where it is set ahead by more than a day, it gives the moment that it would be else, until it has stayed ahead for ten minutes: the
/// greatest moment that was seen decides what is stale. It tells the moments that it gave.
#[derive(Drop)]
pub struct SystemClock<R: SystemTimeSource + Drop> {
    rt: R,
    last: Moment,
    anchor: Option<Anchor>,
    /// Since when it has been ahead.
    ahead: Option<Instant>,
    given: Moments,
}

impl<R: SystemTimeSource + Drop> SystemClock<R> {
    /// The clock that gave no moment yet.
    pub fn new(rt: R) -> SystemClock<R>
        ensures last { last_given result ≡ 0 }
        ensures none { ⟦<SystemClock<R> as Clock>⟧.given result ≡ [] }
        ensures tells { IsTrue (⟦<SystemClock<R> as Clock>⟧.tells result) }
    {
        SystemClock {
            rt,
            last: Moment::start(),
            anchor: None,
            ahead: None,
            given: Moments::new(),
        }
    }

    /// The moment to give for what the system says.
    fn believed(&mut self, reading: Moment) -> Moment
        ensures { self.new.given ≡ self.old.given }
    {
        if is_near(&self.anchor, reading) {
            self.ahead = None;
            return reading;
        }
        match Instant::now(&self.rt) {
            Ok(now) => self.judged(reading, now),
            Err(_) => reading,
        }
    }

    /// The same, by the clock that nobody sets.
    fn judged(&mut self, reading: Moment, now: Instant) -> Moment
        ensures { self.new.given ≡ self.old.given }
    {
        if let Some(anchor) = self.anchor {
            let due = due(&anchor, now);
            if reading > due.later(DAY) && !has_stayed(&self.ahead, now) {
                self.ahead = Some(self.ahead.unwrap_or(now));
                return due;
            }
        }
        self.ahead = None;
        self.anchor = Some(Anchor {
            moment: reading,
            at: now,
        });
        reading
    }
}

/// Whether a moment is within the hour behind the believed one.
fn is_near(anchor: &Option<Anchor>, reading: Moment) -> bool {
    match anchor {
        Some(anchor) => anchor.moment <= reading && reading <= anchor.moment.later(HOUR),
        None => false,
    }
}

/// The moment that it is by the believed one and the time that went by.
fn due(anchor: &Anchor, now: Instant) -> Moment {
    let gone = now.duration_since(anchor.at).as_micros();
    anchor.moment.later(u64::try_from(gone).unwrap_or(u64::MAX))
}

/// Whether the clock has been ahead for long enough.
fn has_stayed(ahead: &Option<Instant>, now: Instant) -> bool {
    match ahead {
        Some(since) => now.duration_since(*since).as_secs() >= STAY,
        None => false,
    }
}

/// What the system says that the time is.
fn reading<R: SystemTimeSource>(rt: &R) -> Option<Moment> {
    let time = SystemTime::now(rt).ok()?;
    let since = time.duration_since(UNIX_EPOCH).ok()?;
    Moment::new(since.as_secs(), since.subsec_micros())
}

impl<R: SystemTimeSource + Drop> Clock for SystemClock<R> {
    ghost use Rattle.std.specs.Prelude.{true};

    ghost tells = { λ _. true };

    ghost given = { λ clock. clock.given.moments };

    fn now(&mut self) -> Moment
        ensures kept { IsTrue (⟦<SystemClock<R> as Clock>⟧.tells self.new)
            → IsTrue (⟦<SystemClock<R> as Clock>⟧.tells self.old) }
        ensures told { IsTrue (⟦<SystemClock<R> as Clock>⟧.tells self.new)
            → ⟦<SystemClock<R> as Clock>⟧.given self.new
            ≡ ⟦<SystemClock<R> as Clock>⟧.given self.old ++ result ∷ [] }
        ensures last { result ≡ last_given self.new }
    {
        if let Some(moment) = reading(&self.rt) {
            self.last = self.believed(moment);
        }
        self.given = self.given.then(&self.last);
        self.last
    }
}
