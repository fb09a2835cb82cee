//! Moments of the exchange.

ghost use Rattle.std.specs.Prelude.{◌≡◌, ◌≤◌, ◌%◌};
ghost use Rattle.sec_base.specs.Answers.{Gives};
ghost use Rattle.ap_exchange.specs.Request.{seconds_of};
ghost use Rattle.ap_exchange.specs.Judging.{is_near, is_invalid, start_of, is_begun, is_lasting};
ghost use Rattle.ap_exchange.specs.Judging.{stamp_of, timely};

use crate::refusal::ApRefusal;
use krb_msgs::{Authenticator, EncTicketPart};
use sec_base::Moment;

/// How far apart moments may lie, in microseconds: 300 seconds.
pub const SKEW: u64 = 300_000_000;

/// The microseconds of one second.
const MICROS: u64 = 1_000_000;

/// The whole seconds of a moment.
pub fn seconds_of(moment: Moment) -> Moment
    ensures { result ≡ seconds_of moment }
{
    match Moment::new(moment.secs(), 0) {
        Some(seconds) => seconds,
        None => unreachable!(),
    }
}

/// The moment that an authenticator carries.
pub fn stamp_of(said: &Authenticator) -> Moment
    requires time { said.now.ctime % 1000000 ≡ 0 }
    requires micros { said.now.cusec ≤ 999999 }
    ensures { result ≡ stamp_of said.now }
{
    let seconds = said.ctime.total();
    match Moment::new(seconds / MICROS, said.cusec) {
        Some(stamp) => stamp,
        None => unreachable!(),
    }
}

/// Whether two moments are at most 300 seconds apart.
fn is_near(now: Moment, stamp: Moment) -> bool
    ensures { result ≡ is_near now stamp }
{
    stamp.total() <= now.total() + SKEW && now.total() <= stamp.total() + SKEW
}

/// Whether a ticket is INVALID.
fn is_invalid(flags: u32) -> bool
    ensures { result ≡ is_invalid flags }
{
    flags / 0x0100_0000 % 2 == 1
}

/// When a ticket begins.
fn start_of(part: &EncTicketPart) -> Moment
    ensures { result ≡ start_of part.now }
{
    match part.starttime {
        Some(start) => start,
        None => part.authtime,
    }
}

/// Whether a ticket began at most 300 seconds after now, and isn't INVALID.
fn is_begun(now: Moment, part: &EncTicketPart) -> bool
    ensures { result ≡ is_begun now part.now }
{
    start_of(part).total() <= now.total() + SKEW && !is_invalid(part.flags)
}

/// Whether a ticket ended at most 300 seconds before now, if at all.
fn is_lasting(now: Moment, part: &EncTicketPart) -> bool
    ensures { result ≡ is_lasting now part.now }
{
    now.total() <= part.endtime.total() + SKEW
}

/// The moments of a request.
#[tactic(auto, unfolding(crate::specs::Judging::timely))]
pub fn timely(now: Moment, part: &EncTicketPart, said: &Authenticator) -> Result<(), ApRefusal>
    requires time { said.now.ctime % 1000000 ≡ 0 }
    requires micros { said.now.cusec ≤ 999999 }
    ensures { Gives ApRefusal.NoMemory (λ u. u) result (timely now part.now said.now) }
{
    if !is_near(now, stamp_of(said)) {
        return Err(ApRefusal::Skew);
    }
    if !is_begun(now, part) {
        return Err(ApRefusal::NotYet);
    }
    if !is_lasting(now, part) {
        return Err(ApRefusal::Expired);
    }
    Ok(())
}
