//! What is kept of a call's outcome, and told again of it.
ghost use Rattle.std.specs.Prelude.{◌≡◌, ◌≤◌, length, IfSome};
ghost use Rattle.rpc_program.specs.Programs.{IsShort};
ghost use Rattle.rpc_program.specs.declared.limits.TheConstants.{MOST};
ghost use Rattle.again_calls.specs.Outcomes.{KeepsResult, IsKept, IsResult, IsAgain};

use crate::outcome::{KeptOutcome, KeptResult};
use rpc_program::Outcome;
use sec_base::Octets;
use std::alloc::Global;

/// What is kept of a result of so many octets at most.
fn keep_result(alloc: Global, most: u32, octets: &[u8]) -> KeptOutcome
    requires { length octets.now ≤ MOST }
    ensures { KeepsResult most octets.now result }
{
    if octets.len() > most as usize {
        return KeptOutcome::Long;
    }
    match Octets::of(alloc, octets) {
        Ok(octets) => KeptOutcome::Done(KeptResult { octets }),
        Err(_) => KeptOutcome::NoMemory,
    }
}

/// What is kept of an outcome; of a result its octets, where they are at most so many.
pub fn kept_of(alloc: Global, most: u32, outcome: &Outcome) -> KeptOutcome
    requires { IsShort outcome.now }
    ensures { IsKept most outcome.now result }
{
    match outcome {
        Outcome::Args => KeptOutcome::Args,
        Outcome::Done(octets) => keep_result(alloc, most, octets.as_slice()),
        Outcome::Refused(why) => KeptOutcome::Refused(*why),
        Outcome::Mismatch { low, high } => KeptOutcome::Mismatch {
            low: *low,
            high: *high,
        },
        Outcome::Gone => KeptOutcome::Gone,
        Outcome::NoMemory => KeptOutcome::NoMemory,
    }
}

/// A result that was kept, as it is told again.
fn copy_result(alloc: Global, kept: &KeptResult) -> Outcome
    ensures again { IsResult kept.now.octets result }
    ensures short { IsShort result }
{
    match Octets::of(alloc, kept.octets.as_slice()) {
        Ok(octets) => Outcome::Done(octets),
        Err(_) => Outcome::NoMemory,
    }
}

/// The outcome that was kept, as it is told again; none of a result that was too long.
pub fn told_again(alloc: Global, kept: &KeptOutcome) -> Option<Outcome>
    ensures again { IsAgain kept.now result }
    ensures short { IfSome result (λ outcome. IsShort outcome) }
{
    match kept {
        KeptOutcome::Args => Some(Outcome::Args),
        KeptOutcome::Done(octets) => Some(copy_result(alloc, octets)),
        KeptOutcome::Refused(why) => Some(Outcome::Refused(*why)),
        KeptOutcome::Mismatch { low, high } => Some(Outcome::Mismatch {
            low: *low,
            high: *high,
        }),
        KeptOutcome::Gone => Some(Outcome::Gone),
        KeptOutcome::NoMemory => Some(Outcome::NoMemory),
        KeptOutcome::Long => None,
    }
}
