//! That the premises of the laws can be met: one exchange by either mechanism, whose records are carried as they are, and one call after it.

ghost use Rattle.std.specs.Prelude.{◌≡◌, ◌≤◌, ℕ, true, length, IfOk, List, Some};
ghost use Rattle.gss_base.specs.declared.mech.MechKind.{MechKind};
ghost use Rattle.accept_book.specs.Booking.{BookOf};
ghost use Rattle.posts_program.specs.Posts.{are_args};
ghost use Rattle.world_runs.specs.Meeting.{AtStart, Meeting, IsCarried, InTime, IsCalled};
ghost use Rattle.world_runs.specs.Carrying.{sent_in, taken_in, completed_in, IsTurn};
ghost use Rattle.world_runs.specs.Worlds.{world_means, shown, IsWorld};

use crate::world::World;
use accept_book::Rule;
use sec_base::{Moment, NoMemory, Octets};
use std::alloc::Global;
use world_laws::{Happened, WorldEvent, tell_below};

/// The record that was handed out, where one was.
fn sent(happened: Happened) -> Option<Octets>
    ensures { result ≡ sent_in happened }
{
    match happened {
        Happened::Sent(bytes) => Some(bytes),
        Happened::Completed(_) => None,
        Happened::Stepped(_) => None,
        Happened::Refused => None,
        Happened::Nothing => None,
    }
}

/// The initiator's context stands.
fn is_completed(happened: &Happened) -> bool
    ensures { result ≡ completed_in happened.now }
{
    match happened {
        Happened::Sent(_) => false,
        Happened::Completed(_) => true,
        Happened::Stepped(_) => false,
        Happened::Refused => false,
        Happened::Nothing => false,
    }
}

/// A record's reply was handed out, or the record was ended without one, since what became of its call isn't known.
fn is_taken(happened: &Happened) -> bool
    ensures { result ≡ taken_in happened.now }
{
    match happened {
        Happened::Sent(_) => true,
        Happened::Completed(_) => false,
        Happened::Stepped(rule) => *rule == Rule::Lost.number(),
        Happened::Refused => false,
        Happened::Nothing => false,
    }
}

/// What the first initiator handed out comes to the first lane, and the reply to that initiator, whose session's first call has number 1: what it did,
/// nothing where no record was handed out or none came back.
fn turn(
    alloc: Global,
    world: &mut World,
    last: Happened,
    now: Moment,
    draws: &[u8; 82],
) -> Result<Happened, NoMemory>
    requires { IsWorld (world_means world.old meaning) }
    ensures world { IsWorld (world_means world.new meaning) }
    ensures turn { IfOk result (λ happened. (octets : List ℕ) → sent_in last ≡ Some octets
        → IsTurn octets now draws.now happened (shown world.old meaning)
        (shown world.new meaning)) }
{
    let record = match sent(last) {
        Some(record) => record,
        None => return Ok(Happened::Nothing),
    };
    let answered = world.step(
        alloc,
        WorldEvent::Lane {
            lane: 0,
            bytes: record,
            now,
            draws: *draws,
        },
    )?;
    match sent(answered) {
        Some(reply) => world.step(
            alloc,
            WorldEvent::Deliver {
                initiator: 0,
                bytes: reply,
                first: 1,
            },
        ),
        None => Ok(Happened::Nothing),
    }
}

/// The first initiator starts. Each record that it hands out comes to the first lane with the next of these draws, and the reply to the initiator,
/// whose session's first call has number 1; false where its context doesn't stand after the last.
///
/// Where nothing happened before, and both ends are an honest pair with as many tokens as draws (`Meeting`), both complete, by Kerberos or by SCRAM, with
/// the list's MICs where they are due, and after a switch where the acceptor chose another mechanism than the initiator's first. The marking that has
/// the chosen credential alone then shows that the run meets the premises: nothing is forged in it, and all is fresh. It meets what
/// `prove_known_list` of `world_laws` asks beside these, too.
pub fn meet(
    alloc: Global,
    world: &mut World,
    now: Moment,
    draws: &[[u8; 82]],
) -> Result<bool, NoMemory>
    requires { IsWorld (world_means world.old meaning) }
    ensures world { IsWorld (world_means world.new meaning) }
    ensures met { IfOk result (λ met. (book : BookOf) (lanes : ℕ)
        → AtStart (shown world.old meaning) book lanes
        → (meeting : Meeting book (shown world.old meaning).facts lanes now draws.now)
        → (met ≡ true) × ∥ IsCarried (shown world.new meaning) meeting.kind ∥₁) }
{
    let _events = world.events();
    let mut last = world.step(alloc, WorldEvent::Start { initiator: 0 })?;
    for drawn in draws {
        last = turn(alloc, world, last, now, drawn)?;
    }
    tell_below();
    let met = is_completed(&last);
    drop(last);
    Ok(met)
}

/// After such an exchange the initiator calls. Its record comes to the first lane, which has two events: it looks for the context, and it admits the
/// call; false where the session or the lane doesn't go on.
///
/// Where the world came of such an exchange, and the context's end isn't past, the call stands in the log, and the run still meets the premises.
pub fn call_once(
    alloc: Global,
    world: &mut World,
    procedure: u32,
    args: Octets,
    now: Moment,
    draws: [u8; 82],
) -> Result<bool, NoMemory>
    requires served { procedure ≤ 4 }
    requires proper { are_args procedure args ≡ true }
    requires size { length args ≤ 65540 }
    requires world { IsWorld (world_means world.old meaning) }
    ensures world { IsWorld (world_means world.new meaning) }
    ensures called { IfOk result (λ called. (kind : MechKind)
        → ∥ IsCarried (shown world.old meaning) kind ∥₁
        → InTime (shown world.old meaning) now → (called ≡ true)
        × ∥ IsCalled (shown world.new meaning) procedure args ∥₁) }
{
    tell_below();
    world.tell_calls();
    let first = world.step(
        alloc,
        WorldEvent::CallBy {
            initiator: 0,
            procedure,
            args,
        },
    )?;
    let record = match sent(first) {
        Some(record) => record,
        None => return Ok(false),
    };
    let second = world.step(
        alloc,
        WorldEvent::Lane {
            lane: 0,
            bytes: record,
            now,
            draws,
        },
    )?;
    drop(second);
    let none = Octets::from_vec(Vec::new(alloc));
    let third = world.step(
        alloc,
        WorldEvent::Lane {
            lane: 0,
            bytes: none,
            now,
            draws,
        },
    )?;
    let called = is_taken(&third);
    drop(third);
    Ok(called)
}
