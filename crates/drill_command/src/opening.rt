//! The book that a drill begins with.

ghost use Rattle.std.specs.Prelude.{◌≡◌, IfOk, []};
ghost use Rattle.pair_laws.specs.Resting.{RestsAt};
ghost use Rattle.drill_plan.specs.Limits.{book_limits, drill_limits};
ghost use Rattle.drill_plan.specs.Sessions.{moment_of};
ghost use Rattle.drill_plan.specs.Setting.{drill_acceptor};

use crate::gate::DrillGate;
use accept_book::OwnSeat;
use drill_plan::{LIMITS, acceptor, moment_of};
use gss_server::OwnGate;
use pair_laws::prove_rests;
use posts_program::{Posts, PostsWords};
use rpc_program::Spelled;
use sec_base::NoMemory;
use std::alloc::Global;

/// The book of a drill, at the moment of its first session.
fn open_seat(alloc: Global) -> Result<OwnSeat, NoMemory>
    ensures limits { IfOk result (λ book. book_limits book ≡ drill_limits) }
    ensures setup { IfOk result (λ book. book.setup ≡ drill_acceptor) }
    // and it has no entry and is at rest
    ensures history { IfOk result (λ book. book.core.history ≡ []) }
    ensures rests { IfOk result (λ book. RestsAt 0 (moment_of 0) book.core) }
{
    prove_rests();
    let setup = acceptor(alloc)?;
    let book = OwnSeat::open(alloc, setup, LIMITS, moment_of(0))?;
    Ok(book)
}

/// The same with the program of posts, to which nothing was posted.
pub fn open_book(alloc: Global) -> Result<DrillGate, NoMemory>
    ensures limits { IfOk result (λ gate. book_limits gate.inner.seat ≡ drill_limits) }
    ensures setup { IfOk result (λ gate. gate.inner.seat.setup ≡ drill_acceptor) }
    ensures history { IfOk result (λ gate. gate.inner.seat.core.history ≡ []) }
    ensures rests { IfOk result (λ gate. RestsAt 0 (moment_of 0) gate.inner.seat.core) }
    ensures posts { IfOk result (λ gate. gate.inner.program.posts ≡ 0) }
{
    let seat = open_seat(alloc)?;
    let speller = Spelled { by: PostsWords };
    let inner = OwnGate::new(seat, Posts::new(), speller);
    Ok(DrillGate { inner })
}
