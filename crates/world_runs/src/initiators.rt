//! What initiators do: they start, take replies to their creation calls, and call. Each is judged as `gss_client` judges in a session over a link.

ghost use Rattle.std.specs.Prelude.{◌≡◌, ◌≤◌, true, length};
ghost use Rattle.init_ends.specs.Ends.{setup_by, end_by, holds};
ghost use Rattle.init_ends.specs.Objects.{is_own_list};
ghost use Rattle.gss_client.specs.Calling.{creation_call};
ghost use Rattle.gss_client.specs.Creation.{offer_means};
ghost use Rattle.gss_client.specs.Exchanging.{FitsOffer};
ghost use Rattle.world_runs.specs.Served.{own_terms};
ghost use Rattle.world_runs.specs.Objects as stages;
ghost use Rattle.world_runs.specs.ObjectMoves.{starts, takes, calls, leaves};
ghost use Rattle.world_runs.specs.Moving.{Goes, IsLost, IsMove, moves_means};

use crate::stage::Stage;
use gss_client::{
    ClientRefusal, Created, Offer, Service, Session, Terms, creation_call, creation_step, xid_after,
};
use init_ends::{InitEnd, InitSetup};
use posts_program::numbers::{PROGRAM, VERSION};
use sec_base::{NoMemory, Octets};
use spnego_core::NegRefusal;
use std::alloc::Global;
use world_laws::Happened;

/// The procedure of a first creation call.
const INIT: u32 = 1;

/// The procedure of later ones.
const CONTINUE_INIT: u32 = 2;

/// What an initiator did.
#[derive(Drop)]
pub(crate) struct Moves {
    /// Where it is then.
    pub stage: Stage,
    /// What came of it, unless memory was wanted.
    pub happened: Result<Happened, NoMemory>,
}

/// It refused, and has ended.
fn refused() -> Moves
    ensures { Goes stages.Over Happened.Refused stages.Over (moves_means result meaning) }
{
    Moves {
        stage: Stage::Over,
        happened: Ok(Happened::Refused),
    }
}

/// Memory was wanted, and it has ended before its context stood.
fn lost() -> Moves
    ensures { IsLost (moves_means result meaning) }
{
    Moves {
        stage: Stage::Over,
        happened: Err(NoMemory),
    }
}

/// What it calls: the program of posts, by integrity.
fn own_terms() -> Terms
    ensures { result ≡ own_terms }
{
    Terms {
        service: Service::Integrity,
        program: PROGRAM,
        version: VERSION,
    }
}

/// It hands out the creation call of this transaction number, whose reply is due.
fn ask(alloc: Global, xid: u32, proc: u32, offer: Offer) -> Moves
    requires { FitsOffer (offer_means offer meaning) }
    ensures { Goes (stages.Asks xid (end_by offer.end meaning)) (Happened.Sent
        (creation_call own_terms xid proc offer.handle offer.token)) stages.Over
        (moves_means result meaning) }
{
    let Offer { end, handle, token } = offer;
    match creation_call(
        alloc,
        own_terms(),
        xid,
        proc,
        handle.as_slice(),
        token.as_slice(),
    ) {
        Ok(record) => {
            drop(handle);
            drop(token);
            Moves {
                stage: Stage::Asks { xid, end },
                happened: Ok(Happened::Sent(record)),
            }
        }
        Err(NoMemory) => {
            drop(end);
            drop(handle);
            drop(token);
            lost()
        }
    }
}

/// Its context stands.
fn stand(session: Session) -> Moves
    ensures { Goes (stages.Stands session) (Happened.Completed session.outcome) stages.Over
        (moves_means result meaning) }
{
    let outcome = *session.outcome();
    Moves {
        stage: Stage::Stands(session),
        happened: Ok(Happened::Completed(outcome)),
    }
}

/// An initiator that wasn't started hands out its first creation call.
pub(crate) fn start(alloc: Global, own: InitSetup) -> Moves
    requires { is_own_list (setup_by own meaning).list ≡ true }
    ensures { IsMove (starts (setup_by own meaning)) (moves_means result meaning) }
{
    match InitEnd::start(alloc, own) {
        Ok((end, token)) => {
            let handle = Octets::from_vec(Vec::new(alloc));
            ask(alloc, 1, INIT, Offer { end, handle, token })
        }
        Err(NegRefusal::NoMemory) => lost(),
        Err(_) => refused(),
    }
}

/// An initiator takes a record as the reply to its creation call of this transaction number. Its end is spent. A session begins with the
/// number `first`.
pub(crate) fn take(alloc: Global, first: u32, xid: u32, end: InitEnd, bytes: &[u8]) -> Moves
    requires first { first ≤ 0x80000000 }
    requires held { holds (end_by end meaning) ≡ true }
    ensures { IsMove (takes first xid (end_by end meaning) bytes.now) (moves_means result meaning) }
{
    match creation_step(alloc, end, xid, bytes) {
        Ok(Created::Going(offer)) => ask(alloc, xid_after(xid), CONTINUE_INIT, offer),
        Ok(Created::Stands(outcome, handle)) => {
            let xid = xid_after(xid);
            stand(Session::begun(own_terms(), first, xid, outcome, handle))
        }
        Err(ClientRefusal::NoMemory) => lost(),
        Err(_) => refused(),
    }
}

/// An initiator whose context stands hands out its next call. The arguments go in the clear with a MIC, so that no confounder is used.
pub(crate) fn call(alloc: Global, session: Session, procedure: u32, args: &[u8]) -> Moves
    requires number { session.number ≤ 0x7fffffff }
    requires args { length args.now ≤ 65540 }
    ensures { IsMove (calls session procedure args.now) (moves_means result meaning) }
{
    match session.write_call(alloc, procedure, args, &[0; 16]) {
        Ok(record) => Moves {
            stage: Stage::Stands(session.next()),
            happened: Ok(Happened::Sent(record)),
        },
        Err(NoMemory) => Moves {
            stage: Stage::Left(session),
            happened: Err(NoMemory),
        },
    }
}

/// An initiator whose session has no number left for a call ends its context, with the number after those of calls, and has left it.
pub(crate) fn leave(alloc: Global, session: Session) -> Moves
    ensures { IsMove (leaves session) (moves_means result meaning) }
{
    let happened = match session.write_destroy(alloc) {
        Ok(record) => Ok(Happened::Sent(record)),
        Err(NoMemory) => Err(NoMemory),
    };
    Moves {
        stage: Stage::Left(session),
        happened,
    }
}
