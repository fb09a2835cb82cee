//! The creation of a context, turn after turn, RFC 2203 section 5.2.

ghost use Rattle.std.specs.Prelude.{◌≡◌, ◌≤◌, false, true, IsTrue, IsErrOf, IfOk, length};
ghost use Rattle.sec_base.specs.Answers.{Rose};
ghost use Rattle.gss_client.specs.Calling.{creation_call};
ghost use Rattle.gss_client.specs.Exchanging.{Talks, IsHandle, FitsOffer, FitsCreated};
ghost use Rattle.gss_client.specs.Creation.{offer_means, created_means, reply_means, holds_created};
ghost use Rattle.gss_client.specs.Start.{StartSays, objects_start, start_means};
ghost use Rattle.gss_client.specs.Talk.{turns_by, creates_by, created_over, created_from};
ghost use Rattle.gss_client.specs.Talking.{exchanges};
ghost use Rattle.init_ends.specs.Ends.{end_by, holds};
ghost use Rattle.init_ends.specs.Initiating.{end_step};
ghost use Rattle.init_ends.specs.Objects.{is_own_list};

use crate::calling::creation_call;
use crate::creation::{Created, Offer, creation_step, spend};
use crate::exchange::exchange;
use crate::refusal::{ClientRefusal, ReplyWhy, not_negotiated};
use crate::session::{Session, xid_after};
use crate::start::Start;
use crate::terms::Terms;
use init_ends::InitEnd;
use rpcsec_msgs::numbers::{RPCSEC_GSS_CONTINUE_INIT, RPCSEC_GSS_INIT};
use sec_base::{Link, NoMemory, Octets};
use std::alloc::Global;

/// The most replies that a creation takes: those of Kerberos and SCRAM take four at most, and another object may never be done.
pub const MOST_REPLIES: u32 = 16;

/// Writes a creation call, and hears its reply.
fn call_with<L: Link>(
    alloc: Global,
    link: &mut L,
    terms: Terms,
    xid: u32,
    proc: u32,
    handle: &[u8],
    token: &[u8],
) -> Result<Octets, ClientRefusal>
    requires unclosed { L.closed link.old ≡ false }
    requires handle { IsHandle handle.now }
    requires token { length token.now ≤ 65536 }
    ensures told { IsTrue (L.tells link.old)
        → Talks (exchanges (creation_call terms xid proc handle.now token.now))
        (L.wire link.old) (L.wire link.new) result }
    ensures fault { IsErrOf result ClientRefusal.LinkFault
        → Rose (L.faults link.old) (L.faults link.new) }
    ensures tells { L.tells link.new ≡ L.tells link.old }
    ensures unclosed { L.closed link.new ≡ false }
    ensures faults { L.faults link.old ≤ L.faults link.new }
{
    match creation_call(alloc, terms, xid, proc, handle, token) {
        Ok(call) => exchange(alloc, link, call.as_slice()),
        Err(NoMemory) => Err(ClientRefusal::NoMemory),
    }
}

/// A creation call, and what its reply leads to.
fn turn<L: Link>(
    alloc: Global,
    link: &mut L,
    terms: Terms,
    xid: u32,
    proc: u32,
    offer: Offer,
) -> Result<Created, ClientRefusal>
    requires unclosed { L.closed link.old ≡ false }
    requires fits { FitsOffer (offer_means offer meaning) }
    requires held { holds (end_by offer.end meaning) ≡ true }
    ensures told { IsTrue (L.tells link.old)
        → Talks (turns_by end_step terms xid proc (offer_means offer meaning))
        (L.wire link.old) (L.wire link.new) (reply_means result meaning) }
    ensures held { IfOk result (λ c. holds_created (created_means c meaning) ≡ true) }
    ensures fits { IfOk result (λ c. FitsCreated (created_means c meaning)) }
    ensures fault { IsErrOf result ClientRefusal.LinkFault
        → Rose (L.faults link.old) (L.faults link.new) }
    ensures tells { L.tells link.new ≡ L.tells link.old }
    ensures unclosed { L.closed link.new ≡ false }
    ensures faults { L.faults link.old ≤ L.faults link.new }
{
    let Offer { end, handle, token } = offer;
    match call_with(
        alloc,
        link,
        terms,
        xid,
        proc,
        handle.as_slice(),
        token.as_slice(),
    ) {
        Ok(reply) => {
            drop(handle);
            drop(token);
            let made = creation_step(alloc, end, xid, reply.as_slice());
            drop(reply);
            made
        }
        Err(refusal) => {
            drop(handle);
            drop(token);
            spend(end, refusal)
        }
    }
}

/// Turn after turn up to the context, at most `left` of them.
fn establish<L: Link>(
    alloc: Global,
    link: &mut L,
    terms: Terms,
    first: u32,
    xid: u32,
    proc: u32,
    offer: Offer,
    left: u32,
) -> Result<Session, ClientRefusal>
    requires unclosed { L.closed link.old ≡ false }
    requires fits { FitsOffer (offer_means offer meaning) }
    requires held { holds (end_by offer.end meaning) ≡ true }
    requires last { first ≤ 0x7fffffff }
    ensures told { IsTrue (L.tells link.old)
        → Talks (creates_by end_step left terms first xid proc (offer_means offer meaning))
        (L.wire link.old) (L.wire link.new) result }
    ensures fault { IsErrOf result ClientRefusal.LinkFault
        → Rose (L.faults link.old) (L.faults link.new) }
    ensures tells { L.tells link.new ≡ L.tells link.old }
    ensures unclosed { L.closed link.new ≡ false }
    ensures faults { L.faults link.old ≤ L.faults link.new }
{
    if left == 0 {
        return spend(offer.end, ClientRefusal::BadReply(ReplyWhy::Steps));
    }
    match turn(alloc, link, terms, xid, proc, offer) {
        Ok(Created::Going(next)) => establish(
            alloc,
            link,
            terms,
            first,
            xid_after(xid),
            RPCSEC_GSS_CONTINUE_INIT,
            next,
            left - 1,
        ),
        Ok(Created::Stands(outcome, handle)) => Ok(Session::begun(
            terms,
            first,
            xid_after(xid),
            outcome,
            handle,
        )),
        Err(refusal) => Err(refusal),
    }
}

impl Session {
    /// Creates a context with the server: the negotiation's tokens go and come until the context stands.
    pub fn create<L: Link>(
        alloc: Global,
        link: &mut L,
        start: Start,
    ) -> Result<Session, ClientRefusal>
        requires unclosed { L.closed link.old ≡ false }
        requires list { is_own_list (start_means start meaning).setup.list ≡ true }
        requires first { 1 ≤ start.first }
        requires last { start.first ≤ 0x7fffffff }
        ensures told { IsTrue (L.tells link.old) → Talks (created_over
            (start_means start meaning)) (L.wire link.old) (L.wire link.new) result }
        // By the objects of Kerberos and SCRAM: as by their credentials.
        ensures plain { (own : StartSays) → start_means start meaning ≡ objects_start own
            → IsTrue (L.tells link.old)
            → Talks (created_from own) (L.wire link.old) (L.wire link.new) result }
        ensures fault { IsErrOf result ClientRefusal.LinkFault
            → Rose (L.faults link.old) (L.faults link.new) }
        ensures tells { L.tells link.new ≡ L.tells link.old }
        ensures unclosed { L.closed link.new ≡ false }
        ensures faults { L.faults link.old ≤ L.faults link.new }
    {
        let Start {
            setup,
            terms,
            first,
        } = start;
        let (end, token) = match InitEnd::start(alloc, setup) {
            Ok(started) => started,
            Err(refusal) => return Err(not_negotiated(refusal)),
        };
        let handle = Octets::from_vec(Vec::new(alloc));
        let offer = Offer { end, handle, token };
        establish(
            alloc,
            link,
            terms,
            first,
            1,
            RPCSEC_GSS_INIT,
            offer,
            MOST_REPLIES,
        )
    }
}
