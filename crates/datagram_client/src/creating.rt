//! The creation of a context over datagrams, turn after turn, RFC 2203 section 5.2.

ghost use Rattle.std.specs.Prelude.{◌≡◌, ◌≤◌, ◌<◌, true, IsTrue, IsErrOf, IfOk, length, Err};
ghost use Rattle.sec_base.specs.Answers.{Rose};
ghost use Rattle.datagram_client.specs.Creating.{Asked, Creates};
ghost use Rattle.gss_client.specs.Calling.{creation_call};
ghost use Rattle.gss_client.specs.Creation.{offer_means};
ghost use Rattle.gss_client.specs.Exchanging.{IsHandle, FitsOffer};
ghost use Rattle.gss_client.specs.Start.{start_means};
ghost use Rattle.gss_client.specs.Talk.{creates_by, created_over};
ghost use Rattle.init_ends.specs.Ends.{end_by, holds};
ghost use Rattle.init_ends.specs.Initiating.{end_step};
ghost use Rattle.init_ends.specs.Objects.{is_own_list};

use crate::hearing::hear_reply;
use crate::refusal::{PostRefusal, by_negotiation, by_reply};
use crate::session::DatagramSession;
use datagram_post::{Post, PostFault};
use gss_client::{
    Created, MOST_REPLIES, Offer, ReplyWhy, Session, Start, Terms, creation_call, creation_step,
    xid_after,
};
use init_ends::InitEnd;
use rpcsec_msgs::numbers::{RPCSEC_GSS_CONTINUE_INIT, RPCSEC_GSS_INIT};
use sec_base::{NoMemory, Octets};
use std::alloc::Global;

/// The end is spent by a refusal.
fn spend<T>(_end: InitEnd, refusal: PostRefusal) -> Result<T, PostRefusal>
    ensures { result ≡ Err refusal }
{
    Err(refusal)
}

/// Sends a creation call once, and hears its reply. `over` counts the datagrams that are passed over.
fn ask<P: Post>(
    alloc: Global,
    post: &mut P,
    terms: Terms,
    xid: u32,
    proc: u32,
    handle: &[u8],
    token: &[u8],
    over: &mut u32,
) -> Result<Octets, PostRefusal>
    requires handle { IsHandle handle.now }
    requires token { length token.now ≤ 65536 }
    requires few { over.old < 1024 }
    ensures asked { IsTrue (P.tells post.old) → Asked P.Post
        (creation_call terms xid proc handle.now token.now) xid over.old over.new
        post.old post.new result }
    ensures few { IfOk result (λ reply. over.new < 1024) }
    ensures fault { IsErrOf result PostRefusal.PostFault
        → Rose (P.faults post.old) (P.faults post.new) }
    ensures tells { P.tells post.new ≡ P.tells post.old }
    ensures faults { P.faults post.old ≤ P.faults post.new }
{
    let call = match creation_call(alloc, terms, xid, proc, handle, token) {
        Ok(call) => call,
        Err(NoMemory) => return Err(PostRefusal::NoMemory),
    };
    match post.send(call.as_slice()) {
        Ok(()) => hear_reply(alloc, post, xid, over),
        Err(PostFault) => Err(PostRefusal::PostFault),
    }
}

/// Turn after turn up to the context, at most `left` of them.
fn establish<P: Post>(
    alloc: Global,
    post: &mut P,
    terms: Terms,
    first: u32,
    xid: u32,
    proc: u32,
    offer: Offer,
    left: u32,
    over: &mut u32,
) -> Result<Session, PostRefusal>
    requires fits { FitsOffer (offer_means offer meaning) }
    requires held { holds (end_by offer.end meaning) ≡ true }
    requires last { first ≤ 0x7fffffff }
    requires few { over.old < 1024 }
    ensures told { IsTrue (P.tells post.old) → Creates P.Post
        (creates_by end_step left terms first xid proc (offer_means offer meaning))
        xid over.old post.old post.new result }
    ensures fault { IsErrOf result PostRefusal.PostFault
        → Rose (P.faults post.old) (P.faults post.new) }
    ensures tells { P.tells post.new ≡ P.tells post.old }
    ensures faults { P.faults post.old ≤ P.faults post.new }
{
    let Offer { end, handle, token } = offer;
    if left == 0 {
        return spend(end, PostRefusal::BadReply(ReplyWhy::Steps));
    }
    let asked = ask(
        alloc,
        post,
        terms,
        xid,
        proc,
        handle.as_slice(),
        token.as_slice(),
        over,
    );
    let reply = match asked {
        Ok(reply) => reply,
        Err(refusal) => return spend(end, refusal),
    };
    match creation_step(alloc, end, xid, reply.as_slice()) {
        Ok(Created::Going(next)) => establish(
            alloc,
            post,
            terms,
            first,
            xid_after(xid),
            RPCSEC_GSS_CONTINUE_INIT,
            next,
            left - 1,
            over,
        ),
        Ok(Created::Stands(outcome, handle)) => Ok(Session::begun(
            terms,
            first,
            xid_after(xid),
            outcome,
            handle,
        )),
        Err(refusal) => Err(by_reply(refusal)),
    }
}

impl DatagramSession {
    /// Creates a context with the server: the negotiation's tokens go and come until the context stands. Each call is sent once: where it or its
    /// reply is lost, the creation ends with `NoReply`. A datagram that isn't an accepted reply to the last call is passed over.
    pub fn create<P: Post>(
        alloc: Global,
        post: &mut P,
        start: Start,
    ) -> Result<DatagramSession, PostRefusal>
        requires list { is_own_list (start_means start meaning).setup.list ≡ true }
        requires first { 1 ≤ start.first }
        requires last { start.first ≤ 0x7fffffff }
        ensures told { IsTrue (P.tells post.old) → Creates P.Post
            (created_over (start_means start meaning)) 1 0 post.old post.new result }
        ensures fault { IsErrOf result PostRefusal.PostFault
            → Rose (P.faults post.old) (P.faults post.new) }
        ensures tells { P.tells post.new ≡ P.tells post.old }
        ensures faults { P.faults post.old ≤ P.faults post.new }
    {
        let Start {
            setup,
            terms,
            first,
        } = start;
        let (end, token) = match InitEnd::start(alloc, setup) {
            Ok(started) => started,
            Err(refusal) => return Err(by_negotiation(refusal)),
        };
        let handle = Octets::from_vec(Vec::new(alloc));
        let offer = Offer { end, handle, token };
        let mut over = 0;
        match establish(
            alloc,
            post,
            terms,
            first,
            1,
            RPCSEC_GSS_INIT,
            offer,
            MOST_REPLIES,
            &mut over,
        ) {
            Ok(session) => Ok(DatagramSession { session }),
            Err(refusal) => Err(refusal),
        }
    }
}
