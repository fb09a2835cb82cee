//! The datagrams that a client hears.

ghost use Rattle.std.specs.Prelude.{◌≡◌, ◌≤◌, ◌<◌, IsTrue, IsErrOf, IfOk, OnErr};
ghost use Rattle.sec_base.specs.Answers.{Rose};
ghost use Rattle.datagram_client.specs.Hearing.{answers, judged_datagram, HeardAs, Hears};
ghost use Rattle.datagram_client.specs.Hearing.{HeardOnce};
ghost use Rattle.gss_client.specs.Again.{Judges};

use crate::refusal::PostRefusal;
use datagram_post::{Post, PostFault};
use gss_client::{Judged, Session, answers_call};
use sec_base::{NoMemory, Octets};
use std::alloc::Global;

/// The most octets of a datagram that is read.
pub const MOST_OCTETS: usize = 8_192;

/// Room for a datagram, and for one octet by which a longer one shows.
pub(crate) const ROOM: usize = 8_193;

/// How many datagrams are passed over before no more are heard.
pub const FLOOD: u32 = 1_024;

/// Whether a datagram is an accepted reply to the call of this transaction number.
fn answers(xid: u32, octets: &[u8]) -> bool
    ensures { result ≡ answers xid octets.now }
{
    octets.len() <= MOST_OCTETS && answers_call(xid, octets)
}

/// What a client heard that waits for the reply to a creation call.
#[derive(Drop)]
pub(crate) enum Heard {
    Reply(Octets),
    Other,
    Nothing,
    Fault,
    NoMemory,
}

/// Hears the next datagram while the reply to the call of this transaction number is due.
fn hear_one<P: Post>(alloc: Global, post: &mut P, xid: u32, buf: &mut [u8; ROOM]) -> Heard
    ensures heard { IsTrue (P.tells post.old)
        → HeardAs xid (P.heard post.old) (P.heard post.new) result }
    ensures sent { IsTrue (P.tells post.old) → P.sent post.new ≡ P.sent post.old }
    ensures tells { P.tells post.new ≡ P.tells post.old }
    ensures fault { result ≡ Heard.Fault → Rose (P.faults post.old) (P.faults post.new) }
    ensures faults { P.faults post.old ≤ P.faults post.new }
{
    match post.recv(buf) {
        Ok(Some(count)) => {
            if !answers(xid, &buf[..count]) {
                return Heard::Other;
            }
            match Octets::of(alloc, &buf[..count]) {
                Ok(reply) => Heard::Reply(reply),
                Err(NoMemory) => Heard::NoMemory,
            }
        }
        Ok(None) => Heard::Nothing,
        Err(PostFault) => Heard::Fault,
    }
}

/// Hears datagrams up to the one that answers the call of this transaction number. `over` counts those that are passed over.
pub(crate) fn hear_reply<P: Post>(
    alloc: Global,
    post: &mut P,
    xid: u32,
    over: &mut u32,
) -> Result<Octets, PostRefusal>
    requires few { over.old < 1024 }
    ensures heard { IsTrue (P.tells post.old)
        → Hears xid over.old over.new (P.heard post.old) (P.heard post.new) result }
    ensures sent { IsTrue (P.tells post.old) → P.sent post.new ≡ P.sent post.old }
    ensures tells { P.tells post.new ≡ P.tells post.old }
    ensures few { IfOk result (λ reply. over.new < 1024) }
    ensures fault { IsErrOf result PostRefusal.PostFault
        → Rose (P.faults post.old) (P.faults post.new) }
    ensures faults { P.faults post.old ≤ P.faults post.new }
{
    let mut buf = [0; ROOM];
    while *over < FLOOD {
        match hear_one(alloc, post, xid, &mut buf) {
            Heard::Reply(reply) => return Ok(reply),
            Heard::Other => *over += 1,
            Heard::Nothing => return Err(PostRefusal::NoReply),
            Heard::Fault => return Err(PostRefusal::PostFault),
            Heard::NoMemory => return Err(PostRefusal::NoMemory),
        }
    }
    Err(PostRefusal::Flood)
}

/// What a datagram is to the session's call, which was sent with the numbers from `first` up to the session's own.
fn judge(alloc: Global, session: &Session, first: u32, octets: &[u8]) -> Judged
    ensures { Judges result (judged_datagram session.now first octets.now) }
{
    if octets.len() > MOST_OCTETS {
        Judged::Passes
    } else {
        session.judge(alloc, first, octets)
    }
}

/// Hears the next datagram while the session's call is due that was sent with the numbers from `first` on, and judges it.
pub(crate) fn hear_once<P: Post>(
    alloc: Global,
    session: &Session,
    first: u32,
    post: &mut P,
    buf: &mut [u8; ROOM],
) -> Result<Option<Judged>, PostFault>
    ensures once { HeardOnce P.Post session.now first post.old post.new result }
    ensures fault { OnErr result (Rose (P.faults post.old) (P.faults post.new)) }
    ensures faults { P.faults post.old ≤ P.faults post.new }
{
    match post.recv(buf) {
        Ok(Some(count)) => Ok(Some(judge(alloc, session, first, &buf[..count]))),
        Ok(None) => Ok(None),
        Err(PostFault) => Err(PostFault),
    }
}
