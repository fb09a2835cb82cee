//! A call over datagrams.

ghost use Rattle.std.specs.Prelude.{◌≡◌, ◌≤◌, ◌<◌, IsTrue, IsErrOf, length};
ghost use Rattle.sec_base.specs.Answers.{Rose};
ghost use Rattle.datagram_client.specs.Calls.{Called, SentOnce};

use crate::hearing::{FLOOD, ROOM, hear_once};
use crate::refusal::PostRefusal;
use crate::session::DatagramSession;
use datagram_post::{Post, PostFault};
use gss_client::{Judged, Session};
use sec_base::{Draw, NoMemory, Octets};
use std::alloc::Global;

/// Sends a session's call once, with the next 16 octets of `draw` as its confounder.
fn send_once<P: Post, D: Draw>(
    alloc: Global,
    session: &Session,
    post: &mut P,
    draw: &mut D,
    procedure: u32,
    args: &[u8],
) -> Result<(), PostRefusal>
    requires { length args.now ≤ 65540 }
    ensures once { SentOnce P.Post D.Draw session.now procedure args.now post.old post.new
        draw.old draw.new result }
    ensures fault { IsErrOf result PostRefusal.PostFault
        → Rose (P.faults post.old) (P.faults post.new) }
    ensures faults { P.faults post.old ≤ P.faults post.new }
{
    let mut confounder = [0; 16];
    draw.fill(&mut confounder);
    let octets = match session.write_call(alloc, procedure, args, &confounder) {
        Ok(octets) => octets,
        Err(NoMemory) => return Err(PostRefusal::NoMemory),
    };
    match post.send(octets.as_slice()) {
        Ok(()) => Ok(()),
        Err(PostFault) => Err(PostRefusal::PostFault),
    }
}

/// Calls a procedure in a session, as `DatagramSession::call` does.
fn call_session<P: Post, D: Draw>(
    alloc: Global,
    session: Session,
    post: &mut P,
    draw: &mut D,
    procedure: u32,
    args: &[u8],
    tries: u32,
) -> Result<(Session, Octets), PostRefusal>
    requires tries { 0 < tries }
    requires args { length args.now ≤ 65540 }
    ensures called { IsTrue (P.tells post.old) → Called P.Post D.Draw session procedure args.now
        tries post.old post.new draw.old draw.new result }
    ensures fault { IsErrOf result PostRefusal.PostFault
        → Rose (P.faults post.old) (P.faults post.new) }
    ensures tells { P.tells post.new ≡ P.tells post.old }
    ensures faults { P.faults post.old ≤ P.faults post.new }
{
    let first = session.next_number();
    if first > 0x7fff_ffff {
        return Err(PostRefusal::Spent);
    }
    match send_once(alloc, &session, post, draw, procedure, args) {
        Ok(()) => {}
        Err(refusal) => return Err(refusal),
    }
    let mut session = session;
    let mut buf = [0; ROOM];
    let mut nones = 0;
    let mut passed = 0;
    while nones < tries && passed < FLOOD {
        match hear_once(alloc, &session, first, post, &mut buf) {
            Err(PostFault) => return Err(PostRefusal::PostFault),
            Ok(None) => {
                nones += 1;
                if nones < tries {
                    let number = session.next_number();
                    if number >= 0x7fff_ffff {
                        return Err(PostRefusal::Spent);
                    }
                    session = session.again();
                    match send_once(alloc, &session, post, draw, procedure, args) {
                        Ok(()) => {}
                        Err(refusal) => return Err(refusal),
                    }
                }
            }
            Ok(Some(Judged::Passes)) => passed += 1,
            Ok(Some(Judged::Takes(octets))) => return Ok((session.next(), octets)),
            Ok(Some(Judged::Denies(denial))) => return Err(PostRefusal::Refused(denial)),
            Ok(Some(Judged::Spoils(why))) => return Err(PostRefusal::BadReply(why)),
            Ok(Some(Judged::NoMemory)) => return Err(PostRefusal::NoMemory),
        }
    }
    if nones == tries {
        Err(PostRefusal::NoReply)
    } else {
        Err(PostRefusal::Flood)
    }
}

impl DatagramSession {
    /// Calls a procedure: sends the call, and again with the same transaction number and the next number after each wait in which nothing came, up
    /// to `tries` times in all, each time with the next 16 octets of `draw` as its confounder. Answers the result's octets, and the session behind
    /// the call. A datagram that is no reply to this call is passed over. Every refusal ends the session.
    pub fn call<P: Post, D: Draw>(
        self,
        alloc: Global,
        post: &mut P,
        draw: &mut D,
        procedure: u32,
        args: &[u8],
        tries: u32,
    ) -> Result<(DatagramSession, Octets), PostRefusal>
        requires tries { 0 < tries }
        requires args { length args.now ≤ 65540 }
        ensures called { IsTrue (P.tells post.old) → Called P.Post D.Draw self procedure args.now
            tries post.old post.new draw.old draw.new result }
        ensures fault { IsErrOf result PostRefusal.PostFault
            → Rose (P.faults post.old) (P.faults post.new) }
        ensures tells { P.tells post.new ≡ P.tells post.old }
        ensures faults { P.faults post.old ≤ P.faults post.new }
    {
        match call_session(alloc, self.session, post, draw, procedure, args, tries) {
            Ok((session, octets)) => Ok((DatagramSession { session }, octets)),
            Err(refusal) => Err(refusal),
        }
    }
}
