//! The session of a run over datagrams: its creation, its calls one after the other, and its end.

ghost use Rattle.std.specs.Prelude.{◌≡◌, ◌≢◌, ◌≤◌, ◌<◌, true, false, IsTrue, IfErr, map};
ghost use Rattle.std.specs.Prelude.{length};
ghost use Rattle.sec_base.specs.Answers.{Rose};
ghost use Rattle.client_options.specs.Words.{IsRanged};
ghost use Rattle.datagram_calls.specs.Calls.{end_of_refusal, Answered, Leaves, Converses};
ghost use Rattle.datagram_calls.specs.Calls.{is_session_end};
ghost use Rattle.datagram_calls.specs.Sessions.{Holds, Speaks};
ghost use Rattle.gss_client.specs.Start.{start_means};
ghost use Rattle.init_ends.specs.Arming.{AreStandard};
ghost use Rattle.init_ends.specs.Objects as objects;
ghost use Rattle.spnego_core.specs.InitMech.{is_own_list, is_bare_list};

use client_options::{Command, Plan, RunEnd};
use datagram_client::{DatagramSession, PostRefusal};
use datagram_options::CallEnd;
use datagram_post::Post;
use gss_client::{Query, Start, prove_plain_creation};
use init_ends::InitSetup;
use mech_objects::Mech;
use sec_base::{Clock, Draw, Items, Octets};
use spnego_core::{InitFacts, MechCred, Outcome};
use std::alloc::Global;
use std::marker::Model;

/// What is called, with which arguments in XDR, how often, and how often each call is sent at most.
#[derive(Drop)]
pub(crate) struct Asks<'a> {
    pub command: Command,
    pub args: &'a [u8],
    pub times: u32,
    pub tries: u32,
}

impl<'a> Model for Asks<'a> {
    ghost use Rattle.datagram_calls.specs.Calls.{AsksOf};

    ghost Value = { AsksOf };

    ghost view = { λ a.
        record { command = a.command; args = a.args.now; times = a.times; tries = a.tries } };
}

/// What a session came to.
#[derive(Drop)]
pub(crate) struct Spoken {
    /// What both ends agree on, once the context stood.
    pub outcome: Option<Outcome>,
    /// The calls' results, in order.
    pub results: Vec<Octets>,
    /// How it ended.
    pub end: CallEnd,
}

/// What the calls of a session came to.
#[derive(Drop)]
struct Conversed {
    results: Vec<Octets>,
    end: CallEnd,
}

/// How the run ends whose session was refused.
fn end_of_refusal(refusal: PostRefusal) -> CallEnd
    ensures { result ≡ end_of_refusal refusal }
{
    match refusal {
        PostRefusal::PostFault => CallEnd::PostFault,
        PostRefusal::NoReply => CallEnd::NoReply,
        PostRefusal::Flood => CallEnd::Flood,
        PostRefusal::Spent => CallEnd::As(RunEnd::Spent),
        PostRefusal::Refused(denial) => CallEnd::As(RunEnd::Refused(denial)),
        PostRefusal::BadReply(why) => CallEnd::As(RunEnd::BadReply(why)),
        PostRefusal::Negotiation(refusal) => CallEnd::As(RunEnd::Negotiation(refusal)),
        PostRefusal::NoMemory => CallEnd::As(RunEnd::NoMemory),
    }
}

/// Calls a procedure in a session: the session behind the call, and its result; or how the run ends by it.
fn call_once<P: Post, D: Draw>(
    alloc: Global,
    session: DatagramSession,
    post: &mut P,
    draw: &mut D,
    asks: &Asks<'_>,
) -> Result<(DatagramSession, Octets), CallEnd>
    requires tries { 0 < asks.now.tries }
    requires args { length asks.now.args ≤ 65540 }
    ensures answered { IsTrue (P.tells post.old) → Answered P.Post D.Draw asks.now session
        post.old post.new draw.old draw.new result }
    ensures session_end { IfErr result
        (λ end. end ≢ CallEnd.As RunEnd.NoMemory → is_session_end end ≡ true) }
    ensures unfinished { IfErr result (λ end. end ≢ CallEnd.As RunEnd.Finished) }
    ensures fault { IfErr result
        (λ end. end ≡ CallEnd.PostFault → Rose (P.faults post.old) (P.faults post.new)) }
    ensures tells { P.tells post.new ≡ P.tells post.old }
    ensures faults { P.faults post.old ≤ P.faults post.new }
{
    match session.call(
        alloc,
        post,
        draw,
        asks.command.number(),
        asks.args,
        asks.tries,
    ) {
        Ok((next, result)) => {
            if asks.command.is_result(result.as_slice()) {
                Ok((next, result))
            } else {
                Err(CallEnd::As(RunEnd::Foreign))
            }
        }
        Err(refusal) => Err(end_of_refusal(refusal)),
    }
}

/// Leaves the context of a session whose calls were all answered.
fn leave<P: Post>(alloc: Global, session: DatagramSession, post: &mut P) -> CallEnd
    ensures left { IsTrue (P.tells post.old) → Leaves P.Post session post.old post.new result }
    ensures session_end { result ≢ CallEnd.As RunEnd.NoMemory → is_session_end result ≡ true }
    ensures fault { result ≡ CallEnd.PostFault → Rose (P.faults post.old) (P.faults post.new) }
    ensures tells { P.tells post.new ≡ P.tells post.old }
    ensures faults { P.faults post.old ≤ P.faults post.new }
{
    match session.leave(alloc, post) {
        Ok(()) => CallEnd::As(RunEnd::Finished),
        Err(refusal) => end_of_refusal(refusal),
    }
}

/// Calls a procedure so many times with the same arguments, and leaves the context once all calls were answered.
fn converse<P: Post, D: Draw>(
    alloc: Global,
    session: DatagramSession,
    post: &mut P,
    draw: &mut D,
    asks: &Asks<'_>,
) -> Conversed
    requires tries { 0 < asks.now.tries }
    requires args { length asks.now.args ≤ 65540 }
    ensures told { IsTrue (P.tells post.old) → Converses P.Post D.Draw asks.now session
        post.old post.new draw.old draw.new result.results.items result.end }
    ensures all { result.end ≡ CallEnd.As RunEnd.Finished
        → length result.results.items ≡ asks.now.times }
    ensures session_end { result.end ≢ CallEnd.As RunEnd.NoMemory
        → is_session_end result.end ≡ true }
    ensures fault { result.end ≡ CallEnd.PostFault → Rose (P.faults post.old) (P.faults post.new) }
    ensures tells { P.tells post.new ≡ P.tells post.old }
    ensures faults { P.faults post.old ≤ P.faults post.new }
{
    let Ok(mut results) = Vec::with_capacity(alloc, asks.times as usize) else {
        drop(session);
        return Conversed {
            results: Vec::new(alloc),
            end: CallEnd::As(RunEnd::NoMemory),
        };
    };
    let mut session = session;
    for number in 0..asks.times {
        match call_once(alloc, session, post, draw, asks) {
            Ok((next, result)) => {
                session = next;
                results.push_reserved(result);
            }
            Err(end) => return Conversed { results, end },
        }
    }
    let end = leave(alloc, session, post);
    Conversed { results, end }
}

/// Creates a context, calls a procedure so many times, and leaves the context.
fn hold<P: Post, D: Draw>(
    alloc: Global,
    post: &mut P,
    draw: &mut D,
    start: Start,
    asks: &Asks<'_>,
) -> Spoken
    requires list { objects.is_own_list (start_means start meaning).setup.list ≡ true }
    requires first { 1 ≤ start.first }
    requires last { start.first ≤ 0x7fffffff }
    requires tries { 0 < asks.now.tries }
    requires args { length asks.now.args ≤ 65540 }
    ensures told { IsTrue (P.tells post.old) → Holds P.Post D.Draw (start_means start meaning)
        asks.now post.old post.new draw.old draw.new result.outcome result.results.items
        result.end }
    ensures all { result.end ≡ CallEnd.As RunEnd.Finished
        → length result.results.items ≡ asks.now.times }
    ensures session_end { result.end ≢ CallEnd.As RunEnd.NoMemory
        → is_session_end result.end ≡ true }
    ensures fault { result.end ≡ CallEnd.PostFault → Rose (P.faults post.old) (P.faults post.new) }
    ensures tells { P.tells post.new ≡ P.tells post.old }
    ensures faults { P.faults post.old ≤ P.faults post.new }
{
    match DatagramSession::create(alloc, post, start) {
        Ok(session) => {
            let outcome = *session.outcome();
            let Conversed { results, end } = converse(alloc, session, post, draw, asks);
            Spoken {
                outcome: Some(outcome),
                results,
                end,
            }
        }
        Err(refusal) => Spoken {
            outcome: None,
            results: Vec::new(alloc),
            end: end_of_refusal(refusal),
        },
    }
}

/// Holds the session of a plan, each of whose calls is sent at most `tries` times: the clock's next moment is its stamp, the next 66 random
/// octets are its own, and those behind them its calls' confounders. Its mechanisms are the objects that got its credentials; where there
/// is no memory to arm them, nothing is sent.
pub(crate) fn speak<P: Post, C: Clock, D: Draw>(
    alloc: Global,
    plan: Plan,
    tries: u32,
    creds: Items<MechCred>,
    post: &mut P,
    clock: &mut C,
    draw: &mut D,
    mechs: Vec<Box<dyn Mech>>,
) -> Spoken
    requires mechs { AreStandard (map meaning mechs.items) }
    requires list { is_own_list creds ≡ true }
    requires bare { plan.negotiates ≡ false → is_bare_list creds ≡ true }
    requires range { IsRanged plan }
    requires tries { 0 < tries }
    ensures told { IsTrue (P.tells post.old) → Speaks P.Post C.Clock D.Draw plan tries creds
        post.old post.new clock.old clock.new draw.old draw.new result.outcome
        result.results.items result.end }
    ensures all { result.end ≡ CallEnd.As RunEnd.Finished
        → length result.results.items ≡ plan.times }
    ensures session_end { result.end ≢ CallEnd.As RunEnd.NoMemory
        → is_session_end result.end ≡ true }
    ensures fault { result.end ≡ CallEnd.PostFault → Rose (P.faults post.old) (P.faults post.new) }
    ensures tells { P.tells post.new ≡ P.tells post.old }
    ensures faults { P.faults post.old ≤ P.faults post.new }
{
    prove_plain_creation();
    let stamp = clock.now();
    let mut draws = [0; 66];
    draw.fill(&mut draws);
    let Plan {
        command,
        args,
        bindings,
        negotiates,
        terms,
        times,
        first,
    } = plan;
    let facts = InitFacts {
        list: creds,
        bindings,
        stamp,
        draws,
        negotiates,
    };
    let Ok(setup) = InitSetup::armed(alloc, mechs, facts) else {
        drop(args);
        return Spoken {
            outcome: None,
            results: Vec::new(alloc),
            end: CallEnd::As(RunEnd::NoMemory),
        };
    };
    let start = Start {
        setup,
        terms,
        first,
    };
    let asks = Asks {
        command,
        args: args.as_slice(),
        times,
        tries,
    };
    let spoken = hold(alloc, post, draw, start, &asks);
    drop(args);
    spoken
}
