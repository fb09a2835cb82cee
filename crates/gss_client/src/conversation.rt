//! Whole sessions: creation, calls one after the other, and destruction.

ghost use Rattle.std.specs.Prelude.{◌≡◌, ◌≢◌, ◌≤◌, ◌+◌, false, true, IsTrue, [], ◌∷◌, ◌++◌, length};
ghost use Rattle.std.specs.Vec.{vec_len, vec_capacity};
ghost use Rattle.sec_base.specs.Answers.{Rose};
ghost use Rattle.init_ends.specs.Objects.{is_own_list};
ghost use Rattle.gss_client.specs.Conversing.{Conferred, Leaves, TalkedBy, Talked};
ghost use Rattle.gss_client.specs.Start.{StartSays, objects_start, start_means};
ghost use Rattle.gss_client.specs.Talk.{created_over};

use crate::query::Query;
use crate::refusal::ClientRefusal;
use crate::session::Session;
use crate::start::Start;
use sec_base::{Draw, Link, Octets};
use spnego_core::Outcome;
use std::alloc::Global;

/// The number after that of the last call.
pub(crate) const END: u32 = 0x8000_0000;

/// How a conversation ended.
#[derive(Clone, Copy, Debug)]
pub enum Parting {
    /// All calls were answered, and the context was destroyed.
    Finished,
    /// A call was due, and no number was left for it; the context was destroyed.
    Spent,
    /// A call's result wasn't one of its procedure. Nothing further was written.
    Foreign,
    /// The creation, a call or the destruction was refused.
    Refused(ClientRefusal),
}

/// What the calls of a session came to.
#[derive(Drop)]
pub struct Conversation {
    /// The calls' results, in order.
    pub results: Vec<Octets>,
    pub parting: Parting,
}

/// What a whole session came to.
#[derive(Drop)]
pub struct Talk {
    /// What both ends agree on, once the context stood.
    pub outcome: Option<Outcome>,
    /// The calls' results, in order.
    pub results: Vec<Octets>,
    pub parting: Parting,
}

/// Adds a result, for which there is room.
pub(crate) fn add(results: &mut Vec<Octets>, one: Octets)
    requires { vec_len results.old + 1 ≤ vec_capacity results.old }
    ensures { results.new.items ≡ results.old.items ++ one ∷ [] }
{
    let _ = results.push(one);
}

impl Session {
    /// Calls a procedure so many times with the same arguments, as long as there are numbers, and destroys the context. Each call takes the
    /// next 16 octets of `draw` as its confounder, whatever the service.
    pub fn converse<L: Link, D: Draw, Q: Query>(
        self,
        alloc: Global,
        link: &mut L,
        draw: &mut D,
        query: &Q,
        args: &[u8],
        times: u32,
    ) -> Conversation
        requires unclosed { L.closed link.old ≡ false }
        requires args { length args.now ≤ 65540 }
        ensures told { IsTrue (L.tells link.old)
            → Conferred (D.tells draw.new) (D.given draw.old) (D.given draw.new) times
            (Q.says query.now) args.now self (L.wire link.old) (L.wire link.new)
            result.results.items result.parting }
        ensures fault { result.parting ≡ Parting.Refused ClientRefusal.LinkFault
            → Rose (L.faults link.old) (L.faults link.new) }
        ensures tells { L.tells link.new ≡ L.tells link.old }
        ensures unclosed { L.closed link.new ≡ false }
        ensures faults { L.faults link.old ≤ L.faults link.new }
        ensures drawing { IsTrue (D.tells draw.new) → IsTrue (D.tells draw.old) }
    {
        let mut session = self;
        let mut results = Vec::new(alloc);
        for number in 0..times {
            if session.number == END {
                let parting = session.part(alloc, link, Parting::Spent);
                return Conversation { results, parting };
            }
            if results.reserve(1).is_err() {
                drop(session);
                let parting = Parting::Refused(ClientRefusal::NoMemory);
                return Conversation { results, parting };
            }
            let mut confounder = [0; 16];
            draw.fill(&mut confounder);
            match session.call(alloc, link, query.number(), args, &confounder) {
                Ok((next, result)) => {
                    if !query.is_result(result.as_slice()) {
                        drop(next);
                        drop(result);
                        let parting = Parting::Foreign;
                        return Conversation { results, parting };
                    }
                    session = next;
                    add(&mut results, result);
                }
                Err(refusal) => {
                    let parting = Parting::Refused(refusal);
                    return Conversation { results, parting };
                }
            }
        }
        let parting = session.part(alloc, link, Parting::Finished);
        Conversation { results, parting }
    }

    /// Holds a whole session: creates a context, calls a procedure so many times, and destroys the context.
    pub fn hold<L: Link, D: Draw, Q: Query>(
        alloc: Global,
        link: &mut L,
        draw: &mut D,
        start: Start,
        query: &Q,
        args: &[u8],
        times: u32,
    ) -> Talk
        requires unclosed { L.closed link.old ≡ false }
        requires list { is_own_list (start_means start meaning).setup.list ≡ true }
        requires first { 1 ≤ start.first }
        requires last { start.first ≤ 0x7fffffff }
        requires args { length args.now ≤ 65540 }
        ensures told { IsTrue (L.tells link.old) → TalkedBy (D.tells draw.new) (D.given draw.old)
            (D.given draw.new) (created_over (start_means start meaning)) times (Q.says query.now)
            args.now (L.wire link.old) (L.wire link.new) result.outcome result.results.items
            result.parting }
        // By the objects of Kerberos and SCRAM: as by their credentials.
        ensures plain { (own : StartSays) → start_means start meaning ≡ objects_start own
            → IsTrue (L.tells link.old) → Talked (D.tells draw.new) (D.given draw.old)
            (D.given draw.new) own times (Q.says query.now) args.now (L.wire link.old)
            (L.wire link.new) result.outcome result.results.items result.parting }
        ensures fault { result.parting ≡ Parting.Refused ClientRefusal.LinkFault
            → Rose (L.faults link.old) (L.faults link.new) }
        ensures tells { L.tells link.new ≡ L.tells link.old }
        ensures unclosed { L.closed link.new ≡ false }
        ensures faults { L.faults link.old ≤ L.faults link.new }
        ensures drawing { IsTrue (D.tells draw.new) → IsTrue (D.tells draw.old) }
    {
        let session = match Session::create(alloc, link, start) {
            Ok(session) => session,
            Err(refusal) => {
                return Talk {
                    outcome: None,
                    results: Vec::new(alloc),
                    parting: Parting::Refused(refusal),
                };
            }
        };
        let outcome = *session.outcome();
        let Conversation { results, parting } = session.converse(
            alloc, link, draw, query, args, times,
        );
        Talk {
            outcome: Some(outcome),
            results,
            parting,
        }
    }

    /// Destroys the context at the end of a conversation.
    pub(crate) fn part<L: Link>(self, alloc: Global, link: &mut L, due: Parting) -> Parting
        requires unclosed { L.closed link.old ≡ false }
        ensures told { IsTrue (L.tells link.old)
            → Leaves self (L.wire link.old) (L.wire link.new) due result }
        ensures fault { result ≡ Parting.Refused ClientRefusal.LinkFault
            → due ≢ Parting.Refused ClientRefusal.LinkFault
            → Rose (L.faults link.old) (L.faults link.new) }
        ensures tells { L.tells link.new ≡ L.tells link.old }
        ensures unclosed { L.closed link.new ≡ false }
        ensures faults { L.faults link.old ≤ L.faults link.new }
    {
        match self.destroy(alloc, link) {
            Ok(()) => due,
            Err(refusal) => Parting::Refused(refusal),
        }
    }
}
