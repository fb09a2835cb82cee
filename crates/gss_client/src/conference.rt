//! A whole session whose calls may differ: its creation, each call, and the end of its context.

ghost use Rattle.std.specs.Prelude.{◌≡◌, ◌≤◌, length, false, true, IsTrue};
ghost use Rattle.sec_base.specs.Answers.{Rose};
ghost use Rattle.init_ends.specs.Objects.{is_own_list};
ghost use Rattle.gss_client.specs.Conferring.{calls_of};
ghost use Rattle.gss_client.specs.Holding.{ConferredOf, TalkedBehind, TalkedOf};
ghost use Rattle.gss_client.specs.Start.{StartSays, objects_start, start_means};
ghost use Rattle.gss_client.specs.Talk.{created_over};

use crate::conversation::{Conversation, END, Parting, Talk, add};
use crate::octets::tell_octets;
use crate::query::Query;
use crate::refusal::ClientRefusal;
use crate::session::Session;
use crate::start::Start;
use sec_base::{Draw, Link, Octets};
use std::alloc::Global;
use std::marker::Model;

/// A call that is due: what is asked, and its arguments in XDR, at most 65,540 octets.
#[derive(Drop)]
pub struct DueCall<Q> {
    query: Q,
    args: Octets,
}

impl<Q> Model for DueCall<Q> {
    ghost use Rattle.std.specs.Prelude.{◌≤◌, length};
    ghost use Rattle.gss_client.specs.Conferring.{DueOf};

    ghost Value = { DueOf Q };

    ghost view = { λ c. record { query = c.query; args = c.args } };

    ghost invariant = { λ c. length c.args ≤ 65540 };
}

impl<Q> DueCall<Q> {
    /// A call that asks this with these arguments.
    pub fn of(query: Q, args: Octets) -> DueCall<Q>
        requires { length args ≤ 65540 }
        ensures { result ≡ record { query = query; args = args } }
    {
        DueCall { query, args }
    }

    /// What is asked.
    pub fn query(&self) -> &Q
        ensures { result.now ≡ self.now.query }
    {
        &self.query
    }

    /// The arguments, in XDR.
    pub fn octets(&self) -> &[u8]
        ensures value { result.now ≡ self.now.args }
        ensures size { length result.now ≤ 65540 }
    {
        self.args.as_slice()
    }
}

/// Makes these calls, as long as there are numbers, and destroys the context. Each call takes the next 16 octets of `draw` as its confounder,
/// whatever the service.
fn confer<L: Link, D: Draw, Q: Query>(
    alloc: Global,
    link: &mut L,
    draw: &mut D,
    session: Session,
    due: &[DueCall<Q>],
) -> Conversation
    requires unclosed { L.closed link.old ≡ false }
    ensures told { IsTrue (L.tells link.old)
        → ConferredOf (D.tells draw.new) (D.given draw.old) (D.given draw.new)
        (calls_of Q.says due.now) session (L.wire link.old) (L.wire link.new) result.results.items
        result.parting }
    ensures fault { result.parting ≡ Parting.Refused ClientRefusal.LinkFault
        → Rose (L.faults link.old) (L.faults link.new) }
    ensures tells { L.tells link.new ≡ L.tells link.old }
    ensures unclosed { L.closed link.new ≡ false }
    ensures faults { L.faults link.old ≤ L.faults link.new }
    ensures drawing { IsTrue (D.tells draw.new) → IsTrue (D.tells draw.old) }
{
    let mut state = session;
    let mut results = Vec::new(alloc);
    for call in due {
        if state.next_number() == END {
            let parting = state.part(alloc, link, Parting::Spent);
            return Conversation { results, parting };
        }
        if results.reserve(1).is_err() {
            let parting = Parting::Refused(ClientRefusal::NoMemory);
            return Conversation { results, parting };
        }
        let mut confounder = [0; 16];
        draw.fill(&mut confounder);
        tell_octets(&confounder);
        let query = call.query();
        match state.call(alloc, link, query.number(), call.octets(), &confounder) {
            Ok((next, result)) => {
                if !query.is_result(result.as_slice()) {
                    let parting = Parting::Foreign;
                    return Conversation { results, parting };
                }
                state = next;
                add(&mut results, result);
            }
            Err(refusal) => {
                let parting = Parting::Refused(refusal);
                return Conversation { results, parting };
            }
        }
    }
    let parting = state.part(alloc, link, Parting::Finished);
    Conversation { results, parting }
}

/// Holds a whole session: creates a context, makes these calls, and destroys the context.
pub fn hold_calls<L: Link, D: Draw, Q: Query>(
    alloc: Global,
    link: &mut L,
    draw: &mut D,
    start: Start,
    due: &[DueCall<Q>],
) -> Talk
    requires unclosed { L.closed link.old ≡ false }
    requires list { is_own_list (start_means start meaning).setup.list ≡ true }
    requires first { 1 ≤ start.first }
    requires last { start.first ≤ 0x7fffffff }
    ensures told { IsTrue (L.tells link.old) → TalkedBehind (D.tells draw.new) (D.given draw.old)
        (D.given draw.new) (created_over (start_means start meaning)) (calls_of Q.says due.now)
        (L.wire link.old) (L.wire link.new) result.outcome result.results.items result.parting }
    // By the objects of Kerberos and SCRAM: as by their credentials.
    ensures plain { (own : StartSays) → start_means start meaning ≡ objects_start own
        → IsTrue (L.tells link.old) → TalkedOf (D.tells draw.new) (D.given draw.old)
        (D.given draw.new) own (calls_of Q.says due.now) (L.wire link.old) (L.wire link.new)
        result.outcome result.results.items result.parting }
    ensures fault { result.parting ≡ Parting.Refused ClientRefusal.LinkFault
        → Rose (L.faults link.old) (L.faults link.new) }
    ensures tells { L.tells link.new ≡ L.tells link.old }
    ensures unclosed { L.closed link.new ≡ false }
    ensures faults { L.faults link.old ≤ L.faults link.new }
    ensures drawing { IsTrue (D.tells draw.new) → IsTrue (D.tells draw.old) }
{
    let session = match Session::create(alloc, link, start) {
        Ok(session) => session,
        Err(refusal) => {
            return Talk {
                outcome: None,
                results: Vec::new(alloc),
                parting: Parting::Refused(refusal),
            };
        }
    };
    let outcome = *session.outcome();
    let Conversation { results, parting } = confer(alloc, link, draw, session, due);
    Talk {
        outcome: Some(outcome),
        results,
        parting,
    }
}
