//! A record of one desk, between whose questions another desk answers a record, in one thread.

use crate::connections::{Desk, answered, desk_of, serve};
use crate::rules::say_reply;
use accept_book::{AdmitRefusal, Admitted, Lease, LookRefusal, Negotiated, Receipt};
use gss_server::{Answered, DataCall, Gate};
use rpc_program::ProgramId;
use rpcsec_bodies::Service;
use sec_base::Moment;
use std::alloc::Global;
use table_rows::{Cells, Said};

/// The cells limits, moments, the stream of a creation, the record that is held, and the one that comes between its questions.
#[derive(Clone, Copy)]
pub struct Held<'a> {
    pub limits: &'a str,
    pub nows: &'a str,
    pub creation: &'a str,
    pub first: &'a str,
    pub between: &'a str,
}

/// A desk's gate. Once a context was looked for, the other desk answers its record before the next question is asked.
#[derive(Drop)]
struct Between<G> {
    alloc: Global,
    own: G,
    other: G,
    desk: Desk,
    between: Option<Vec<u8>>,
    answered: Option<Answered>,
}

impl<G: Gate> Gate for Between<G> {
    ghost use Rattle.std.specs.Prelude.{false, []};

    ghost program = { G.program };

    ghost tells = { λ _. false };

    ghost room = { λ _. 0 };

    ghost told = { λ _. [] };

    ghost limits = { λ _. record {
      contexts = 0;
      marks = 0;
      log = 0;
      width = 0;
      keeping = record { entries = false; digest = false };
    } };

    ghost answers = { λ _ _ _. Unit {0} };

    fn id(&self) -> ProgramId {
        self.own.id()
    }

    fn has(&self, procedure: u32) -> bool {
        self.own.has(procedure)
    }

    fn needs(&self, procedure: u32) -> Service {
        self.own.needs(procedure)
    }

    fn takes(&self, procedure: u32, args: &[u8]) -> bool {
        self.own.takes(procedure, args)
    }

    fn negotiate(
        &mut self,
        alloc: Global,
        id: Option<u64>,
        token: &[u8],
        now: Moment,
        draws: &[u8; 66],
    ) -> Negotiated {
        self.own.negotiate(alloc, id, token, now, draws)
    }

    fn look(&mut self, id: u64, now: Moment) -> Result<Lease, LookRefusal> {
        let answer = self.own.look(id, now);
        if let Some(octets) = self.between.take() {
            let octets = octets.as_slice();
            let answered = answered(self.alloc, &mut self.other, &mut self.desk, octets);
            self.answered = Some(answered);
        }
        answer
    }

    fn admit(
        &mut self,
        alloc: Global,
        lease: &Lease,
        call: &DataCall<'_>,
    ) -> Result<Admitted, AdmitRefusal> {
        self.own.admit(alloc, lease, call)
    }

    fn pass(&mut self, lease: &Lease, call: &DataCall<'_>) -> Result<Receipt, AdmitRefusal> {
        self.own.pass(lease, call)
    }

    fn end(&mut self, lease: &Lease, seq: u32) -> Result<Receipt, AdmitRefusal> {
        self.own.end(lease, seq)
    }
}

/// Says the rule by which a record is answered, and the reply.
fn say(said: &mut Said, answered: &Answered) {
    said.number(answered.rule as u64);
    say_reply(said, &answered.reply);
}

/// Says what the second desk writes on the connection that makes a context, rule and reply of the first one's record, and of the second one's
/// that comes between.
pub fn hold<G: Gate>(
    first: G,
    second: G,
    held: Held<'_>,
    cells: &mut Cells<'_>,
    said: &mut Said,
) -> (G, G) {
    let alloc = cells.alloc();
    let mut second = second;
    let mut ends = Said::new(alloc);
    let mut desk = desk_of(cells, held.limits, held.nows);
    serve(
        cells,
        &mut second,
        &mut desk,
        held.creation,
        said,
        &mut ends,
    );
    said.join(" ");
    let mut gate = Between {
        alloc,
        own: first,
        other: second,
        desk,
        between: Some(cells.octets_in(held.between)),
        answered: None,
    };
    let mut desk = desk_of(cells, held.limits, held.nows);
    let octets = cells.octets_in(held.first);
    let answer = answered(alloc, &mut gate, &mut desk, octets.as_slice());
    say(said, &answer);
    let Between {
        own,
        other,
        answered,
        ..
    } = gate;
    match answered {
        Some(answered) => say(said, &answered),
        None => cells.expect(false),
    }
    (own, other)
}
