//! The gate over a desk's seat.

ghost use Rattle.std.specs.Prelude.{◌≡◌, ◌<◌};

use crate::behind::Opening;
use crate::marks::taken_in;
use crate::queue::Queue;
use accept_book::{AdmitRefusal, Admitted, Lease, LookRefusal, NegAnswer, Negotiated, Receipt};
use gss_server::{DataCall, Gate};
use replay_journal::Disk;
use rpc_program::ProgramId;
use rpcsec_bodies::Service;
use sec_base::Moment;
use std::alloc::Global;
use std::sync::Wait;
use std::sync::ledger::Share;

/// A gate over another, and the queue at the journal, which is asked where one is kept.
#[derive(Drop)]
pub struct JournalGate<'a, R, G, K: Disk, L: Opening> {
    pub rt: &'a R,
    pub queue: &'a Queue<K, L>,
    /// Whether a journal is kept.
    pub journaled: bool,
    pub seat: G,
    /// The desk's share of the answers that the journal's disk failed.
    pub share: Share<L>,
    pub ghost some: { 0 < share.parts },
}

/// A step whose answer is withheld: this one stands in its place, and its receipts stay.
fn withheld(step: Negotiated, answer: NegAnswer) -> Negotiated
    ensures { result ≡ record { answer = answer; receipts = step.receipts } }
{
    let Negotiated {
        answer: _,
        receipts,
    } = step;
    Negotiated { answer, receipts }
}

/// It answers what the other gate answers; or, where that took an authenticator and a journal is kept, the journal's refusal. It tells nothing of what
/// it was asked.
impl<R: Wait, G: Gate, K: Disk, L: Opening> Gate for JournalGate<'_, R, G, K, L> {
    ghost use Rattle.std.specs.Prelude.{false, []};
    ghost use Rattle.journal_gate.specs.Withheld.{JournalAnswers};

    ghost program = { G.program };

    ghost tells = { λ _. false };

    ghost room = { λ _. 0 };

    ghost told = { λ _. [] };

    ghost limits = { λ gate. G.limits gate.seat };

    ghost answers = { λ old one new. JournalAnswers G.answers old.journaled old.seat
        old.share.amount one new.journaled new.seat new.share.amount };

    fn id(&self) -> ProgramId {
        self.seat.id()
    }

    fn has(&self, procedure: u32) -> bool {
        self.seat.has(procedure)
    }

    fn needs(&self, procedure: u32) -> Service {
        self.seat.needs(procedure)
    }

    fn takes(&self, procedure: u32, args: &[u8]) -> bool {
        self.seat.takes(procedure, args)
    }

    fn negotiate(
        &mut self,
        alloc: Global,
        id: Option<u64>,
        token: &[u8],
        now: Moment,
        draws: &[u8; 66],
    ) -> Negotiated {
        let step = self.seat.negotiate(alloc, id, token, now, draws);
        if !self.journaled {
            return step;
        }
        match taken_in(&step) {
            None => step,
            Some(mark) => {
                let told = self.queue.keep(self.rt, alloc, &mut self.share, now, mark);
                match told {
                    None => step,
                    Some(answer) => withheld(step, answer),
                }
            }
        }
    }

    fn look(&mut self, id: u64, now: Moment) -> Result<Lease, LookRefusal> {
        self.seat.look(id, now)
    }

    fn admit(
        &mut self,
        alloc: Global,
        lease: &Lease,
        call: &DataCall<'_>,
    ) -> Result<Admitted, AdmitRefusal> {
        self.seat.admit(alloc, lease, call)
    }

    fn pass(&mut self, lease: &Lease, call: &DataCall<'_>) -> Result<Receipt, AdmitRefusal> {
        self.seat.pass(lease, call)
    }

    fn end(&mut self, lease: &Lease, seq: u32) -> Result<Receipt, AdmitRefusal> {
        self.seat.end(lease, seq)
    }
}
