//! A gate over another, where a call that is sent again acts once.
ghost use Rattle.std.specs.Prelude.{◌≡◌, ◌<◌, IfOk, take};
ghost use Rattle.again_calls.specs.Kept.{act_of};
ghost use Rattle.again_calls.specs.Outcomes.{IsAgain};
ghost use Rattle.again_gate.specs.Again.{opened_gate, with_xid, placed_all, Keeps, is_act, IsSeen};
ghost use Rattle.rpc_program.specs.Programs.{IsShort};

use accept_book::{AdmitRefusal, Admitted, Entry, Lease, LookRefusal, Negotiated, Receipt};
use again_calls::{Act, Acts, kept_of, told_again};
use gss_server::{DataCall, Gate};
use rpc_program::{Outcome, ProgramId};
use rpcsec_bodies::Service;
use sec_base::{Moment, NoMemory};
use std::alloc::Global;
use std::marker::Model;

/// A gate over another, which keeps of each context the last calls that acted, and answers one that is sent again, with the same
/// transaction number, from what was kept.
#[derive(Drop)]
pub struct AgainGate<G> {
    gate: G,
    xid: u32,
    acts: Acts,
    /// How many octets of a result are kept at most.
    most: u32,
}

impl<G> Model for AgainGate<G> {
    ghost use Rattle.again_gate.specs.Again.{AgainOf};

    ghost Value = { AgainOf G };

    ghost view = { λ a. record {
      gate = a.gate;
      xid = a.xid;
      places = a.acts;
      most = a.most;
    } };
}

impl<G> AgainGate<G> {
    /// A gate that keeps nothing yet, with memory for the last `width` calls of so many contexts. Of a result `most` octets are kept at
    /// most; each takes memory when it is kept.
    pub fn new(
        alloc: Global,
        gate: G,
        contexts: usize,
        width: u32,
        most: u32,
    ) -> Result<AgainGate<G>, NoMemory>
    where
        G: Drop,
        requires { 0 < width }
        ensures { IfOk result (λ a. a ≡ opened_gate gate contexts width most) }
    {
        match Acts::new(alloc, contexts, width as usize) {
            Ok(acts) => Ok(AgainGate {
                gate,
                xid: 0,
                acts,
                most,
            }),
            Err(error) => {
                drop(gate);
                Err(error)
            }
        }
    }

    /// Names the transaction number of the next call.
    pub fn turn(&mut self, xid: u32)
        ensures { self.new ≡ with_xid xid self.old }
    {
        self.xid = xid;
    }

    /// The gate below.
    pub fn into_gate(self) -> G
        ensures { result ≡ self.gate }
    {
        let AgainGate { gate, acts, .. } = self;
        drop(acts);
        gate
    }
}

/// Gives places to the contexts that were opened, and takes back those of the ones that ended.
fn place_all(acts: &mut Acts, receipts: &[Receipt])
    ensures { acts.new ≡ placed_all receipts.now acts.old }
{
    for receipt in receipts {
        match receipt.entry {
            Entry::Opened { id, at: _ } => acts.open(id),
            Entry::Ended { id, cause: _ } => acts.end(id),
            Entry::Auth { .. } | Entry::Went { .. } | Entry::Settled { .. } | Entry::Call { .. } =>
                {}
        }
    }
}

/// The first `count` of these, or all.
#[tactic(auto, using(gss_server::proofs::Takings::take_past))]
fn first_of(list: &[Receipt; 4], count: u8) -> &[Receipt]
    ensures { result.now ≡ take count list.now }
{
    &list[..count.min(4) as usize]
}

/// Whether a kept call has this procedure, and arguments with this digest.
fn is_act(act: &Act, procedure: u32, digest: &[u8; 20]) -> bool
    ensures { result ≡ is_act act.now procedure digest.now }
{
    act.procedure == procedure && act.args == *digest
}

/// Keeps a call that was admitted.
fn keep_call(
    alloc: Global,
    most: u32,
    acts: &mut Acts,
    xid: u32,
    lease: &Lease,
    call: &DataCall<'_>,
    answer: &Result<Admitted, AdmitRefusal>,
)
    requires { IfOk answer.now (λ admitted. IsShort admitted.outcome) }
    ensures { Keeps most xid lease.now.id call.now.procedure call.now.digest answer.now acts.old
        acts.new }
{
    match answer {
        Ok(admitted) => {
            let outcome = kept_of(alloc, most, &admitted.outcome);
            acts.keep(
                lease.id,
                Act {
                    xid,
                    procedure: call.procedure,
                    args: call.digest,
                    outcome,
                },
            );
        }
        Err(_) => {}
    }
}

/// What is known of a call by its transaction number.
enum Seen {
    /// None such is kept.
    New,
    /// It acted, and this became of it.
    Again(Outcome),
    /// Another call has its transaction number, or its result wasn't kept.
    Other,
}

/// What is known of a call by its transaction number, procedure and arguments.
fn see(alloc: Global, acts: &Acts, id: u64, xid: u32, procedure: u32, digest: &[u8; 20]) -> Seen
    ensures { IsSeen (act_of id xid acts.now) procedure digest.now result }
{
    match acts.find(id, xid) {
        None => Seen::New,
        Some(act) => {
            if !is_act(act, procedure, digest) {
                return Seen::Other;
            }
            match told_again(alloc, &act.outcome) {
                Some(outcome) => Seen::Again(outcome),
                None => Seen::Other,
            }
        }
    }
}

/// It answers as the gate below, but for calls whose transaction number is kept (`AgainAnswers`).
impl<G: Gate> Gate for AgainGate<G> {
    ghost use Rattle.std.specs.Prelude.{false, []};
    ghost use Rattle.again_gate.specs.Again.{AgainAnswers};

    ghost program = { G.program };

    ghost tells = { λ _. false };

    ghost room = { λ _. 0 };

    ghost told = { λ _. [] };

    ghost limits = { λ again. G.limits again.gate };

    ghost answers = { λ old one new. AgainAnswers G.answers old one new };

    fn id(&self) -> ProgramId {
        self.gate.id()
    }

    fn has(&self, procedure: u32) -> bool {
        self.gate.has(procedure)
    }

    fn needs(&self, procedure: u32) -> Service {
        self.gate.needs(procedure)
    }

    fn takes(&self, procedure: u32, args: &[u8]) -> bool {
        self.gate.takes(procedure, args)
    }

    fn negotiate(
        &mut self,
        alloc: Global,
        id: Option<u64>,
        token: &[u8],
        now: Moment,
        draws: &[u8; 66],
    ) -> Negotiated {
        let answered = self.gate.negotiate(alloc, id, token, now, draws);
        place_all(
            &mut self.acts,
            first_of(&answered.receipts.list, answered.receipts.count),
        );
        answered
    }

    fn look(&mut self, id: u64, now: Moment) -> Result<Lease, LookRefusal> {
        self.gate.look(id, now)
    }

    fn admit(
        &mut self,
        alloc: Global,
        lease: &Lease,
        call: &DataCall<'_>,
    ) -> Result<Admitted, AdmitRefusal> {
        // (no program has the procedure of a call that takes a number alone)
        let _has = self.gate.has(call.procedure);
        match see(
            alloc,
            &self.acts,
            lease.id,
            self.xid,
            call.procedure,
            &call.digest,
        ) {
            Seen::New => {
                let answer = self.gate.admit(alloc, lease, call);
                keep_call(
                    alloc,
                    self.most,
                    &mut self.acts,
                    self.xid,
                    lease,
                    call,
                    &answer,
                );
                answer
            }
            Seen::Again(outcome) => match self.gate.pass(lease, call) {
                Ok(receipt) => Ok(Admitted { receipt, outcome }),
                Err(refusal) => Err(refusal),
            },
            Seen::Other => Err(AdmitRefusal::Repeat),
        }
    }

    fn pass(&mut self, lease: &Lease, call: &DataCall<'_>) -> Result<Receipt, AdmitRefusal> {
        self.gate.pass(lease, call)
    }

    fn end(&mut self, lease: &Lease, seq: u32) -> Result<Receipt, AdmitRefusal> {
        let answer = self.gate.end(lease, seq);
        match &answer {
            Ok(_) => self.acts.end(lease.id),
            Err(_) => {}
        }
        answer
    }
}
