//! A book, a program and who spells its results as a gate: the state of a server with one thread.

ghost use Rattle.std.specs.Prelude.{◌≡◌, ◌≤◌, true, Some, length};
ghost use Rattle.rpc_program.specs.Programs.{IsShort, caller_of};
ghost use Rattle.rpc_program.specs.declared.limits.TheConstants.{MOST};
ghost use Rattle.gss_server.specs.Programs.{Spelt, caller_of_lease};

use crate::gate::{DataCall, Gate};
use accept_book::{AdmitRefusal, Admitted, Lease, LookRefusal, Negotiated, OwnSeat, Receipt};
use rpc_program::{Caller, Fault, Outcome, Program, ProgramId, Speller, Unserved};
use rpcsec_bodies::Service;
use sec_base::Moment;
use std::alloc::Global;

/// The procedure that no program has.
const NO_PROCEDURE: u32 = 0xffff_ffff;

/// A book of one owner, the program that it serves, and who spells the program's results.
#[derive(Drop)]
pub struct OwnGate<P: Program, S: Speller<P::Ticket>> {
    pub seat: OwnSeat,
    pub program: P,
    pub speller: S,
    ghost same: { S.says ≡ P.says },
}

impl<P: Program, S: Speller<P::Ticket>> OwnGate<P, S> {
    pub fn new(seat: OwnSeat, program: P, speller: S) -> OwnGate<P, S>
        requires { S.says ≡ P.says }
        ensures seat { result.seat ≡ seat }
        ensures program { result.program ≡ program }
        ensures speller { result.speller ≡ speller }
    {
        OwnGate {
            seat,
            program,
            speller,
        }
    }

    /// The book, the program and the speller.
    pub fn into_parts(self) -> (OwnSeat, P, S)
        ensures { result ≡ (self.seat, self.program, self.speller) }
    {
        let OwnGate {
            seat,
            program,
            speller,
        } = self;
        (seat, program, speller)
    }
}

/// The caller that a program is told, of a lease's context, by this service, with its entry at this place.
pub fn caller_of_lease<'a>(lease: &'a Lease, service: Service, place: u64) -> Caller<'a>
    ensures caller { caller_of result ≡ caller_of_lease lease.now service place }
    ensures name { length result.name.now ≤ 255 }
{
    Caller {
        name: lease.outcome.initiator.octets(),
        mech: lease.outcome.mech,
        service,
        place,
    }
}

/// The outcome of a call that was entered: it is spelled from its ticket, and a fault is told as such.
pub fn spell_entered<T, S: Speller<T>>(
    alloc: Global,
    speller: &mut S,
    caller: &Caller<'_>,
    call: &DataCall<'_>,
    entered: Result<T, Fault>,
) -> Outcome
    requires has { S.says.has call.now.procedure ≡ true }
    requires takes { S.says.takes call.now.procedure call.now.args.now ≡ true }
    requires few { length call.now.args.now ≤ MOST }
    requires name { length caller.now.name.now ≤ 255 }
    ensures spelt { Spelt S.spells speller.old (caller_of caller.now) call.now.procedure
        call.now.args.now (Some entered) result speller.new }
    ensures short { IsShort result }
{
    match entered {
        Ok(ticket) => speller.spell(alloc, caller, call.procedure, call.args, ticket),
        Err(_) => Outcome::Refused(Unserved::System),
    }
}

/// The book answers as its own contract says (`BookAnswers`), exactly an admitted call is entered into the program, and its outcome is what
/// is spelled from that (`OwnAnswers`). It tells nothing of what it was asked.
impl<P: Program, S: Speller<P::Ticket>> Gate for OwnGate<P, S> {
    ghost use Rattle.std.specs.Prelude.{false, []};
    ghost use Rattle.gss_server.specs.Programs.{OwnAnswers};
    ghost use Rattle.gss_server.specs.Telling.{limits_of};

    ghost program = { S.says };

    ghost tells = { λ _. false };

    ghost room = { λ _. 0 };

    ghost told = { λ _. [] };

    ghost limits = { λ gate. limits_of gate.seat.core };

    ghost answers = { λ old asked new. OwnAnswers P.says P.enters S.spells old.seat new.seat
        old.program new.program old.speller new.speller asked };

    fn id(&self) -> ProgramId {
        self.speller.id()
    }

    fn has(&self, procedure: u32) -> bool {
        self.speller.has(procedure)
    }

    fn needs(&self, procedure: u32) -> Service {
        self.speller.needs(procedure)
    }

    fn takes(&self, procedure: u32, args: &[u8]) -> bool {
        self.speller.takes(procedure, args)
    }

    fn negotiate(
        &mut self,
        alloc: Global,
        id: Option<u64>,
        token: &[u8],
        now: Moment,
        draws: &[u8; 66],
    ) -> Negotiated {
        self.seat.negotiate(alloc, id, token, now, draws)
    }

    fn look(&mut self, id: u64, now: Moment) -> Result<Lease, LookRefusal> {
        self.seat.look(id, now)
    }

    fn admit(
        &mut self,
        alloc: Global,
        lease: &Lease,
        call: &DataCall<'_>,
    ) -> Result<Admitted, AdmitRefusal> {
        match self
            .seat
            .admit(lease, call.seq, call.procedure, call.digest)
        {
            Ok(receipt) => {
                let caller = caller_of_lease(lease, call.service, receipt.place);
                let entered = self.program.enter(&caller, call.procedure, call.args);
                let outcome = spell_entered(alloc, &mut self.speller, &caller, call, entered);
                Ok(Admitted { receipt, outcome })
            }
            Err(refusal) => Err(refusal),
        }
    }

    fn pass(&mut self, lease: &Lease, call: &DataCall<'_>) -> Result<Receipt, AdmitRefusal> {
        self.seat.admit(lease, call.seq, NO_PROCEDURE, call.digest)
    }

    fn end(&mut self, lease: &Lease, seq: u32) -> Result<Receipt, AdmitRefusal> {
        self.seat.end(lease, seq)
    }
}
