//! A desk's seat at the book and the program behind the lock.
ghost use Rattle.std.specs.Prelude.{◌≡◌, ◌≤◌, true, IfOk, length};
ghost use Rattle.gss_server.specs.Programs.{SpeltTaken};
ghost use Rattle.rpc_program.specs.Programs.{IsShort};
ghost use Rattle.rpc_program.specs.declared.limits.TheConstants.{MOST};
ghost use Rattle.book_seats.specs.Admitting.{entered_in};

use crate::board::{Begins, Room};
use crate::hall::{Clerk, Hall};
use crate::shared::{Admission, Shared};
use accept_book::{AdmitRefusal, Admitted, Lease, LookRefusal, Negotiated, Receipt, step_first};
use gss_server::{DataCall, Gate};
use rpc_program::{Caller, Outcome, Program, ProgramId, Speller, Unserved};
use rpcsec_bodies::Service;
use sec_base::Moment;
use spnego_core::AcceptSetup;
use std::alloc::Global;
use std::sync::{Mutex, Wait};

/// A desk's seat at the one book and program. It holds the lock for one question at a time: it steps a first token before it takes it, and
/// spells a call's result after it let it go.
#[derive(Drop)]
pub struct Seat<'a, R, P: Program<Ticket = T>, T, S: Speller<T>, J: Room + Begins<P>> {
    rt: &'a R,
    lock: &'a Mutex<Shared<P, T, J>>,
    hall: &'a Hall<T, J>,
    setup: &'a AcceptSetup,
    /// What the desk has seen of the history.
    pub clerk: Clerk<T, J>,
    /// Who spells the results of its calls.
    pub speller: S,
    ghost same: { setup.now ≡ J.setup },
    ghost says: { S.says ≡ P.says },
}

impl<'a, R, P: Program<Ticket = T>, T, S: Speller<T>, J: Room + Begins<P>> Seat<'a, R, P, T, S, J> {
    /// A seat for a clerk's desk, which is lent what the book's ends are begun with, and has its own speller of the program's results.
    pub fn new(
        rt: &'a R,
        lock: &'a Mutex<Shared<P, T, J>>,
        hall: &'a Hall<T, J>,
        setup: &'a AcceptSetup,
        clerk: Clerk<T, J>,
        speller: S,
    ) -> Seat<'a, R, P, T, S, J>
        requires setup { setup.now ≡ J.setup }
        requires says { S.says ≡ P.says }
        ensures clerk { result.clerk ≡ clerk }
        ensures speller { result.speller ≡ speller }
    {
        Seat {
            rt,
            lock,
            hall,
            setup,
            clerk,
            speller,
        }
    }

    /// The clerk, and the speller.
    pub fn rise(self) -> (Clerk<T, J>, S)
        ensures { result ≡ (self.entry.clerk, self.entry.speller) }
    {
        let Seat {
            rt: _,
            lock: _,
            hall: _,
            setup: _,
            clerk,
            speller,
        } = self;
        (clerk, speller)
    }
}

/// What a desk tells of an admission: the outcome that is spelled from the ticket, or that the call couldn't be done.
fn tell<T, S: Speller<T>>(
    speller: &mut S,
    alloc: Global,
    lease: &Lease,
    call: &DataCall<'_>,
    admission: Admission<T>,
) -> Result<Admitted, AdmitRefusal>
    requires has { S.says.has call.now.procedure ≡ true }
    requires takes { S.says.takes call.now.procedure call.now.args.now ≡ true }
    requires few { length call.now.args.now ≤ MOST }
    ensures short { IfOk result (λ admitted. IsShort admitted.outcome) }
    ensures spelt { SpeltTaken S.spells speller.old lease.now call.now.service call.now.procedure
        call.now.args.now (entered_in admission) result speller.new }
{
    match admission {
        Ok((receipt, entered)) => match entered {
            Ok(ticket) => {
                let caller = Caller {
                    name: lease.outcome.initiator.octets(),
                    mech: lease.outcome.mech,
                    service: call.service,
                    place: receipt.place,
                };
                let outcome = speller.spell(alloc, &caller, call.procedure, call.args, ticket);
                Ok(Admitted { receipt, outcome })
            }
            Err(_) => Ok(Admitted {
                receipt,
                outcome: Outcome::Refused(Unserved::System),
            }),
        },
        Err(refusal) => Err(refusal),
    }
}

impl<R: Wait, P: Program<Ticket = T>, T, S: Speller<T>, J: Room + Begins<P>> Seat<
    '_,
    R,
    P,
    T,
    S,
    J,
> {
    ghost use Rattle.std.specs.Prelude.{None, Some};
    ghost use Rattle.accept_book.specs.Booking.{token_size};
    ghost use Rattle.accept_book.specs.RecordShown.{AskedStep, AskedAdmit};
    ghost use Rattle.book_seats.specs.Histories.{AnsweredBy};

    /// Steps a first token, and then asks the book to take what was made of it.
    fn first(&mut self, alloc: Global, token: &[u8], now: Moment, draws: &[u8; 66]) -> Negotiated
        ensures size { token_size result.answer ≤ 65536 }
        ensures answered { AnsweredBy P.Program J.begins self.old.clerk
            (AskedStep None token.now now draws.now result) self.new.clerk }
        ensures speller { self.new.speller ≡ self.old.speller }
    {
        let stepped = step_first(alloc, self.setup, token, now, draws);
        let mut guard = self.lock.lock(self.rt);
        let shared = &mut *guard;
        shared.first(self.hall, &mut self.clerk, stepped, token, now, draws)
    }

    /// Asks the book to take a later token, whose step hangs on what the book holds.
    fn later(
        &mut self,
        alloc: Global,
        id: u64,
        token: &[u8],
        now: Moment,
        draws: &[u8; 66],
    ) -> Negotiated
        ensures size { token_size result.answer ≤ 65536 }
        ensures answered { AnsweredBy P.Program J.begins self.old.clerk
            (AskedStep (Some id) token.now now draws.now result) self.new.clerk }
        ensures speller { self.new.speller ≡ self.old.speller }
    {
        let mut guard = self.lock.lock(self.rt);
        let shared = &mut *guard;
        shared.later(
            self.hall,
            &mut self.clerk,
            alloc,
            self.setup,
            id,
            token,
            now,
            draws,
        )
    }

    /// Asks for the admission of a call, behind the lock.
    fn ask(&mut self, lease: &Lease, call: &DataCall<'_>) -> Admission<T>
        requires has { P.says.has call.now.procedure ≡ true }
        requires takes { P.says.takes call.now.procedure call.now.args.now ≡ true }
        ensures answered { AnsweredBy P.Program J.begins self.old.clerk (AskedAdmit lease.now
            call.now.seq call.now.service call.now.procedure call.now.args.now
            (entered_in result)) self.new.clerk }
        ensures speller { self.new.speller ≡ self.old.speller }
    {
        let mut guard = self.lock.lock(self.rt);
        let shared = &mut *guard;
        shared.admit(self.hall, &mut self.clerk, lease, call)
    }
}

/// A seat answers what the one book and program answer, after all that the desk has seen of the history and what other desks asked since
/// (`AnsweredBy`). The outcome of a call is spelled from the ticket that its own entry gave (`ToldFrom`). It tells nothing of what it was asked.
impl<R: Wait, P: Program<Ticket = T>, T, S: Speller<T>, J: Room + Begins<P>> Gate
    for Seat<'_, R, P, T, S, J> {
    ghost use Rattle.std.specs.Prelude.{false, []};
    ghost use Rattle.book_seats.specs.Telling.{SeatAnswers};

    ghost program = { S.says };

    ghost tells = { λ _. false };

    ghost room = { λ _. 0 };

    ghost told = { λ _. [] };

    ghost limits = { λ _. J.limits };

    ghost answers = { λ old one new. SeatAnswers P.Program S.Speller J.begins old.clerk old.speller
        one new.clerk new.speller };

    fn id(&self) -> ProgramId {
        self.speller.id()
    }

    fn has(&self, procedure: u32) -> bool {
        self.speller.has(procedure)
    }

    fn needs(&self, procedure: u32) -> Service {
        self.speller.needs(procedure)
    }

    fn takes(&self, procedure: u32, args: &[u8]) -> bool {
        self.speller.takes(procedure, args)
    }

    fn negotiate(
        &mut self,
        alloc: Global,
        id: Option<u64>,
        token: &[u8],
        now: Moment,
        draws: &[u8; 66],
    ) -> Negotiated {
        match id {
            None => self.first(alloc, token, now, draws),
            Some(id) => self.later(alloc, id, token, now, draws),
        }
    }

    fn look(&mut self, id: u64, now: Moment) -> Result<Lease, LookRefusal> {
        let mut guard = self.lock.lock(self.rt);
        let shared = &mut *guard;
        shared.look(self.hall, &mut self.clerk, id, now)
    }

    fn admit(
        &mut self,
        alloc: Global,
        lease: &Lease,
        call: &DataCall<'_>,
    ) -> Result<Admitted, AdmitRefusal> {
        let admission = self.ask(lease, call);
        tell(&mut self.speller, alloc, lease, call, admission)
    }

    fn pass(&mut self, lease: &Lease, call: &DataCall<'_>) -> Result<Receipt, AdmitRefusal> {
        let mut guard = self.lock.lock(self.rt);
        let shared = &mut *guard;
        shared.pass(self.hall, &mut self.clerk, lease, call)
    }

    fn end(&mut self, lease: &Lease, seq: u32) -> Result<Receipt, AdmitRefusal> {
        let mut guard = self.lock.lock(self.rt);
        let shared = &mut *guard;
        shared.end(self.hall, &mut self.clerk, lease, seq)
    }
}
