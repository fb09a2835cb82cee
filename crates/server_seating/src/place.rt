//! A desk's place: its seat at the book and the program, and the journal, where one is kept.

use accept_book::{AdmitRefusal, Admitted, Lease, LookRefusal, Negotiated, Receipt};
use book_seats::{Begins, Room, Seat};
use gss_server::{DataCall, Gate};
use journal_gate::{JournalGate, Opening};
use replay_journal::Disk;
use rpc_program::{Program, ProgramId, Speller};
use rpcsec_bodies::Service;
use sec_base::Moment;
use std::alloc::Global;
use std::sync::Wait;

/// The gate of a desk: its seat at the book and the program, behind the journal's gate.
#[derive(Drop)]
pub(crate) struct Place<
    'a,
    R,
    V: Program<Ticket = T>,
    T,
    W: Speller<T>,
    J: Room + Begins<V>,
    M: Disk,
    L: Opening,
> {
    pub(crate) gate: JournalGate<'a, R, Seat<'a, R, V, T, W, J>, M, L>,
}

/// It answers as that gate does.
impl<
    R: Wait,
    V: Program<Ticket = T>,
    T,
    W: Speller<T>,
    J: Room + Begins<V>,
    M: Disk,
    L: Opening,
> Gate for Place<'_, R, V, T, W, J, M, L> {
    ghost use Rattle.std.specs.Prelude.{false, []};
    ghost use Rattle.book_seats.specs.Telling.{SeatAnswers};
    ghost use Rattle.journal_gate.specs.Withheld.{JournalAnswers};

    ghost program = { W.says };

    ghost tells = { λ _. false };

    ghost room = { λ _. 0 };

    ghost told = { λ _. [] };

    ghost limits = { λ _. J.limits };

    ghost answers = { λ old one new. JournalAnswers
        (λ was asked is. SeatAnswers V.Program W.Speller J.begins was.clerk was.speller asked
        is.clerk is.speller) old.gate.journaled old.gate.seat old.gate.share.amount one
        new.gate.journaled new.gate.seat new.gate.share.amount };

    fn id(&self) -> ProgramId {
        self.gate.id()
    }

    fn has(&self, procedure: u32) -> bool {
        self.gate.has(procedure)
    }

    fn needs(&self, procedure: u32) -> Service {
        self.gate.needs(procedure)
    }

    fn takes(&self, procedure: u32, args: &[u8]) -> bool {
        self.gate.takes(procedure, args)
    }

    fn negotiate(
        &mut self,
        alloc: Global,
        id: Option<u64>,
        token: &[u8],
        now: Moment,
        draws: &[u8; 66],
    ) -> Negotiated {
        self.gate.negotiate(alloc, id, token, now, draws)
    }

    fn look(&mut self, id: u64, now: Moment) -> Result<Lease, LookRefusal> {
        self.gate.look(id, now)
    }

    fn admit(
        &mut self,
        alloc: Global,
        lease: &Lease,
        call: &DataCall<'_>,
    ) -> Result<Admitted, AdmitRefusal> {
        self.gate.admit(alloc, lease, call)
    }

    fn pass(&mut self, lease: &Lease, call: &DataCall<'_>) -> Result<Receipt, AdmitRefusal> {
        self.gate.pass(lease, call)
    }

    fn end(&mut self, lease: &Lease, seq: u32) -> Result<Receipt, AdmitRefusal> {
        self.gate.end(lease, seq)
    }
}
