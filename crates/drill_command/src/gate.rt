//! The gate of a drill: a book of one owner with the program of posts.

ghost use Rattle.std.specs.Prelude.{◌≡◌};

use accept_book::{AdmitRefusal, Admitted, Lease, LookRefusal, Negotiated, OwnSeat, Receipt};
use gate_models::Beginning;
use gss_server::{DataCall, Gate, OwnGate};
use posts_program::{Posts, PostsWords};
use rpc_program::{ProgramId, Spelled};
use rpcsec_bodies::Service;
use sec_base::Moment;
use std::alloc::Global;
use std::marker::Brand;

/// A book of one owner, with the program of posts and who spells its results.
#[derive(Drop)]
pub struct DrillGate {
    pub inner: OwnGate<Posts, Spelled<PostsWords>>,
}

impl DrillGate {
    /// The book without its program.
    pub fn into_seat(self) -> OwnSeat
        ensures { result ≡ self.inner.seat }
    {
        let (seat, _program, _speller) = self.inner.into_parts();
        seat
    }
}

impl Beginning<DrillGate> for Brand {
    ghost use Rattle.std.specs.Prelude.{[]};

    ghost begins = { λ _. Unit {0} };

    ghost width = { 0 };

    ghost moment = { 0 };

    ghost given = { [] };
}

/// It is asked as the gate in it, and answers as that does (`OwnAnswers`).
impl Gate for DrillGate {
    ghost use Rattle.std.specs.Prelude.{false, []};
    ghost use Rattle.posts_program.specs.Posts.{posts_says};
    ghost use Rattle.gss_server.specs.Programs.{OwnAnswers};
    ghost use Rattle.gss_server.specs.Telling.{limits_of};
    ghost use Rattle.drill_command.specs.Served.{PostsEnters, PostsSpells};

    ghost program = { posts_says };

    ghost tells = { λ _. false };

    ghost room = { λ _. 0 };

    ghost told = { λ _. [] };

    ghost limits = { λ gate. limits_of gate.inner.seat.core };

    ghost answers = { λ old asked new. OwnAnswers posts_says PostsEnters PostsSpells
        old.inner.seat new.inner.seat old.inner.program new.inner.program old.inner.speller
        new.inner.speller asked };

    fn id(&self) -> ProgramId {
        self.inner.id()
    }

    fn has(&self, procedure: u32) -> bool {
        self.inner.has(procedure)
    }

    fn needs(&self, procedure: u32) -> Service {
        self.inner.needs(procedure)
    }

    fn takes(&self, procedure: u32, args: &[u8]) -> bool {
        self.inner.takes(procedure, args)
    }

    fn negotiate(
        &mut self,
        alloc: Global,
        id: Option<u64>,
        token: &[u8],
        now: Moment,
        draws: &[u8; 66],
    ) -> Negotiated {
        self.inner.negotiate(alloc, id, token, now, draws)
    }

    fn look(&mut self, id: u64, now: Moment) -> Result<Lease, LookRefusal> {
        self.inner.look(id, now)
    }

    fn admit(
        &mut self,
        alloc: Global,
        lease: &Lease,
        call: &DataCall<'_>,
    ) -> Result<Admitted, AdmitRefusal> {
        self.inner.admit(alloc, lease, call)
    }

    fn pass(&mut self, lease: &Lease, call: &DataCall<'_>) -> Result<Receipt, AdmitRefusal> {
        self.inner.pass(lease, call)
    }

    fn end(&mut self, lease: &Lease, seq: u32) -> Result<Receipt, AdmitRefusal> {
        self.inner.end(lease, seq)
    }
}
