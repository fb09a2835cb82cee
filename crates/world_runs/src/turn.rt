//! A book in one turn of a lane.

ghost use Rattle.std.specs.Prelude.{◌≡◌, ◌≤◌, ℕ, true, length, List, Some};
ghost use Rattle.rpc_program.specs.Programs.{IsShort, result_in};
ghost use Rattle.rpc_program.specs.declared.limits.TheConstants.{MOST};
ghost use Rattle.posts_program.specs.Posts.{posts_says};
ghost use Rattle.told_apart.specs.Apart.{NoList};
ghost use Rattle.accept_book.specs.RecordShown.{AskedLook};
ghost use Rattle.gss_server.specs.Telling.{limits_of};
ghost use Rattle.world_runs.specs.Turning.{AsksBy};

use accept_book::{
    AdmitRefusal, Admitted, EndCause, Entry, Lease, LookRefusal, NegAnswer, Negotiated, OwnSeat,
    Receipt, Receipts,
};
use gss_server::{DataCall, Gate, caller_of_lease};
use posts_program::{Posts, PostsWords};
use rpc_program::{Answerer, Outcome, Program, ProgramId, Unserved};
use rpcsec_bodies::Service;
use sec_base::Moment;
use std::alloc::Global;

/// A book that answers one question of a record: a look that was answered before is answered so again, and a further question is only noted.
#[derive(Drop)]
pub(crate) struct Turn {
    pub book: OwnSeat,
    /// The state of the program that is served.
    pub posts: Posts,
    /// What a look was answered before, as long as it wasn't asked again.
    pub looked: Option<Result<Lease, LookRefusal>>,
    /// Whether the book was asked.
    pub asked: bool,
    /// Whether a further question is due.
    pub further: bool,
}

/// The procedure that no program has.
const NO_PROCEDURE: u32 = 0xffff_ffff;

/// What becomes of an admitted call, whose entry stands at this place of the log.
#[tactic(auto, using(posts_program::proofs::Apart::posts_told))]
fn outcome_of(
    alloc: Global,
    posts: &mut Posts,
    lease: &Lease,
    call: &DataCall<'_>,
    place: u64,
) -> Outcome
    requires has { posts_says.has call.now.procedure ≡ true }
    requires takes { posts_says.takes call.now.procedure call.now.args.now ≡ true }
    requires few { length call.now.args.now ≤ MOST }
    ensures short { IsShort result }
    ensures told { (octets : List ℕ) → result_in call.now.args.now result ≡ Some octets
        → NoList octets }
{
    let caller = caller_of_lease(lease, call.service, place);
    match posts.enter(&caller, call.procedure, call.args) {
        Ok(count) => PostsWords.answer(alloc, &caller, call.procedure, call.args, count),
        Err(_) => Outcome::Refused(Unserved::System),
    }
}

/// No memory, and no entry.
fn no_step() -> Negotiated
    ensures { result.answer ≡ NegAnswer.NoMemory }
{
    let entry = Entry::Ended {
        id: 0,
        cause: EndCause::Refused,
    };
    let none = Receipt { place: 0, entry };
    Negotiated {
        answer: NegAnswer::NoMemory,
        receipts: Receipts {
            count: 0,
            list: [none; 4],
        },
    }
}

impl Turn {
    /// A look that wasn't answered before.
    fn look_first(&mut self, id: u64, now: Moment) -> Result<Lease, LookRefusal>
        ensures limits { limits_of self.new.book.core ≡ limits_of self.old.book.core }
        ensures answers { AsksBy self.old.asked self.old (AskedLook id now result) self.new }
    {
        if self.asked {
            self.further = true;
            return Err(LookRefusal::NoContext);
        }
        self.asked = true;
        self.book.look(id, now)
    }
}

impl Gate for Turn {
    ghost use Rattle.std.specs.Prelude.{false, []};
    ghost use Rattle.gss_server.specs.Telling.{limits_of};
    ghost use Rattle.world_runs.specs.Turning.{TurnAnswers};

    ghost program = { posts_says };

    ghost tells = { λ _. false };

    ghost room = { λ _. 0 };

    ghost told = { λ _. [] };

    ghost limits = { λ turn. limits_of turn.book.core };

    ghost answers = { TurnAnswers };

    fn id(&self) -> ProgramId {
        PostsWords.id()
    }

    fn has(&self, procedure: u32) -> bool {
        PostsWords.has(procedure)
    }

    fn needs(&self, procedure: u32) -> Service {
        PostsWords.needs(procedure)
    }

    fn takes(&self, procedure: u32, args: &[u8]) -> bool {
        PostsWords.takes(procedure, args)
    }

    fn negotiate(
        &mut self,
        alloc: Global,
        id: Option<u64>,
        token: &[u8],
        now: Moment,
        draws: &[u8; 66],
    ) -> Negotiated {
        if self.asked {
            self.further = true;
            return no_step();
        }
        self.asked = true;
        self.book.negotiate(alloc, id, token, now, draws)
    }

    fn look(&mut self, id: u64, now: Moment) -> Result<Lease, LookRefusal> {
        match self.looked.take() {
            Some(answer) => answer,
            None => self.look_first(id, now),
        }
    }

    fn admit(
        &mut self,
        alloc: Global,
        lease: &Lease,
        call: &DataCall<'_>,
    ) -> Result<Admitted, AdmitRefusal> {
        if self.asked {
            self.further = true;
            return Err(AdmitRefusal::Gone);
        }
        self.asked = true;
        match self
            .book
            .admit(lease, call.seq, call.procedure, call.digest)
        {
            Ok(receipt) => {
                let outcome = outcome_of(alloc, &mut self.posts, lease, call, receipt.place);
                Ok(Admitted { receipt, outcome })
            }
            Err(refusal) => Err(refusal),
        }
    }

    fn pass(&mut self, lease: &Lease, call: &DataCall<'_>) -> Result<Receipt, AdmitRefusal> {
        if self.asked {
            self.further = true;
            return Err(AdmitRefusal::Gone);
        }
        self.asked = true;
        self.book.admit(lease, call.seq, NO_PROCEDURE, call.digest)
    }

    fn end(&mut self, lease: &Lease, seq: u32) -> Result<Receipt, AdmitRefusal> {
        if self.asked {
            self.further = true;
            return Err(AdmitRefusal::Gone);
        }
        self.asked = true;
        self.book.end(lease, seq)
    }
}
