//! The shared state, as the server asks it.

ghost use Rattle.std.specs.Prelude.{◌≡◌};
ghost use Rattle.sha1.specs.Sha1.{sha1};

use accept_book::{AdmitRefusal, Admitted, Lease, LookRefusal, Negotiated, Receipt};
use rpc_program::ProgramId;
use rpcsec_bodies::Service;
use sec_base::Moment;
use std::alloc::Global;

/// A data call, as it asks for its admission.
#[derive(Clone, Copy)]
pub struct DataCall<'a> {
    /// Its number in the context.
    pub seq: u32,
    pub service: Service,
    pub procedure: u32,
    /// The octets of its arguments.
    pub args: &'a [u8],
    /// Their SHA-1.
    pub digest: [u8; 20],
    ghost same: { digest ≡ sha1 args.now },
}

/// What the server asks of the state that its threads share.
///
/// A gate may tell what it was asked, each question with its answer, as long as it has room. `room`
/// says how many more it can tell. `limits` are those under which the state is kept; no question
/// changes them. `answers` is what the state may answer to a question, from what it was before to
/// what it is then. `program` is what the program that is served says of itself.
pub trait Gate {
    ghost use Rattle.std.specs.Prelude.{◌≡◌, ◌≤◌, Bool, true, false, List, ℕ, IfOk, length};
    ghost use Rattle.accept_book.specs.RecordShown.{Asked, AskedStep, AskedLook, AskedAdmit};
    ghost use Rattle.accept_book.specs.RecordShown.{AskedEnd};
    ghost use Rattle.accept_book.specs.Booking.{token_size};
    ghost use Rattle.accept_book.specs.declared.book_answer.Admitted.{Admitted as AdmittedIs};
    ghost use Rattle.accept_core.specs.declared.entry.Limits.{Limits};
    ghost use Rattle.rpc_program.specs.Programs.{IsShort, NONE, ProgramSays};
    ghost use Rattle.rpc_program.specs.declared.limits.TheConstants.{MOST};
    ghost use Rattle.gss_server.specs.Programs.{passed};
    ghost use Rattle.gss_server.specs.Telling.{Tells};
    ghost use Rattle.gss_server.specs.declared.told.Told.{Told};

    ghost program: { ProgramSays };

    ghost tells: { Self → Bool };

    ghost room: { Self → ℕ };

    ghost told: { Self → List Told };

    ghost limits: { Self → Limits };

    ghost answers: { Self → Asked AdmittedIs → Self → Type 0 };

    /// Which program is served.
    fn id(&self) -> ProgramId
        ensures { result ≡ program.id };

    /// Whether the program has a procedure; none has the last number there is.
    fn has(&self, procedure: u32) -> bool
        ensures value { result ≡ program.has procedure }
        ensures none { procedure ≡ NONE → result ≡ false };

    /// The least service by which a procedure is called.
    fn needs(&self, procedure: u32) -> Service
        ensures { result ≡ program.needs procedure };

    /// Whether octets are a procedure's arguments.
    fn takes(&self, procedure: u32, args: &[u8]) -> bool
        ensures value { result ≡ program.takes procedure args.now }
        ensures size { result ≡ true → length args.now ≤ MOST };

    /// Takes a token, a first one where no id is given.
    fn negotiate(
        &mut self,
        alloc: Global,
        id: Option<u64>,
        token: &[u8],
        now: Moment,
        draws: &[u8; 66],
    ) -> Negotiated
        ensures size { token_size result.answer ≤ 65536 }
        ensures tells { tells self.new ≡ tells self.old }
        ensures limits { limits self.new ≡ limits self.old }
        ensures told { Tells tells room told self.old self.new
            (AskedStep id token.now now draws.now result) }
        ensures answers { answers self.old (AskedStep id token.now now draws.now result) self.new };

    /// Shows a complete context.
    fn look(&mut self, id: u64, now: Moment) -> Result<Lease, LookRefusal>
        ensures tells { tells self.new ≡ tells self.old }
        ensures limits { limits self.new ≡ limits self.old }
        ensures told { Tells tells room told self.old self.new (AskedLook id now result) }
        ensures answers { answers self.old (AskedLook id now result) self.new };

    /// Takes the number of a call, has it done, and tells what became of it.
    fn admit(
        &mut self,
        alloc: Global,
        lease: &Lease,
        call: &DataCall<'_>,
    ) -> Result<Admitted, AdmitRefusal>
        requires has { program.has call.now.procedure ≡ true }
        requires takes { program.takes call.now.procedure call.now.args.now ≡ true }
        requires few { length call.now.args.now ≤ MOST }
        ensures short { IfOk result (λ admitted. IsShort admitted.outcome) }
        ensures tells { tells self.new ≡ tells self.old }
        ensures limits { limits self.new ≡ limits self.old }
        ensures told { Tells tells room told self.old self.new (AskedAdmit lease.now call.now.seq
            call.now.service call.now.procedure call.now.args.now result) }
        ensures answers { answers self.old (AskedAdmit lease.now call.now.seq call.now.service
            call.now.procedure call.now.args.now result) self.new };

    /// Takes the number of a call, and has nothing done: it is asked for as a call of a procedure that no program
    /// has.
    fn pass(&mut self, lease: &Lease, call: &DataCall<'_>) -> Result<Receipt, AdmitRefusal>
        ensures tells { tells self.new ≡ tells self.old }
        ensures limits { limits self.new ≡ limits self.old }
        ensures told { Tells tells room told self.old self.new (AskedAdmit lease.now call.now.seq
            call.now.service NONE call.now.args.now (passed result)) }
        ensures answers { answers self.old (AskedAdmit lease.now call.now.seq call.now.service NONE
            call.now.args.now (passed result)) self.new };

    /// Takes the number of a call that ends its context.
    fn end(&mut self, lease: &Lease, seq: u32) -> Result<Receipt, AdmitRefusal>
        ensures tells { tells self.new ≡ tells self.old }
        ensures limits { limits self.new ≡ limits self.old }
        ensures told { Tells tells room told self.old self.new (AskedEnd lease.now seq result) }
        ensures answers { answers self.old (AskedEnd lease.now seq result) self.new };
}
