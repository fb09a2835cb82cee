//! A book, the program beside it and the writer of their history, which lie behind the lock.
ghost use Rattle.std.specs.Prelude.{◌≡◌, ◌≤◌, [], true, None, Some};
ghost use Rattle.accept_book.specs.Booking.{token_size, with_setup};
ghost use Rattle.accept_book.specs.FirstSteps.{IsFirstStep};
ghost use Rattle.accept_book.specs.RecordShown.{AskedStep, AskedLook, AskedAdmit, AskedEnd};
ghost use Rattle.gss_server.specs.Programs.{EntersTaken};
ghost use Rattle.gss_server.specs.Telling.{limits_of};
ghost use Rattle.rpc_program.specs.Programs.{NONE};
ghost use Rattle.book_seats.specs.Admitting.{entered_in, passed_in, EntersAdmitted};
ghost use Rattle.book_seats.specs.Histories.{AnsweredBy, EndedOnce, NotesOne};

use crate::board::{Begins, Entry, Room};
use crate::hall::{Clerk, Hall, Writer};
use accept_book::{AdmitRefusal, Book, Lease, LookRefusal, Negotiated, Receipt};
use gss_server::DataCall;
use rpc_program::{Caller, Fault, Program};
use sec_base::Moment;
use spnego_core::{AcceptSetup, AcceptStep, NegRefusal};
use std::alloc::Global;
use std::marker::{Brand, Model};

/// The procedure of a number that is taken for no call: no program has it.
const NO_PROCEDURE: u32 = 0xffff_ffff;

/// What an admission comes to behind the lock: its entry's receipt, and the ticket or the fault that entering the call gave; or why its number
/// isn't taken.
pub type Admission<T> = Result<(Receipt, Result<T, Fault>), AdmitRefusal>;

/// A book with the program that its admitted calls are entered into, and with the writer of their history: both began as the room says, and since
/// then they answered what stands in the history, and nothing else. The book's log is legal.
#[derive(Drop)]
pub struct Shared<P: Program<Ticket = T>, T, J: Room + Begins<P>> {
    book: Book,
    program: P,
    writer: Writer<T, J>,
}

impl<P: Program<Ticket = T>, T, J: Room + Begins<P>> Model for Shared<P, T, J> {
    ghost use Rattle.std.specs.Prelude.{◌≡◌};
    ghost use Rattle.accept_book.specs.Booking.{with_setup};
    ghost use Rattle.gss_server.specs.Telling.{limits_of};
    ghost use Rattle.book_seats.specs.Histories.{SharedOf, Begun};

    ghost Value = { SharedOf P T };

    ghost view = { λ s. record {
      both = record { book = with_setup J.setup s.book; program = s.program };
      made = s.writer.made;
      all = s.writer.all;
    } };

    ghost invariant = { λ s. Begun P.Program J.begins s.writer.all
        record { book = with_setup J.setup s.book; program = s.program }
        × (s.writer.made ≡ J.desks) × (limits_of s.book ≡ J.limits) };
}

/// Notes a step and its answer.
fn note_step<T, J: Room, E: Entry<T>>(
    writer: &mut Writer<T, J>,
    hall: &Hall<T, J>,
    clerk: &mut Clerk<T, J>,
    id: Option<u64>,
    token: &[u8],
    now: Moment,
    draws: &[u8; 66],
    answer: &Negotiated,
)
    requires { E.entry ≡ AskedStep id token.now now draws.now answer.now }
    ensures { NotesOne writer.old clerk.old (AskedStep id token.now now draws.now answer.now)
        writer.new clerk.new }
{
    writer.note::<E>(hall, clerk);
}

/// Notes a look and its answer.
fn note_look<T, J: Room, E: Entry<T>>(
    writer: &mut Writer<T, J>,
    hall: &Hall<T, J>,
    clerk: &mut Clerk<T, J>,
    id: u64,
    now: Moment,
    answer: &Result<Lease, LookRefusal>,
)
    requires { E.entry ≡ AskedLook id now answer.now }
    ensures { NotesOne writer.old clerk.old (AskedLook id now answer.now) writer.new clerk.new }
{
    writer.note::<E>(hall, clerk);
}

/// Notes an admission, and what came of it.
fn note_admit<T, J: Room, E: Entry<T>>(
    writer: &mut Writer<T, J>,
    hall: &Hall<T, J>,
    clerk: &mut Clerk<T, J>,
    lease: &Lease,
    call: &DataCall<'_>,
    answer: &Admission<T>,
)
    requires { E.entry ≡ AskedAdmit lease.now call.now.seq call.now.service call.now.procedure
        call.now.args.now (entered_in answer.now) }
    ensures { NotesOne writer.old clerk.old (AskedAdmit lease.now call.now.seq call.now.service
        call.now.procedure call.now.args.now (entered_in answer.now)) writer.new clerk.new }
{
    writer.note::<E>(hall, clerk);
}

/// Notes that a number was to be taken for no call, and the answer.
fn note_pass<T, J: Room, E: Entry<T>>(
    writer: &mut Writer<T, J>,
    hall: &Hall<T, J>,
    clerk: &mut Clerk<T, J>,
    lease: &Lease,
    call: &DataCall<'_>,
    answer: &Result<Receipt, AdmitRefusal>,
)
    requires { E.entry ≡ AskedAdmit lease.now call.now.seq call.now.service NONE
        call.now.args.now (passed_in answer.now) }
    ensures { NotesOne writer.old clerk.old (AskedAdmit lease.now call.now.seq call.now.service
        NONE call.now.args.now (passed_in answer.now)) writer.new clerk.new }
{
    writer.note::<E>(hall, clerk);
}

/// Notes an end and its answer.
fn note_end<T, J: Room, E: Entry<T>>(
    writer: &mut Writer<T, J>,
    hall: &Hall<T, J>,
    clerk: &mut Clerk<T, J>,
    lease: &Lease,
    seq: u32,
    answer: &Result<Receipt, AdmitRefusal>,
)
    requires { E.entry ≡ AskedEnd lease.now seq answer.now }
    ensures { NotesOne writer.old clerk.old (AskedEnd lease.now seq answer.now) writer.new
        clerk.new }
{
    writer.note::<E>(hall, clerk);
}

/// Has the program enter a call whose number was taken.
fn enter_taken<P: Program>(
    program: &mut P,
    lease: &Lease,
    call: &DataCall<'_>,
    taken: Result<Receipt, AdmitRefusal>,
) -> Admission<P::Ticket>
    requires has { P.says.has call.now.procedure ≡ true }
    requires takes { P.says.takes call.now.procedure call.now.args.now ≡ true }
    ensures taken { EntersAdmitted taken result }
    ensures entered { EntersTaken P.says P.enters program.old lease.now call.now.service
        call.now.procedure call.now.args.now (entered_in result) program.new }
{
    match taken {
        Ok(receipt) => {
            let caller = Caller {
                name: lease.outcome.initiator.octets(),
                mech: lease.outcome.mech,
                service: call.service,
                place: receipt.place,
            };
            Ok((receipt, program.enter(&caller, call.procedure, call.args)))
        }
        Err(refusal) => Err(refusal),
    }
}

impl<P: Program<Ticket = T>, T, J: Room + Begins<P>> Shared<P, T, J> {
    /// A book and a program as the room says that they begin, and the writer, who has made the clerks of the desks and noted nothing.
    pub fn new(book: Book, program: P, writer: Writer<T, J>) -> Shared<P, T, J>
        requires both { J.begins record { book = with_setup J.setup book; program = program } }
        requires limits { limits_of book ≡ J.limits }
        requires writer { writer ≡ record { made = J.desks; all = [] } }
    {
        let _ = book.log();
        Shared {
            book,
            program,
            writer,
        }
    }

    /// The book, the program and the writer. The log gained the calls whose number was taken, and the program entered each of them once, in the
    /// log's order.
    pub fn into_parts(self) -> (Book, P, Writer<T, J>)
        ensures ended { EndedOnce P.Program J.begins result.2.all
            record { book = with_setup J.setup result.0; program = result.1 } }
        ensures desks { result.2.made ≡ J.desks }
        ensures limits { limits_of result.0 ≡ J.limits }
    {
        let Shared {
            book,
            program,
            writer,
        } = self;
        (book, program, writer)
    }

    /// Has the book take what a new end made of a first token, and notes it.
    pub(crate) fn first(
        &mut self,
        hall: &Hall<T, J>,
        clerk: &mut Clerk<T, J>,
        stepped: Result<AcceptStep, NegRefusal>,
        token: &[u8],
        now: Moment,
        draws: &[u8; 66],
    ) -> Negotiated
        requires { IsFirstStep J.setup token.now now draws.now stepped }
        ensures size { token_size result.answer ≤ 65536 }
        ensures answered { AnsweredBy P.Program J.begins clerk.old
            (AskedStep None token.now now draws.now result) clerk.new }
    {
        let Shared {
            book,
            program: _,
            writer,
        } = self;
        let answer = book.first(stepped, now);
        let _ = book.log();
        note_step::<T, J, Brand>(writer, hall, clerk, None, token, now, draws, &answer);
        answer
    }

    /// Has the book take a later token, and notes it.
    pub(crate) fn later(
        &mut self,
        hall: &Hall<T, J>,
        clerk: &mut Clerk<T, J>,
        alloc: Global,
        setup: &AcceptSetup,
        id: u64,
        token: &[u8],
        now: Moment,
        draws: &[u8; 66],
    ) -> Negotiated
        requires { setup.now ≡ J.setup }
        ensures size { token_size result.answer ≤ 65536 }
        ensures answered { AnsweredBy P.Program J.begins clerk.old
            (AskedStep (Some id) token.now now draws.now result) clerk.new }
    {
        let Shared {
            book,
            program: _,
            writer,
        } = self;
        let id = Some(id);
        let answer = book.negotiate(alloc, setup, id, token, now, draws);
        let _ = book.log();
        note_step::<T, J, Brand>(writer, hall, clerk, id, token, now, draws, &answer);
        answer
    }

    /// Has the book show a context, and notes it.
    pub(crate) fn look(
        &mut self,
        hall: &Hall<T, J>,
        clerk: &mut Clerk<T, J>,
        id: u64,
        now: Moment,
    ) -> Result<Lease, LookRefusal>
        ensures { AnsweredBy P.Program J.begins clerk.old (AskedLook id now result) clerk.new }
    {
        let Shared {
            book,
            program: _,
            writer,
        } = self;
        let answer = book.look(id, now);
        let _ = book.log();
        note_look::<T, J, Brand>(writer, hall, clerk, id, now, &answer);
        answer
    }

    /// Has the book take a call's number and, where it does, the program enter the call; and notes what came of it.
    pub(crate) fn admit(
        &mut self,
        hall: &Hall<T, J>,
        clerk: &mut Clerk<T, J>,
        lease: &Lease,
        call: &DataCall<'_>,
    ) -> Admission<T>
        requires has { P.says.has call.now.procedure ≡ true }
        requires takes { P.says.takes call.now.procedure call.now.args.now ≡ true }
        ensures { AnsweredBy P.Program J.begins clerk.old (AskedAdmit lease.now call.now.seq
            call.now.service call.now.procedure call.now.args.now (entered_in result)) clerk.new }
    {
        let Shared {
            book,
            program,
            writer,
        } = self;
        let taken = book.admit(lease, call.seq, call.procedure, call.digest);
        let _ = book.log();
        let answer = enter_taken(program, lease, call, taken);
        note_admit::<T, J, Brand>(writer, hall, clerk, lease, call, &answer);
        answer
    }

    /// Has the book take a call's number as that of a procedure that no program has, and notes it. The program enters nothing.
    pub(crate) fn pass(
        &mut self,
        hall: &Hall<T, J>,
        clerk: &mut Clerk<T, J>,
        lease: &Lease,
        call: &DataCall<'_>,
    ) -> Result<Receipt, AdmitRefusal>
        ensures { AnsweredBy P.Program J.begins clerk.old (AskedAdmit lease.now call.now.seq
            call.now.service NONE call.now.args.now (passed_in result)) clerk.new }
    {
        let Shared {
            book,
            program: _,
            writer,
        } = self;
        let answer = book.admit(lease, call.seq, NO_PROCEDURE, call.digest);
        let _ = book.log();
        note_pass::<T, J, Brand>(writer, hall, clerk, lease, call, &answer);
        answer
    }

    /// Has the book end a context, and notes it.
    pub(crate) fn end(
        &mut self,
        hall: &Hall<T, J>,
        clerk: &mut Clerk<T, J>,
        lease: &Lease,
        seq: u32,
    ) -> Result<Receipt, AdmitRefusal>
        ensures { AnsweredBy P.Program J.begins clerk.old (AskedEnd lease.now seq result)
            clerk.new }
    {
        let Shared {
            book,
            program: _,
            writer,
        } = self;
        let answer = book.end(lease, seq);
        let _ = book.log();
        note_end::<T, J, Brand>(writer, hall, clerk, lease, seq, &answer);
        answer
    }
}
