//! A book with what its ends are begun with, for one owner.
ghost use Rattle.std.specs.Prelude.{◌≡◌, [], ◌<◌, ◌≤◌, IfOk, reverse};
ghost use Rattle.accept_core.specs.Logs.{greatest_log};
ghost use Rattle.accept_core.specs.Legal.{Legal};
ghost use Rattle.accept_core.specs.Replays.{Replays};
ghost use Rattle.accept_book.specs.Booking.{by_outcome, token_size, with_setup};

use crate::book::Book;
use crate::book_answer::{Lease, Negotiated};
use accept_core::{AdmitRefusal, Limits, Log, LookRefusal, Receipt};
use sec_base::{Moment, NoMemory};
use spnego_core::AcceptSetup;
use std::alloc::Global;
use std::marker::Model;

/// A book with what its ends are begun with, for one owner, who has no need to step a first token
/// before the book is asked.
///
/// Contracts see a `BookOf`: the setup, and the contexts, marks and log.
#[derive(Drop)]
pub struct OwnSeat {
    setup: AcceptSetup,
    book: Book,
}

impl Model for OwnSeat {
    ghost use Rattle.accept_book.specs.Booking.{BookOf};

    ghost Value = { BookOf };

    ghost view = { λ seat. record { setup = seat.setup; core = seat.book } };
}

impl OwnSeat {
    ghost use Rattle.accept_book.specs.BookAnswers.{BookStepped, BookLooked, BookAdmitted};
    ghost use Rattle.accept_book.specs.BookAnswers.{BookEnded};

    /// A book without contexts, which has seen the moment `start`. It takes the memory of table,
    /// cache and log here.
    pub fn open(
        alloc: Global,
        setup: AcceptSetup,
        limits: Limits,
        start: Moment,
    ) -> Result<OwnSeat, NoMemory>
        requires contexts { limits.contexts ≤ 65536 }
        requires some_mark { 0 < limits.marks }
        requires marks { limits.marks ≤ 1000000 }
        requires entries { limits.log ≤ greatest_log }
        requires some_width { 0 < limits.width }
        requires width { limits.width ≤ 1024 }
        ensures setup { IfOk result (λ book. book.setup ≡ setup) }
        ensures history { IfOk result (λ book. book.core.history ≡ []) }
        ensures limit { IfOk result (λ book. book.core.limit ≡ limits.log) }
        ensures width { IfOk result (λ book. book.core.width ≡ limits.width) }
        ensures keeping { IfOk result (λ book. book.core.keeping ≡ limits.keeping) }
        ensures contexts { IfOk result (λ book. book.core.table.limit ≡ limits.contexts) }
        ensures empty { IfOk result (λ book. book.core.table.slots ≡ []) }
        ensures marks { IfOk result (λ book. book.core.cache.capacity ≡ limits.marks) }
        ensures greatest { IfOk result (λ book. book.core.cache.greatest ≡ start) }
    {
        match Book::open(alloc, limits, start) {
            Ok(book) => Ok(OwnSeat { setup, book }),
            Err(error) => {
                drop(setup);
                Err(error)
            }
        }
    }

    /// What its ends are begun with.
    pub fn setup(&self) -> &AcceptSetup
        ensures { result.now ≡ self.now.setup }
    {
        &self.setup
    }

    /// Takes a token: the first of a context if no id is given, else a later one of that id's
    /// context. A first token that is refused, or meets want of memory, leaves all but the greatest
    /// moment as it was; a later one ends its own context.
    pub fn negotiate(
        &mut self,
        alloc: Global,
        id: Option<u64>,
        token: &[u8],
        now: Moment,
        draws: &[u8; 66],
    ) -> Negotiated
        ensures size { token_size result.answer ≤ 65536 }
        ensures stepped { BookStepped self.old self.new id token.now now draws.now result }
    {
        self.book
            .negotiate(alloc, &self.setup, id, token, now, draws)
    }

    /// Takes note of a moment, and gives the lease of a complete context.
    pub fn look(&mut self, id: u64, now: Moment) -> Result<Lease, LookRefusal>
        ensures looked { BookLooked self.old self.new id now result }
    {
        self.book.look(id, now)
    }

    /// Admits a call of a lease's context with a number that is fresh. Gone is where no complete
    /// context has the id and the key.
    pub fn admit(
        &mut self,
        lease: &Lease,
        seq: u32,
        procedure: u32,
        args: [u8; 20],
    ) -> Result<Receipt, AdmitRefusal>
        ensures admitted { BookAdmitted self.old self.new lease.now seq procedure args result }
    {
        self.book.admit(lease, seq, procedure, args)
    }

    /// Ends a lease's context by a call with a number that is fresh.
    pub fn end(&mut self, lease: &Lease, seq: u32) -> Result<Receipt, AdmitRefusal>
        ensures ended { BookEnded self.old self.new lease.now seq result }
    {
        self.book.end(lease, seq)
    }

    /// The log. It is legal, and the table and the cache are what it says.
    pub fn log(&self) -> &Log
        ensures entries { reverse result.now.entries ≡ self.now.core.history }
        ensures width { result.now.width ≡ self.now.core.width }
        ensures limit { result.now.limit ≡ self.now.core.limit }
        ensures keeping { result.now.keeping ≡ self.now.core.keeping }
        ensures contexts { result.now.contexts ≡ self.now.core.table.limit }
        ensures marks { result.now.marks ≡ self.now.core.cache.capacity }
        ensures legal { Legal self.now.core.width self.now.core.history }
        ensures replays { Replays by_outcome self.now.core.width self.now.core.history
            self.now.core.table self.now.core.cache }
    {
        self.book.log()
    }

    /// The log, for good.
    pub fn into_log(self) -> Log
        ensures entries { reverse result.entries ≡ self.core.history }
        ensures width { result.width ≡ self.core.width }
        ensures limit { result.limit ≡ self.core.limit }
        ensures keeping { result.keeping ≡ self.core.keeping }
        ensures contexts { result.contexts ≡ self.core.table.limit }
        ensures marks { result.marks ≡ self.core.cache.capacity }
        ensures legal { Legal self.core.width self.core.history }
    {
        let OwnSeat { setup, book } = self;
        drop(setup);
        book.into_log()
    }

    /// What its ends are begun with, and the book.
    pub fn into_parts(self) -> (AcceptSetup, Book)
        ensures { self ≡ with_setup result.0 result.1 }
    {
        let OwnSeat { setup, book } = self;
        (setup, book)
    }
}
