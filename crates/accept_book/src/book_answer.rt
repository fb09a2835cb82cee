//! What a book answers.

ghost use Rattle.std.specs.Prelude.{◌≡◌};
ghost use Rattle.accept_book.specs.Statuses.{book_number};

use accept_core::{Receipt, Receipts};
use rpc_program::Outcome as CallOutcome;
use sec_base::{Moment, Octets};
use spnego_core::{NegRefusal, Outcome};

/// A complete context as a book shows it: what is needed to read its calls, and to ask for their
/// admission.
#[derive(Clone, Copy)]
pub struct Lease {
    pub id: u64,
    pub outcome: Outcome,
    pub ends: Moment,
}

/// Why a token isn't taken, in the order in which it is judged.
#[derive(Clone, Copy, Debug)]
pub enum BookRefusal {
    /// The id isn't opened or is ended.
    NoContext,
    /// The context is complete.
    AlreadyComplete,
    /// Fewer than four places of the log are free.
    LogFull,
    /// A first token, the table at its limit, and no context past its end.
    TableFull,
    /// The end refuses the token. Want of memory is never in it (`prove_book_laws`): that is an answer of its own.
    Neg(NegRefusal),
    /// The time of the request and the greatest moment differ by more than 300 seconds.
    Stale { greatest: Moment },
    /// The request was taken before, with this place in the log.
    Repeat { place: u64 },
    /// As many marks as the limit are held.
    CacheFull,
    /// A journal of authenticators couldn't keep this one. No book gives it (`prove_book_laws`): a journal behind a book does, of a token that
    /// the book took.
    Journal,
}

impl BookRefusal {
    /// The number by which it is told, the minor status of a refused creation.
    pub fn number(self) -> u32
        ensures { result ≡ book_number self }
    {
        match self {
            BookRefusal::NoContext => 0,
            BookRefusal::AlreadyComplete => 25,
            BookRefusal::LogFull => 24,
            BookRefusal::TableFull => 23,
            BookRefusal::Neg(refusal) => refusal.number(),
            BookRefusal::Stale { greatest: _ } => 21,
            BookRefusal::Repeat { place: _ } => 20,
            BookRefusal::CacheFull => 22,
            BookRefusal::Journal => 27,
        }
    }
}

/// What a token comes to.
#[derive(Drop)]
pub enum NegAnswer {
    /// The token is for the initiator, and another of its tokens is due.
    Going { id: u64, token: Octets },
    /// The context is complete; the token is for the initiator.
    Settled { lease: Lease, token: Octets },
    Refused(BookRefusal),
    /// No memory was to be had.
    NoMemory,
}

/// What a server's state answers to an admitted call: its entry's receipt, and what became of it.
#[derive(Drop)]
pub struct Admitted {
    pub receipt: Receipt,
    pub outcome: CallOutcome,
}

/// An answer, and the entries that its step added.
#[derive(Drop)]
pub struct Negotiated {
    pub answer: NegAnswer,
    pub receipts: Receipts,
}
