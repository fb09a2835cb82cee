//! The answer to one record.

ghost use Rattle.std.specs.Prelude.{◌≡◌};
ghost use Rattle.gss_server.specs.Answers.{Fits};

use accept_book::{AdmitRefusal, Admitted, Lease, LookRefusal, Negotiated, Receipt};
use sec_base::{Moment, Octets};

/// What is kept of the answer to a record: the moment and the draws, and what the gate answered, where it was asked.
#[derive(Drop)]
pub struct Kept {
    /// The moment at which the record was answered.
    pub now: Moment,
    /// The octets that were drawn for its answer.
    pub draws: [u8; 82],
    pub negotiated: Option<Negotiated>,
    pub looked: Option<Result<Lease, LookRefusal>>,
    pub admitted: Option<Result<Admitted, AdmitRefusal>>,
    pub ended: Option<Result<Receipt, AdmitRefusal>>,
}

/// What goes back to the peer.
#[derive(Drop)]
pub enum Reply {
    /// Nothing.
    Silent,
    /// These octets, as one record.
    Bytes(Octets),
    /// Nothing, and the connection ends: what became of the call isn't known.
    Gone,
    /// There was no memory for the answer.
    NoMemory,
}

/// The answer to a record.
#[derive(Drop)]
pub struct Answered {
    /// The number of the rule by which it is answered; 0 where there was no memory for the answer.
    pub rule: u8,
    pub kept: Kept,
    pub reply: Reply,
}
