//! What may happen in a world, and what comes of it.

use sec_base::{Moment, Octets};
use spnego_core::Outcome;

/// What may happen. Initiators and lanes are counted from 0.
#[derive(Drop)]
pub enum WorldEvent {
    /// An initiator that wasn't started sends its first creation call.
    Start {
        initiator: usize,
    },
    /// These octets come to an initiator as the reply to its creation call. If its context stands then, its first call has this number.
    Deliver {
        initiator: usize,
        bytes: Octets,
        first: u32,
    },
    /// A lane goes on with the record that it has in hand; one without takes these octets as its record, with this moment and these draws.
    Lane {
        lane: usize,
        bytes: Octets,
        now: Moment,
        draws: [u8; 82],
    },
    /// An initiator whose context stands makes its next call, of a procedure of the program that is served, with arguments that it takes.
    CallBy {
        initiator: usize,
        procedure: u32,
        args: Octets,
    },
}

/// What came of an event.
#[derive(Drop)]
pub enum Happened {
    /// A record was handed out: of a call, or of a reply.
    Sent(Octets),
    /// The initiator's context stands.
    Completed(Outcome),
    /// The lane's record has no reply by the rule of this number; 0 where a question to the book is still due.
    Stepped(u8),
    /// The initiator refused, and has ended.
    Refused,
    /// There was nothing to be done.
    Nothing,
}
