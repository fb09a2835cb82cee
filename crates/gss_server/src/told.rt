//! What a gate tells of what it was asked.

use accept_book::{AdmitRefusal, BookRefusal, Lease, LookRefusal, Receipt, Receipts};
use rpcsec_bodies::Service;
use sec_base::Moment;

/// What a step's answer tells: its tokens by their SHA-1.
#[derive(Clone, Copy)]
pub enum StepTold {
    Going { id: u64, token: [u8; 20] },
    Settled { lease: Lease, token: [u8; 20] },
    Refused(BookRefusal),
    NoMemory,
}

/// A question and its answer.
#[derive(Clone, Copy)]
pub enum Told {
    /// To take a token, told by its SHA-1.
    Negotiating {
        id: Option<u64>,
        token: [u8; 20],
        now: Moment,
        draws: [u8; 66],
        answer: StepTold,
        receipts: Receipts,
    },
    /// To show a context.
    Looking {
        id: u64,
        now: Moment,
        answer: Result<Lease, LookRefusal>,
    },
    /// To admit a call, or to take its number alone: its arguments are told by their SHA-1, and of an answer the receipt.
    Admitting {
        lease: Lease,
        seq: u32,
        service: Service,
        procedure: u32,
        args: [u8; 20],
        answer: Result<Receipt, AdmitRefusal>,
    },
    /// To end a context.
    Ending {
        lease: Lease,
        seq: u32,
        answer: Result<Receipt, AdmitRefusal>,
    },
}
