//! Entries of the log, and what tells a caller of them.
use gss_base::{Mark, MechKind};
use sec_base::Moment;
use std::mem::size_of;

/// How a context ended.
#[derive(Clone, Copy)]
pub enum EndCause {
    /// By a call of the peer, which took this number.
    Destroyed { seq: u32 },
    /// By a refused step of its negotiation.
    Refused,
    /// Its end had passed, and its place was needed.
    Lapsed,
}

/// An entry of the log. Every `at` is the greatest moment that was seen by then.
#[derive(Clone, Copy)]
pub enum Entry {
    /// A context was opened.
    Opened {
        id: u64,
        at: Moment,
    },
    /// An authenticator of it was taken.
    Auth {
        id: u64,
        mark: Mark,
        at: Moment,
    },
    /// A later step of its negotiation was taken, and more are due.
    Went {
        id: u64,
        at: Moment,
    },
    /// It is complete, until `ends`; `names` is SHA-1 of the initiator's text, one octet 00, the acceptor's text, one octet 00, the
    /// key's octets, and one octet 01 where the acceptor's subkey is the key, else 00.
    Settled {
        id: u64,
        mech: MechKind,
        names: [u8; 20],
        ends: Moment,
        at: Moment,
    },
    /// A call with this number was admitted; `args` is SHA-1 of its argument octets.
    Call {
        id: u64,
        seq: u32,
        procedure: u32,
        args: [u8; 20],
    },
    /// It ended.
    Ended {
        id: u64,
        cause: EndCause,
    },
}

// A log that keeps 4,000,000 entries takes at most 320 MB.
const _: () = prove!(size_of::<Entry>() <= 80);

/// An entry that a step added, and its place in the log.
#[derive(Clone, Copy)]
pub struct Receipt {
    pub place: u64,
    pub entry: Entry,
}

/// The entries that one step added, oldest first: the first `count` of the list.
#[derive(Clone, Copy)]
pub struct Receipts {
    pub count: u8,
    pub list: [Receipt; 4],
}

/// What a log has in memory of its entries beside the newest four: all of them, and their digest.
#[derive(Clone, Copy)]
pub struct Keeping {
    pub entries: bool,
    pub digest: bool,
}

/// The limits under which an acceptor keeps its contexts, marks and log, the width of its windows, and
/// what its log has in memory.
#[derive(Clone, Copy)]
pub struct Limits {
    pub contexts: usize,
    pub marks: usize,
    pub log: usize,
    pub width: u32,
    pub keeping: Keeping,
}
