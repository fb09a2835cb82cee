//! What an accept that gave no connection is followed by (accept(2)).

use std::io;
use std::time::Duration;

/// How many times in a row a connection that failed before it was taken is followed by a further accept.
pub(crate) const PASSING_TRIES: u32 = 1000;

/// How many times in a row want of descriptors or memory is followed by a further accept: with the pauses, half an hour.
pub(crate) const SCARCE_TRIES: u32 = 3600;

/// How many milliseconds lie before an accept that follows want of descriptors or memory.
const PAUSE: u64 = 500;

/// Linux's numbers of errors (errno(3)).
const EPERM: i32 = 1;

const ENOMEM: i32 = 12;

const ENFILE: i32 = 23;

const EMFILE: i32 = 24;

const ENONET: i32 = 64;

const EPROTO: i32 = 71;

const ENOPROTOOPT: i32 = 92;

const EOPNOTSUPP: i32 = 95;

const ENETDOWN: i32 = 100;

const ENETUNREACH: i32 = 101;

const ECONNABORTED: i32 = 103;

const ECONNRESET: i32 = 104;

const ENOBUFS: i32 = 105;

const ETIMEDOUT: i32 = 110;

const EHOSTDOWN: i32 = 112;

const EHOSTUNREACH: i32 = 113;

/// What is wrong with one connection: it was gone before it was taken, its network failed, or a filter refused it.
const PASSING: [i32; 12] = [
    EPERM,
    ENONET,
    EPROTO,
    ENOPROTOOPT,
    EOPNOTSUPP,
    ENETDOWN,
    ENETUNREACH,
    ECONNABORTED,
    ECONNRESET,
    ETIMEDOUT,
    EHOSTDOWN,
    EHOSTUNREACH,
];

/// What the process or the system wants: descriptors or memory.
const SCARCE: [i32; 4] = [ENOMEM, ENFILE, EMFILE, ENOBUFS];

/// What an error of accept means for the next one.
#[derive(Clone, Copy)]
pub(crate) enum Setback {
    /// One connection failed, and the next may come.
    Passing,
    /// There are no descriptors or no memory for one now.
    Scarce,
    /// No further connection will come.
    Lasting,
}

/// What this error of accept means for the next one.
pub(crate) fn setback_of(error: &io::Error) -> Setback {
    match error.raw_os_error() {
        Some(code) if PASSING.contains(&code) => Setback::Passing,
        Some(code) if SCARCE.contains(&code) => Setback::Scarce,
        _ => Setback::Lasting,
    }
}

/// The pause before an accept that follows want of descriptors or memory.
pub(crate) fn pause() -> Duration {
    Duration::from_millis(PAUSE)
}
