//! The plain state that an acceptor's threads share, over any kind of context: those that live, the authenticators that were taken, and the log.
//!
//! The log has each authenticator and each number of a context at most once, and every step keeps that.
#![tactic(auto)]

mod acceptance;
mod answer;
mod chain;
mod entry;
mod erased;
pub mod laws;
mod log;
mod named;

pub use acceptance::Core;
pub use answer::{AdmitRefusal, Entered, LookRefusal, MarkRefusal, Next, RoomRefusal, TakeRefusal};
pub use entry::{EndCause, Entry, Keeping, Limits, Receipt, Receipts};
pub use log::{Log, blank};
pub use named::Named;
