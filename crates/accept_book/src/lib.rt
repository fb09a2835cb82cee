//! The state that an acceptor's threads share, a book of contexts that negotiate, and the rule of a record over it.
#![tactic(auto)]

mod book;
mod book_answer;
pub mod laws;
mod own_seat;
mod rule;

pub use accept_core::{
    AdmitRefusal, EndCause, Entry, Keeping, Limits, Log, LookRefusal, Receipt, Receipts,
};
pub use book::{Book, names_of, step_first};
pub use book_answer::{Admitted, BookRefusal, Lease, NegAnswer, Negotiated};
pub use own_seat::OwnSeat;
pub use rule::Rule;
