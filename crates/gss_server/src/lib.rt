//! The server: the rules of a record, and connections over the state that is shared.
#![tactic(auto)]

mod answer;
mod answering;
mod asks;
mod book_gate;
mod calling;
mod connection;
mod creating;
mod foresight;
mod gate;
mod heard;
mod keeper;
mod looking;
mod opening;
mod plain;
mod results;
mod saying;
mod statuses;
mod told;

pub use answer::{Answered, Kept, Reply};
pub use answering::{answer_record, answer_record_by};
pub use book_gate::{OwnGate, caller_of_lease, spell_entered};
pub use connection::{ConnEnd, Served, answer_and_keep, serve_link};
pub use gate::{DataCall, Gate};
pub use keeper::{KeepAll, KeepNothing, KeepReceipts, Keeper};
pub use told::{StepTold, Told};
