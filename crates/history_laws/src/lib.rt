//! That each answer of a book is what the log before it says.
#![tactic(auto)]

mod history;

pub use history::{
    histories_by_hand, prove_full_of_one, prove_history, prove_receipts, prove_says,
};
