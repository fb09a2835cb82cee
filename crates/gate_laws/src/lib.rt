//! What a gate answers is what the log before it says, whoever asks it.
#![tactic(auto)]

mod laws;

pub use laws::{prove_own_seen, prove_seats_see};
