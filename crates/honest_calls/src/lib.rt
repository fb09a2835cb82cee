//! What an honest call is answered, as a law of every lease.
#![tactic(auto)]

mod laws;

pub use laws::prove_honest_calls;
