//! That a call which is sent again acts once.
#![tactic(auto)]

mod laws;

pub use laws::{prove_acts_once, prove_below, prove_sole};
