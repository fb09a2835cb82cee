//! An honest call that comes first is done: from a lane of the world that has nothing in hand, and by the history of a running server.
#![tactic(auto)]

mod laws;

pub use laws::{prove_arrival_in_hand, prove_first_arrival, prove_seen_arrival};
