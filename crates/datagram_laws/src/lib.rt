//! That a reply over datagrams has the result by the posts of the one call that acted for it.
#![tactic(auto)]

mod laws;

pub use laws::{prove_done, prove_made, prove_replies, prove_sends};
