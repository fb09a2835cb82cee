//! The run of a server over datagrams: its keys, its book behind a gate where a call that is sent again acts once, and its end.
#![tactic(auto)]

mod counting;
mod serving;

pub use serving::{ServeRun, run_serve};
