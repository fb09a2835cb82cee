//! The command over datagrams: its words, and the run of a server or of a client by them.
#![tactic(auto)]

mod command;

pub use command::{DatagramEnd, run_datagrams};
