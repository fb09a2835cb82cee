//! The server's command: its words, the book that it opens, and the run of its desks.
#![tactic(auto)]

mod server;

pub use server::{ServerEnd, keeping_of, log_limit, run_server};
