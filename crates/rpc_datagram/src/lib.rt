//! A server over datagrams, where a call that is sent again acts once.
#![tactic(auto)]

mod serving;

pub use serving::{ServeEnd, serve};
