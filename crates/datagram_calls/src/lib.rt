//! The run of a client over datagrams: the credentials of its mechanisms, its session, whose calls are sent again until they are answered,
//! and its end.
#![tactic(auto)]

mod credentials;
mod running;
mod speaking;

pub use running::{CallRun, run_call};
