//! A run of the client's program against an honest server is complete.
#![tactic(auto)]

mod run;

pub use run::complete_run;
