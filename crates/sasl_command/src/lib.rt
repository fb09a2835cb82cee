//! The run of the program that speaks SASL: a server that echoes, and a client that asks one.
#![tactic(auto)]

mod asking;
mod ending;
mod parting;
mod printing;
mod run;
mod serving;

pub use parting::end_link;
pub use run::{SaslEnd, blank_mechs, run_sasl};
