//! The initiator's end of a negotiation (SPNEGO, RFC 4178) over mechanisms that are handed in as objects.
#![tactic(auto)]

mod arming;
mod ends;
mod laws;
mod lists;
mod reply;
mod start;
mod step;

pub use arming::{armed_list, armed_with, standard_mechs};
pub use ends::{InitEnd, InitSetup, InitStep};
pub use laws::{prove_end_laws, prove_plain_law};
