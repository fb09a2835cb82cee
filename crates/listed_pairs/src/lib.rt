//! Honest pairs whose initiator's list begins with either identifier of Kerberos, and the identifier by which a reply names what was chosen.
#![tactic(auto)]

mod laws;

pub use laws::{prove_listed, prove_named_pairs};
