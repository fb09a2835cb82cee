//! The words that name a mechanism.
#![tactic(auto)]

mod names;

pub use names::mech_named;
