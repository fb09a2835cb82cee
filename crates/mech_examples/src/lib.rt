//! Mechanisms of nobody's standard, as objects: each shows that whoever steps objects needs to know nothing of a mechanism.
#![tactic(auto)]

mod shared_key;

pub use shared_key::SharedKeyMech;
