//! That the premises of the laws are met by runs of many initiators and many contexts.
#![tactic(auto)]

mod laws;

pub use laws::{prove_fresh_by_lists, prove_met_by_many};
