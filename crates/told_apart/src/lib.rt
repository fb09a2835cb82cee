//! Arguments and results of a program, told apart from what else is signed by the key of a context.
#![tactic(auto)]

mod laws;

pub use laws::prove_told_apart;
