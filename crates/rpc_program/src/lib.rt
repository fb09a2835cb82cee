//! A program of ONC RPC that is served (RFC 5531 section 8), and who spells its results.
#![tactic(auto)]

pub mod limits;
mod outcome;
mod program;
mod spelled;

pub use outcome::{Outcome, Unserved};
pub use program::{Caller, Fault, Program, ProgramId, Speller};
pub use spelled::{Answerer, Spelled};
