//! Gates and links over which the rules of a record are met in one thread.
#![tactic(auto)]

mod beginning;
mod gate_answer;
mod list_gate;
mod loop_link;
mod looping;

pub use beginning::Beginning;
pub use gate_answer::{Call, GateAnswer, Step};
pub use list_gate::ListGate;
pub use loop_link::LoopLink;
