//! A gate that has a journal keep each authenticator, behind a lock, before the answer that shows it taken is handed on.
#![tactic(auto)]

mod behind;
mod gate;
mod marks;
mod queue;

pub use behind::{Behind, Opening, disk_of};
pub use gate::JournalGate;
pub use queue::Queue;
