//! Authenticators that were taken, kept in a file, so that none is taken twice across a crash.
#![tactic(auto)]

mod body;
mod disk;
mod journal;
mod judging;
mod laws;
mod memory;
mod opening;
mod renewal;

pub use disk::{Disk, DiskFault};
pub use journal::{Journal, JournalVerdict, Unkept};
pub use judging::Request;
pub use laws::prove_once;
pub use memory::MemDisk;
pub use opening::{JournalRefusal, Unopened};
