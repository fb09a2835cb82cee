//! What the programs put around the devices of the system: links that read ahead and write behind, and the places of standard streams
//! that were closed, which are held. It stands on the traits of devices alone.
#![tactic(auto)]

mod ahead;
mod behind;
mod buffered;
mod held_streams;

pub use buffered::{Buffered, BufferedPort};
pub use held_streams::HeldStreams;
