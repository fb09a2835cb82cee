//! Both ends of the SASL mechanism GSSAPI (RFC 4752) in one value, over whatever octets somebody delivers between them; and what holds of
//! them after every list of events.
#![tactic(auto)]

mod event;
mod laws;
mod pair;
mod stage;

pub use event::{PairEvent, PairHappened};
pub use laws::prove_pair;
pub use pair::Pair;
pub use stage::{ClientStage, ServerStage};
