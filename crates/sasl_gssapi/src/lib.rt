//! Both ends of the SASL mechanism GSSAPI (RFC 4752 section 3) before the layer: Kerberos without a negotiation around it, then which layer.
#![tactic(auto)]

mod accept;
mod choosing;
mod init;
mod laws;
mod objects;
mod refusal;
mod steps;

pub use accept::{SaslAccept, SaslAnswer};
pub use choosing::MOST;
pub use init::{Asking, SaslInit, SaslStep};
pub use laws::prove_agreement;
pub use steps::{Agreed, Offer};
