//! The SASL mechanism GSSAPI (RFC 4752): Kerberos without a negotiation around it, the security layer and what is refused.
#![tactic(auto)]

mod facts;
mod laws;
mod layer;
mod layered;
mod refusal;

pub use facts::LayerFacts;
pub use laws::prove_laws;
pub use layer::{Layer, Wish, size_in, strongest, words_of};
pub use layered::{Layered, end_of, number_in};
pub use refusal::{SaslRefusal, token_refused};
