//! Per-message tokens of the Kerberos mechanism, RFC 4121 section 4.2, and what a finished mechanism gives.
#![tactic(auto)]

mod cache;
mod done;
mod end;
mod foreseen;
mod known;
mod laws;
mod lent;
mod mic;
mod mic_keys;
mod wrap;
mod wrap_keys;

pub use cache::KeyCache;
pub use done::MechDone;
pub use end::{Side, TokenEnd, TokenRefusal};
pub use known::{KnownDigest, KnownMic, KnownMics, KnownPair, MicTask};
pub use laws::{prove_acceptance, prove_laws};
pub use lent::LentKeys;
pub use wrap::Unwrapped;
