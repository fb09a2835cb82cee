//! AES (FIPS 197) with keys of 16 and 32 octets, and CBC with ciphertext stealing (RFC 3962 section 5).
#![tactic(auto)]

mod columns;
mod forward;
mod key;
pub mod laws;
mod schedule;
mod stealing;
mod tables;

pub use forward::ForwardKey;
pub use key::AesKey;
