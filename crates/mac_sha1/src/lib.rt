//! HMAC with SHA-1 (RFC 2104), also of four messages side by side, and Hi (RFC 5802 section 2.2).
#![tactic(auto)]

mod four;
mod mac;
mod ready;
mod stretch;

pub use four::{MacTask, codes_and_digest, codes4};
pub use mac::Hmac;
pub use ready::MacKey;
pub use stretch::{add_to, hi};
