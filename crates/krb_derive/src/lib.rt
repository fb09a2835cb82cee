//! Kerberos encryption types 17 and 18 (RFC 3961, RFC 3962): key derivation, sealing, checksums.
#![tactic(auto)]

mod checks;
mod constants;
mod derivation;
mod fold;
mod key;
mod laws;
mod piece;
mod sealing;
mod side_by_side;

pub use checks::{CheckKey, checksum, is_tag, verify};
pub use derivation::{Part, derive};
pub use fold::n_fold;
pub use key::{Etype, Key};
pub use laws::prove_laws;
pub use piece::Piece;
pub use sealing::{OpenRefusal, SealKeys, open, seal};
pub use side_by_side::{CheckTask, checksums_and_digest, checksums4};
