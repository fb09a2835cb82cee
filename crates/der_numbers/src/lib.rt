//! Numbers as octets, most significant first, and the long form of a length (ITU-T X.690 sections 8.1.3.5 and 10.1).
#![tactic(auto)]

mod lengths;
mod numbers;

pub use lengths::long_length;
pub use numbers::{flipped_number_of, number_of};
