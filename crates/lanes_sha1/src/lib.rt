//! SHA-1 (FIPS 180-4) of four messages side by side, one in each lane of a vector.
//!
//! The clauses speak of the `sha1` by which the library's `Sha1` is proved, so both make the same digests.
#![tactic(auto)]

mod blocks;
mod four;
mod pieces;
mod rounds;
mod schedule;
mod vectors;

pub use four::{advance4, digest4, finish4, first_states, lane_words, lanes_of};
pub use pieces::finish4_of_pieces;
pub use rounds::compress4;
