//! An order of cells in which each step takes a few words: links in both directions, in two arrays.
#![tactic(auto)]

mod order;

pub use order::UseOrder;
