//! Boxes that C keeps: what a handle of C owns, and a box as the pointer that stands in it.
#![tactic(auto)]

mod parked;

pub use parked::Parked;
