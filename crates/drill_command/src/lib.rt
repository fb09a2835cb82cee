//! The drill: a large run of both ends with nothing from outside, by which everybody sees that all layers work together.
#![tactic(auto)]

mod calls;
mod draws;
mod drill;
mod ends;
mod gate;
mod meeting;
mod opening;
mod sessions;

pub use drill::{DrillEnd, run_drill};
