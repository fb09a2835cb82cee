//! A client of the program of posts: what it asks, and which results it takes.
#![tactic(auto)]

mod procedure;

pub use procedure::Procedure;
