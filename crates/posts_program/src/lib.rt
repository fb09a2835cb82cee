//! The program of posts (own): an echo, its caller's name, posts and their count, as a program that is served.
#![tactic(auto)]

mod laws;
pub mod numbers;
mod posts;
mod words;

pub use laws::prove_apart;
pub use posts::Posts;
pub use words::PostsWords;
