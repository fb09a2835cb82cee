//! The world as a program: initiators, an acceptor's book, and the lanes by which records come to it; and a run of it that meets the laws' premises.
#![tactic(auto)]

mod initiators;
mod lanes;
mod meeting;
mod setups;
mod stage;
mod turn;
mod world;

pub use meeting::{call_once, meet};
pub use spnego_core::InitFacts;
pub use world::{World, WorldSetup};
