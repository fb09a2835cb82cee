//! A world as a relation: initiators, an acceptor's book, and a network that delivers any octets at any time; and what holds of it after every run.
#![tactic(auto)]

mod event;
mod laws;

pub use event::{Happened, WorldEvent};
pub use laws::{
    prove_agreement, prove_headline, prove_known_list, prove_origin, prove_unforged_list,
    tell_below,
};
