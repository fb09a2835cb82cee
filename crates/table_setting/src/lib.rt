//! What the tables of the mechanisms and of the programs over them share: the setting that they rest on, and how they say outcomes and
//! refusals. For the programs that test the other crates by such tables.
#![tactic(auto)]

mod devices;
mod names;
pub mod saying;
mod setting;

pub use devices::{
    Devices, Files, clock, link, numbers, numbers_of, present, say_list, words, words_of,
};
pub use names::{named, octets_by_name, octets_in};
pub use setting::{Setting, acceptor, credential, draws, initiator, own_draws};
