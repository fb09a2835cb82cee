//! What the server's words ask for: its options, the keys in its files, and how its run ends by them.
#![tactic(auto)]

mod control;
mod ending;
mod keys;
mod options;

pub use control::{Order, answer_to, order_of, read_control};
pub use ending::{Counts, KeyFile, Names, RunEnd, USAGE, say_end, say_unbound};
pub use keys::{Keys, keys_from};
pub use options::{Files, Options, WordsRefusal, address_of, read_options};
