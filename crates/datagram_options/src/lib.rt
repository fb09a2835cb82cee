//! What the words of the program over datagrams ask for: its two commands, and how their runs end.
#![tactic(auto)]

mod ending;
mod words;

pub use ending::{CallEnd, ServeEnd, USAGE, say_call, say_serve, say_usage};
pub use words::{Asked, address_of, read_asked};
