//! What the client's words ask for, what is printed of a session, and how a run ends.
#![tactic(auto)]

mod command;
mod ending;
mod lines;
mod mechs;
mod words;

pub use command::Command;
pub use ending::{Names, RunEnd, WordFile, end_of, say_end};
pub use lines::lines_of;
pub use words::{ClientWords, Plan, Sources, WordsRefusal, address_of, read_words};
