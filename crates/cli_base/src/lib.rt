//! What the programs share: the words of a command line and what they give, numbers, the line of a status, and files.
#![tactic(auto)]

mod files;
mod given;
mod lines;
mod numbers;
mod words;

pub use files::{FileStop, load, say_stop, stop_of};
pub use given::{WordsRefusal, address_of, demand};
pub use lines::{OUT_OF_MEMORY, say, say_made};
pub use numbers::number_in;
pub use words::{are_words, count_plain, first_word, plain};
