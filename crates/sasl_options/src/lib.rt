//! What the words of the program that speaks SASL ask for, the file that a run reads, and how a run ends.
#![tactic(auto)]

mod ending;
mod files;
mod words;

pub use ending::{Names, RunEnd, end_of_words, say_end};
pub use files::{credential_given, keytab_given};
pub use words::{AskWords, ServeWords, Wished, Words, WordsRefusal, read_words};
