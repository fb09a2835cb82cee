//! The words of the programs as `clap` reads them, and what their options give.
#![tactic(auto)]

mod commands;
mod given;
mod line;
mod sasl;

pub use commands::{client_line, server_line};
pub use given::{bindings_given, number_given};
pub use line::{Line, texts_of};
pub use sasl::sasl_line;
