//! How one book serves the desks of a server, side by side.
#![tactic(auto)]

mod place;
mod seating;
mod staffing;

pub use seating::run_book;
