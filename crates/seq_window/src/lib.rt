//! The window of sequence numbers of one context, RFC 2203 section 5.3.3.1.
//!
//! A server takes each number of a context at most once. It remembers the greatest number that it
//! took and, of the `width` numbers up to that one, which were taken; a number below these is refused.
#![tactic(auto)]

mod window;

pub use window::{GREATEST_NUMBER, Verdict, Window};
