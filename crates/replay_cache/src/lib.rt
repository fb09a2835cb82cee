//! A bounded cache of the authenticators that were taken, RFC 4120 section 3.2.3.
//!
//! A server takes each authenticator at most once. One whose time lies more than 300 seconds from the greatest
//! moment that was seen is refused, so older ones needn't be remembered; a clock that goes back makes none new.
#![tactic(auto)]

mod cache;
mod cells;
mod times;

pub use cache::{Cache, CacheVerdict, SKEW};
