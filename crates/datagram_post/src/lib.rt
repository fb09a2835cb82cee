//! Datagrams in both directions, and a form of them in memory.
#![tactic(auto)]

mod mem_post;
mod post;

pub use mem_post::MemPost;
pub use post::{Post, PostFault};
