//! Datagrams of the system: a UDP socket. It is thin, and tells what its calls answered.
#![tactic(auto)]

mod noted;
mod udp_post;

pub use udp_post::UdpPost;
