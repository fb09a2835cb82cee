//! Channel bindings as SCRAM carries them (RFC 5802 sections 5.1 and 6): whole application data, and not a hash of them as Kerberos does.
#![tactic(auto)]

mod carried;

pub use carried::{bindings_of, copied, data_of, is_bound};
