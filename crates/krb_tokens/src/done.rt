//! What a finished mechanism gives.

use gss_base::Label;
use krb_derive::Key;
use sec_base::Moment;

/// The outcome of a mechanism, at either end.
#[derive(Clone, Copy)]
pub struct MechDone {
    /// The key of the context.
    pub key: Key,
    /// Whether it is a subkey of the acceptor.
    pub subkey: bool,
    pub initiator: Label,
    pub acceptor: Label,
    /// The hash of the channel bindings that the exchange carried.
    pub hash: [u8; 16],
    /// When the context ends; at the initiator the greatest moment.
    pub ends: Moment,
    /// The number of the other end's first token, as its message of the exchange states it: 0 where it states none (RFC 4120 sections 5.5.1
    /// and 5.5.2).
    pub first: u32,
}
