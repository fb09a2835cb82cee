//! What two ends that are done agreed on.

use crate::layer::Layer;
use krb_tokens::MechDone;

/// What two ends that are done agreed on.
#[derive(Clone, Copy)]
pub struct LayerFacts {
    pub layer: Layer,
    /// How many octets a message to the other end may have.
    pub outgoing: u32,
    /// How many octets a message of the other end may have.
    pub incoming: u32,
    pub done: MechDone,
}
