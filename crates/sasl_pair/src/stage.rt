//! Where each end is.

use sasl_gssapi::{SaslAccept, SaslInit};
use sasl_layer::Layered;

/// Where the client is.
#[derive(Drop)]
pub enum ClientStage {
    /// Before the layer.
    Goes(SaslInit),
    /// It is done.
    Stands(Layered),
    /// It was refused, or lost for want of memory.
    Over,
}

/// Where the server is.
#[derive(Drop)]
pub enum ServerStage {
    /// Before the layer.
    Goes(SaslAccept),
    /// It is done.
    Stands(Layered),
    /// It was refused, or lost for want of memory.
    Over,
}
