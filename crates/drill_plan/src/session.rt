//! What a session of a drill came to.

use gss_client::ClientRefusal;
use sec_base::Octets;
use spnego_core::Outcome;

/// What a session of a drill came to.
#[derive(Drop)]
pub struct DrillSession {
    /// What both ends agree on, once the context stood.
    pub outcome: Option<Outcome>,
    /// The results of the calls, in XDR, in order.
    pub results: Vec<Octets>,
    /// Why the session ended early, None where all calls were answered and the context was destroyed.
    pub ended: Option<ClientRefusal>,
}
