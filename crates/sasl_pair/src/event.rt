//! What befalls both ends, and what comes of it.

use sasl_layer::LayerFacts;
use sec_base::{Moment, Octets};

/// An event at one of both ends.
#[derive(Drop)]
pub enum PairEvent {
    /// The client gets a message, whoever wrote it.
    ToInit {
        message: Octets,
    },
    /// The server gets one at this moment, with random octets for its answer.
    ToAccept {
        message: Octets,
        now: Moment,
        draws: [u8; 66],
    },
    /// The client is to send these octets, with a confounder for a sealed token.
    SendInit {
        bytes: Octets,
        confounder: [u8; 16],
    },
    /// The server is.
    SendAccept {
        bytes: Octets,
        confounder: [u8; 16],
    },
}

/// What comes of an event.
#[derive(Drop)]
pub enum PairHappened {
    /// The end hands a message out.
    Sent(Octets),
    /// The end is done, and hands its last message out: the choice at the client, nothing at the server.
    Completed(LayerFacts, Octets),
    /// The end read these octets.
    Read(Octets),
    /// The end's call is refused. A refusal before the layer ends it, one under the layer leaves it as it was.
    Refused,
    /// Nothing: the end was refused or lost before, it isn't done and is to send, the numbers of that direction are used up, or memory was
    /// wanted, and this end is lost.
    Nothing,
}
