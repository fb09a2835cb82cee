//! Where an initiator is.

use gss_client::Session;
use init_ends::{InitEnd, InitSetup};

/// Where an initiator is.
#[derive(Drop)]
pub enum Stage {
    /// It wasn't started.
    Ready(InitSetup),
    /// A creation call of this transaction number was handed out, whose reply is due.
    Asks { xid: u32, end: InitEnd },
    /// Its context stands.
    Stands(Session),
    /// Its context stood, and it has ended since.
    Left(Session),
    /// It ended before its context stood.
    Over,
}
