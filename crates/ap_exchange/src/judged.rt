//! A request that was judged.

ghost use Rattle.std.specs.Prelude.{◌≡◌};
ghost use Rattle.ap_exchange.specs.Judging.{judged_mark};

use gss_base::{Label, Mark, mark_of};
use krb_derive::Key;
use sec_base::Moment;

/// What is kept of a request that can be taken: the answer is due, unless it is a repeat.
#[derive(Drop)]
pub struct Judged {
    /// The ticket's key.
    pub session: Key,
    /// The ticket's client.
    pub initiator: Label,
    /// The own name.
    pub acceptor: Label,
    /// The authenticator's moment, with its microseconds.
    pub stamp: Moment,
    /// The hash of the initiator's bindings.
    pub hash: [u8; 16],
    /// When the context ends: 300 seconds after the ticket, or at the greatest moment.
    pub ends: Moment,
    /// The number of the initiator's first token, as the authenticator states it: 0 where it states none (RFC 4120 section 5.5.1).
    pub first: u32,
}

impl Judged {
    /// The mark by which a repeat is known.
    pub fn mark(&self) -> Mark
        ensures { result ≡ judged_mark self.now }
    {
        mark_of(&self.acceptor, &self.initiator, self.stamp)
    }
}
