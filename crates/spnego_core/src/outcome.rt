//! What an end of a negotiation is left with.

ghost use Rattle.std.specs.Prelude.{◌≡◌};
ghost use Rattle.spnego_core.specs.Outcome.{outcome_of, token_end};

use gss_base::{Label, MechKind};
use krb_derive::Key;
use krb_tokens::{MechDone, Side, TokenEnd};

/// What both ends agree on.
#[derive(Clone, Copy)]
pub struct Outcome {
    pub mech: MechKind,
    pub initiator: Label,
    pub acceptor: Label,
    /// The key of the context.
    pub key: Key,
    /// Whether it is a subkey of the acceptor.
    pub subkey: bool,
    /// The hash of the channel bindings that the exchange carried.
    pub hash: [u8; 16],
}

/// The outcome of a finished mechanism.
pub fn outcome_of(mech: MechKind, made: &MechDone) -> Outcome
    ensures { result ≡ outcome_of mech made.now }
{
    let hash = made.hash;
    Outcome {
        mech,
        initiator: made.initiator,
        acceptor: made.acceptor,
        key: made.key,
        subkey: made.subkey,
        hash,
    }
}

impl Outcome {
    /// The end that makes and reads per-message tokens at this side.
    pub fn token_end(&self, side: Side) -> TokenEnd
        ensures { result ≡ token_end self.now side }
    {
        TokenEnd {
            key: self.key,
            side,
            subkey: self.subkey,
        }
    }
}
