//! Datagrams that exist in the proofs alone.
ghost use Rattle.std.specs.Prelude.{◌≡◌, ℕ, List, [], ◌∷◌, ◌++◌, Option, None, Some};
ghost use base.Fml.{ftrue};

use std::marker::Model;

/// What calls of a socket came to, in order: a datagram each, or None for a wait in which nothing came. They have no bytes.
#[derive(Drop)]
pub(crate) struct Noted {
    pub(crate) ghost datagrams: { List (Option (List ℕ)) },
}

impl Model for Noted {
    ghost also_owns = { λ _. ftrue };
}

impl Noted {
    /// No call.
    pub(crate) fn new() -> Noted
        ensures { result.datagrams ≡ [] }
    {
        Noted {}
    }

    /// These, and a datagram behind them.
    pub(crate) fn then(&self, _octets: &[u8]) -> Noted
        ensures { result.datagrams ≡ self.now.datagrams ++ Some _octets.now ∷ [] }
    {
        Noted {}
    }

    /// These, and a wait in which nothing came behind them.
    pub(crate) fn then_none(&self) -> Noted
        ensures { result.datagrams ≡ self.now.datagrams ++ None ∷ [] }
    {
        Noted {}
    }
}
