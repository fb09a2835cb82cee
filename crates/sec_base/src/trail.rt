//! Octets that exist in the proofs alone.
ghost use Rattle.std.specs.Prelude.{◌≡◌, ℕ, List, [], ◌++◌};
ghost use base.Fml.{ftrue};

use std::marker::Model;

/// Octets that went one way over a link, in order. They have no bytes.
#[derive(Drop)]
pub struct Trail {
    pub ghost octets: { List ℕ },
}

impl Model for Trail {
    ghost also_owns = { λ _. ftrue };
}

impl Trail {
    /// No octets.
    pub fn new() -> Trail
        ensures { result.octets ≡ [] }
    {
        Trail {}
    }

    /// These, and others behind them.
    pub fn then(&self, _octets: &[u8]) -> Trail
        ensures { result.octets ≡ self.now.octets ++ _octets.now }
    {
        Trail {}
    }
}
