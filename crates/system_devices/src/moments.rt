//! Moments that exist in the proofs alone.
ghost use Rattle.std.specs.Prelude.{◌≡◌, ℕ, List, [], ◌∷◌, ◌++◌};
ghost use base.Fml.{ftrue};

use sec_base::Moment;
use std::marker::Model;

/// Moments that a clock gave, in order. They have no bytes.
#[derive(Drop)]
pub(crate) struct Moments {
    pub(crate) ghost moments: { List ℕ },
}

impl Model for Moments {
    ghost also_owns = { λ _. ftrue };
}

impl Moments {
    /// No moment.
    pub(crate) fn new() -> Moments
        ensures { result.moments ≡ [] }
    {
        Moments {}
    }

    /// These, and one more at the end.
    pub(crate) fn then(&self, _moment: &Moment) -> Moments
        ensures { result.moments ≡ self.now.moments ++ _moment.now ∷ [] }
    {
        Moments {}
    }
}
