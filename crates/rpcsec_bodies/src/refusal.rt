//! Why a body isn't taken.

ghost use Rattle.std.specs.Prelude.{◌≡◌};
ghost use Rattle.rpcsec_bodies.specs.declared.refusal.BodyRefusal.TheVariants as refusals;

use sec_base::NoMemory;

/// Why a body isn't taken, in the order in which it is judged.
#[derive(Clone, Copy, Debug, PartialEq, Eq)]
pub enum BodyRefusal {
    /// It doesn't split, verify or open, or isn't sealed though it has to be.
    Protection,
    /// What it protects has another number than the call, or none.
    Number,
    /// No memory was to be had.
    NoMemory,
}

impl From<NoMemory> for BodyRefusal {
    ghost use Rattle.rpcsec_bodies.specs.declared.refusal.BodyRefusal.{BodyRefusal};

    ghost from_gives = { λ _ e. e ≡ refusals.NoMemory };

    fn from(_error: NoMemory) -> BodyRefusal {
        BodyRefusal::NoMemory
    }
}
