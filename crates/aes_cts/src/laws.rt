//! What holds of the field's definitions.

ghost use Rattle.std.specs.Prelude.{◌≡◌, ◌<◌, ℕ};
ghost use Rattle.aes_cts.specs.Field.{times, inverse};

/// Does nothing; its contract says that each octet but 0 has the inverse of FIPS 197 section 4.2: their product is 1. That of 0 is 0.
pub fn prove_field_inverse()
    ensures inverse { (a : ℕ) → 0 < a → a < 256 → times a (inverse a) ≡ 1 }
    ensures octet { (a : ℕ) → a < 256 → inverse a < 256 }
    ensures zero { inverse 0 ≡ 0 }
{}
