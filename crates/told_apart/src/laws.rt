//! Which octets are told apart from the header of a call and from a list of mechanisms.

ghost use Rattle.std.specs.Prelude.{◌≡◌, ◌≤◌, ◌++◌, ℕ, List, is_ok, length, true};
ghost use Rattle.rpc_msgs.specs.Words.{opaque, word};
ghost use Rattle.rpc_msgs.specs.Opaque.{opaque_alone};
ghost use Rattle.told_apart.specs.Apart.{NoHeader, NoList};

/// Does nothing; its contract holds of which octets it is known by their form that they are told apart. A function that says it of a program, and
/// calls this one, has it for what is made of these forms by cases.
#[tactic(auto, using(crate::proofs::Octets::apart))]
pub fn prove_told_apart()
    // Octets that aren't a list of mechanisms: a few, many, a word, an opaque, what stands behind a low word or behind an opaque, and those
    // that are read as one opaque with nothing after it.
    ensures few { (octets : List ℕ) → length octets ≤ 4 → NoList octets }
    ensures many { (octets : List ℕ) → 96 ≤ length octets → NoList octets }
    ensures words { (number : ℕ) → NoList (word number) }
    ensures opaques { (octets : List ℕ) → NoList (opaque octets) }
    ensures tagged { (number : ℕ) (rest : List ℕ) → number ≤ 65536 → NoList (word number ++ rest) }
    ensures followed { (octets rest : List ℕ) → NoList (opaque octets ++ rest) }
    ensures read { (octets : List ℕ) (limit : ℕ) → is_ok (opaque_alone limit octets) ≡ true
        → NoList octets }
    // The last aren't the header of a call either.
    ensures headers { (octets : List ℕ) (limit : ℕ) → is_ok (opaque_alone limit octets) ≡ true
        → NoHeader octets }
{}
