//! What holds of the definitions alone.

ghost use Rattle.scram_mech.specs.Laws.{Laws};

/// Does nothing; its contract holds the laws of an exchange: what each end made and found verified where it answered, and that texts and
/// verifier files are read exactly where they are of their grammar.
pub fn prove_laws()
    ensures { Laws }
{}
