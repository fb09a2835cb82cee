//! What holds of the definitions alone.

ghost use Rattle.krb_derive.specs.Laws.{Laws};

/// Does nothing; its contract holds the laws of makings and of what is found verified.
pub fn prove_laws()
    ensures { Laws }
{}
