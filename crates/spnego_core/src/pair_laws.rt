//! What holds of both machines together.

ghost use Rattle.spnego_core.specs.PairLaws.{PairLaws};

/// Does nothing; its contract holds the laws of an honest pair: it completes with one outcome, at once where Kerberos is the first choice of
/// both, else after the MICs of the list.
pub fn prove_pair_laws()
    ensures { PairLaws }
{}
