//! What holds of the definitions alone.

ghost use Rattle.ap_exchange.specs.Laws.{Laws};

/// Does nothing; its contract holds the laws of both ends: what was found verified where an end goes on, and that two ends
/// whose facts fit complete and agree.
pub fn prove_laws()
    ensures { Laws }
{}
