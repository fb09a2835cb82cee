//! What holds of an honest exchange.

ghost use Rattle.spnego_core.specs.Exchange.{ExchangeLaw};

/// Does nothing; its contract holds the completeness of an honest pair: where the lists have a mechanism in common and the facts of the first
/// one of the initiator's list that is offered fit, both ends complete by it with one outcome, after as many tokens as that takes: another
/// mechanism may have been the initiator's first, and each end's MIC of the list comes where it is due.
pub fn prove_exchange()
    ensures { ExchangeLaw }
{}
