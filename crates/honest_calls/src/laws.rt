//! The law of honest calls.

ghost use Rattle.honest_calls.specs.HonestCalls.{HonestCallsLaw};

/// Does nothing; its contract holds that an honest call of a context is answered by the admission of its number, and is done exactly where that is
/// admitted, whatever lease shows the context. The octets of the lease's key are octets, as those of each `Key` are.
pub fn prove_honest_calls()
    ensures { HonestCallsLaw }
{}
