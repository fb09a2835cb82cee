//! What holds of the definitions alone.

ghost use Rattle.spnego_core.specs.AcceptLaws.{AcceptLaws};
ghost use Rattle.spnego_core.specs.InitLaws.{InitLaws};

/// Does nothing; its contract holds the laws of an initiator: good ends stay good, what a step hands out and finds verified, and that no context
/// stands on another mechanism than the first choice without the acceptor's MIC.
pub fn prove_init_laws()
    ensures { InitLaws }
{}

/// Does nothing; its contract holds the laws of an acceptor: good ends stay good, a context stands only where the list's MIC wasn't due or was
/// verified, what fixes a context, and what a step hands out.
pub fn prove_accept_laws()
    ensures { AcceptLaws }
{}
