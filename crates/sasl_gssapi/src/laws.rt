//! What both ends agree on.

ghost use Rattle.sasl_gssapi.specs.Agreeing.{AgreeLaw, JoinLaw};

/// Does nothing; its contract says that two ends that are done have one layer and each other's sizes, where neither the offer nor the
/// choice was forged; and that they then stand as `sasl_layer`'s law of fronts asks.
pub fn prove_agreement()
    ensures agree { AgreeLaw }
    ensures join { JoinLaw }
{}
