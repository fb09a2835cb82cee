//! Refusals of the mechanism as an end tells them.

ghost use Rattle.std.specs.Prelude.{◌≡◌, ◌≢◌};
ghost use Rattle.ap_exchange.specs.declared.refusal.ApRefusal.TheVariants as aps;
ghost use Rattle.sasl_gssapi.specs.Refusals.{neg_refused};

use ap_exchange::ApRefusal;
use sasl_layer::SaslRefusal;
use spnego_core::{MechRefusal, NegRefusal};

/// The refusal of an object.
pub(crate) fn neg_refused(refusal: NegRefusal) -> SaslRefusal
    ensures { result ≡ neg_refused refusal }
{
    match refusal {
        NegRefusal::Mech(refusal) => SaslRefusal::Mech(refusal),
        NegRefusal::NoMemory => SaslRefusal::NoMemory,
        _ => SaslRefusal::NoKerberos,
    }
}

/// The refusal of a request.
pub(crate) fn ap_refused(refusal: ApRefusal) -> SaslRefusal
    ensures mech { refusal ≢ aps.NoMemory → result ≡ SaslRefusal.Mech (MechRefusal.Ap refusal) }
    ensures memory { refusal ≡ aps.NoMemory → result ≡ SaslRefusal.NoMemory }
{
    match refusal {
        ApRefusal::NoMemory => SaslRefusal::NoMemory,
        refusal => SaslRefusal::Mech(MechRefusal::Ap(refusal)),
    }
}
