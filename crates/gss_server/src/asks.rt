//! What the gate is asked for a call.

ghost use Rattle.std.specs.Prelude.{◌≡◌};
ghost use Rattle.gss_server.specs.Ruled.{unasked};

use accept_book::{AdmitRefusal, Admitted, Lease, LookRefusal, Negotiated, Receipt};

/// What the gate answered to a call, where it was asked. It is handed down to who asks, since the
/// answers are large.
#[derive(Drop)]
pub(crate) struct Asks {
    pub negotiated: Option<Negotiated>,
    pub looked: Option<Result<Lease, LookRefusal>>,
    pub admitted: Option<Result<Admitted, AdmitRefusal>>,
    pub ended: Option<Result<Receipt, AdmitRefusal>>,
}

/// Nothing was asked yet.
pub(crate) fn unasked() -> Asks
    ensures { result ≡ unasked }
{
    Asks {
        negotiated: None,
        looked: None,
        admitted: None,
        ended: None,
    }
}
