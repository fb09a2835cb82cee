//! The major status of a refused step, RFC 2744 section 3.9.1.

ghost use Rattle.std.specs.Prelude.{◌≡◌};
ghost use Rattle.accept_book.specs.Statuses.{major_status, book_error, neg_error, ap_error};
ghost use Rattle.accept_book.specs.Statuses.{scram_error};

use accept_book::BookRefusal;
use ap_exchange::ApRefusal;
use gss_base::status::{
    BAD_BINDINGS, BAD_MECH, BAD_MIC, CREDENTIALS_EXPIRED, DEFECTIVE_TOKEN, FAILURE, NO_CRED,
    UNAUTHORIZED, major,
};
use scram_mech::ScramRefusal;
use spnego_core::{MechRefusal, NegRefusal};

/// The major status of a refusal.
pub(crate) fn major_of(refusal: BookRefusal) -> u32
    ensures { result ≡ major_status (book_error refusal) }
{
    match refusal {
        BookRefusal::Neg(refusal) => negotiating(refusal),
        _ => major(FAILURE),
    }
}

/// That of a negotiation.
fn negotiating(refusal: NegRefusal) -> u32
    ensures { result ≡ major_status (neg_error refusal) }
{
    match refusal {
        NegRefusal::Defective { at: _ } => major(DEFECTIVE_TOKEN),
        NegRefusal::NoCommonMech => major(BAD_MECH),
        NegRefusal::MicMissing => major(BAD_MIC),
        NegRefusal::MicBad => major(BAD_MIC),
        NegRefusal::Mech(MechRefusal::Ap(refusal)) => exchanging(refusal),
        NegRefusal::Mech(MechRefusal::Scram(refusal)) => proving(refusal),
        _ => major(FAILURE),
    }
}

/// That of the AP exchange.
fn exchanging(refusal: ApRefusal) -> u32
    ensures { result ≡ major_status (ap_error refusal) }
{
    match refusal {
        ApRefusal::Der {
            part: _,
            at: _,
            why: _,
        } => major(DEFECTIVE_TOKEN),
        ApRefusal::Kind => major(DEFECTIVE_TOKEN),
        ApRefusal::NoKey => major(NO_CRED),
        ApRefusal::Bindings => major(BAD_BINDINGS),
        ApRefusal::Expired => major(CREDENTIALS_EXPIRED),
        _ => major(FAILURE),
    }
}

/// That of SCRAM's exchange.
fn proving(refusal: ScramRefusal) -> u32
    ensures { result ≡ major_status (scram_error refusal) }
{
    match refusal {
        ScramRefusal::Text { at: _ } => major(DEFECTIVE_TOKEN),
        ScramRefusal::NoUser => major(UNAUTHORIZED),
        ScramRefusal::Bindings => major(BAD_BINDINGS),
        ScramRefusal::Proof => major(UNAUTHORIZED),
        _ => major(FAILURE),
    }
}
