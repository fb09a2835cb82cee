//! Why a session ends.

ghost use Rattle.std.specs.Prelude.{◌≡◌, ◌≢◌};
ghost use Rattle.spnego_core.specs.declared.refusal.NegRefusal.TheVariants as negs;
ghost use Rattle.gss_client.specs.declared.refusal.ClientRefusal.TheVariants as refusals;

use sec_base::NoMemory;
use spnego_core::NegRefusal;

/// What the server denied.
#[derive(Clone, Copy, Debug)]
pub enum Denial {
    /// The version of RPC: it serves the versions `low` to `high`.
    Rpc { low: u32, high: u32 },
    /// The caller, by this auth stat.
    Auth { stat: u32 },
    /// The call, by this accept stat.
    Accept { stat: u32 },
    /// The creation of a context, by this major and minor status.
    Gss { major: u32, minor: u32 },
}

/// What is wrong with a reply.
#[derive(Clone, Copy, Debug)]
pub enum ReplyWhy {
    /// The record is too long, or has too many fragments.
    Record,
    /// It isn't in its grammar from the place `at` of the record on.
    Form { at: usize },
    /// It has another transaction number.
    Xid,
    /// Its verifier isn't the acceptor's MIC over what is due.
    Verifier,
    /// The status says that the creation is finished and the negotiation isn't, or the reverse.
    Steps,
    /// The window is 0.
    Width,
    /// The body doesn't split, verify or open, or isn't sealed though it has to be.
    Body,
    /// The body has another number than the call, or none.
    Number,
}

/// Why a session ends.
#[derive(Clone, Copy, Debug)]
pub enum ClientRefusal {
    /// The link failed, and its count of faults rose.
    LinkFault,
    /// The stream ended before the reply was whole.
    PeerEnded,
    /// The server denied what was asked.
    Refused(Denial),
    /// The negotiating end refused to start, or refused the server's token.
    Negotiation(NegRefusal),
    /// The reply is none that may come.
    BadReply(ReplyWhy),
    /// No memory was to be had.
    NoMemory,
}

impl From<NoMemory> for ClientRefusal {
    ghost use Rattle.gss_client.specs.declared.refusal.ClientRefusal.{ClientRefusal};

    ghost from_gives = { λ _ e. e ≡ refusals.NoMemory };

    fn from(_error: NoMemory) -> ClientRefusal {
        ClientRefusal::NoMemory
    }
}

/// The refusal of the negotiating end.
pub(crate) fn not_negotiated(refusal: NegRefusal) -> ClientRefusal
    ensures negotiation { refusal ≢ negs.NoMemory → result ≡ ClientRefusal.Negotiation refusal }
    ensures memory { refusal ≡ negs.NoMemory → result ≡ ClientRefusal.NoMemory }
    ensures fault { result ≢ ClientRefusal.LinkFault }
{
    match refusal {
        NegRefusal::NoMemory => ClientRefusal::NoMemory,
        refusal => ClientRefusal::Negotiation(refusal),
    }
}
