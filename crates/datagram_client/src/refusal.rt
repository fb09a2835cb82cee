//! Why a session over datagrams ends.

ghost use Rattle.std.specs.Prelude.{◌≡◌, ◌≢◌};
ghost use Rattle.spnego_core.specs.declared.refusal.NegRefusal.TheVariants as negs;
ghost use Rattle.datagram_client.specs.Creating.{client_refusal};

use gss_client::{ClientRefusal, Denial, ReplyWhy};
use spnego_core::NegRefusal;

/// Why a session over datagrams ends.
#[derive(Clone, Copy, Debug)]
pub enum PostRefusal {
    /// A datagram wasn't sent or received, and the post's count of faults rose.
    PostFault,
    /// Nothing came within the wait, so often as the call was to be tried.
    NoReply,
    /// So many datagrams were passed over that no more are heard.
    Flood,
    /// The call is to be sent, and the numbers of the context are spent.
    Spent,
    /// The server denied what was asked.
    Refused(Denial),
    /// The reply is none that may come.
    BadReply(ReplyWhy),
    /// The negotiating end refused to start, or refused the server's token.
    Negotiation(NegRefusal),
    /// No memory was to be had.
    NoMemory,
}

/// The refusal of a reply to a creation call.
pub(crate) fn by_reply(refusal: ClientRefusal) -> PostRefusal
    ensures { client_refusal result ≡ refusal }
{
    match refusal {
        ClientRefusal::LinkFault => PostRefusal::PostFault,
        ClientRefusal::PeerEnded => PostRefusal::NoReply,
        ClientRefusal::Refused(denial) => PostRefusal::Refused(denial),
        ClientRefusal::Negotiation(refusal) => PostRefusal::Negotiation(refusal),
        ClientRefusal::BadReply(why) => PostRefusal::BadReply(why),
        ClientRefusal::NoMemory => PostRefusal::NoMemory,
    }
}

/// The refusal of the negotiating end.
pub(crate) fn by_negotiation(refusal: NegRefusal) -> PostRefusal
    ensures negotiation { refusal ≢ negs.NoMemory → result ≡ PostRefusal.Negotiation refusal }
    ensures memory { refusal ≡ negs.NoMemory → result ≡ PostRefusal.NoMemory }
{
    match refusal {
        NegRefusal::NoMemory => PostRefusal::NoMemory,
        refusal => PostRefusal::Negotiation(refusal),
    }
}
