//! How a session of a drill ended.

ghost use Rattle.std.specs.Prelude.{◌≡◌};
ghost use Rattle.drill_command.specs.Held.{early_end};

use gss_client::{ClientRefusal, Parting, ReplyWhy};

/// Why a session ended early that parted so. A drill's calls have numbers enough, so that none parts as spent.
pub fn early_end(parting: Parting) -> Option<ClientRefusal>
    ensures { result ≡ early_end parting }
{
    match parting {
        Parting::Finished => None,
        Parting::Spent => Some(ClientRefusal::BadReply(ReplyWhy::Number)),
        Parting::Foreign => Some(ClientRefusal::BadReply(ReplyWhy::Body)),
        Parting::Refused(refusal) => Some(refusal),
    }
}
