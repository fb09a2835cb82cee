//! The mark of an authenticator: what tells a second one from a replay of the first (RFC 4120 section 3.2.3).
ghost use Rattle.std.specs.Prelude.{◌≡◌};
ghost use Rattle.gss_base.specs.Mark.{mark_for};

use crate::label::Label;
use sec_base::Moment;
use sha1::Sha1;

/// An authenticator as a replay cache knows it: who made it for whom, and the moment that it carries.
#[derive(Clone, Copy, Debug, PartialEq, Eq)]
pub struct Mark {
    /// SHA-1 of the server's text, one octet 00 and the client's text.
    pub who: [u8; 20],
    /// The time in the authenticator, with its microseconds.
    pub at: Moment,
}

/// The mark of the authenticator that `client` made for `server` at the moment `at`.
#[tactic(auto, unfolding(crate::specs::Mark::who_of))]
pub fn mark_of(server: &Label, client: &Label, at: Moment) -> Mark
    ensures { result ≡ mark_for server.now client.now at }
{
    let mut hasher = Sha1::new();
    hasher.update(server.text().as_bytes());
    hasher.update(&[0]);
    hasher.update(client.text().as_bytes());
    let who = hasher.finalize();
    Mark { who, at }
}
