//! The checksum keys of an end.

ghost use Rattle.std.specs.Prelude.{◌≡◌, ◌++◌, nat_eq};
ghost use lib.Pointwise.{pointwise};
ghost use Rattle.krb_derive.specs.Kept.{ForChecks};
ghost use Rattle.krb_derive.specs.Sealing.{checksum_of};
ghost use Rattle.krb_tokens.specs.End.{other_side, sign_usage};

use crate::end::{Side, TokenEnd};
use krb_derive::CheckKey;

/// The checksum keys of an end: that of the tokens that it makes, and that of the other side's.
#[derive(Drop)]
pub(crate) struct MicKeys {
    pub end: TokenEnd,
    own: CheckKey,
    other: CheckKey,
    ghost own_usage: { ∥ ForChecks own end.key (sign_usage end.side) ∥₁ },
    ghost other_usage: { ∥ ForChecks other end.key (sign_usage (other_side end.side)) ∥₁ },
}

impl MicKeys {
    pub(crate) fn of(end: &TokenEnd) -> MicKeys
        ensures { result.end ≡ end.now }
    {
        MicKeys {
            end: *end,
            own: CheckKey::of(&end.key, end.side.sign_usage()),
            other: CheckKey::of(&end.key, end.side.other().sign_usage()),
        }
    }

    /// The checksum key of the tokens that this side makes.
    pub(crate) fn key_of(&self, side: Side) -> &CheckKey
        ensures { ∥ ForChecks result.now self.now.end.key (sign_usage side) ∥₁ }
    {
        if side == self.end.side {
            &self.own
        } else {
            &self.other
        }
    }

    /// The checksum of both in a row, as this end makes it.
    pub(crate) fn checksum(&self, bytes: &[u8], header: &[u8]) -> [u8; 12]
        ensures { result ≡ checksum_of self.now.end.key (sign_usage self.now.end.side)
            (bytes.now ++ header.now) }
    {
        self.own.checksum(bytes, header)
    }

    /// Whether `tag` is the checksum of both in a row, as the other side makes it.
    pub(crate) fn verify(&self, bytes: &[u8], header: &[u8], tag: &[u8]) -> bool
        ensures { result ≡ pointwise nat_eq (checksum_of self.now.end.key
            (sign_usage (other_side self.now.end.side)) (bytes.now ++ header.now)) tag.now }
    {
        self.other.verify(bytes, header, tag)
    }
}
