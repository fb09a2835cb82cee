//! The sealing keys of an end.

ghost use Rattle.std.specs.Prelude.{◌≡◌, ◌+◌, ◌≤◌, ◌++◌, OnOk, length, take, drop};
ghost use Rattle.krb_derive.specs.Kept.{ForSealing};
ghost use Rattle.krb_derive.specs.Sealing.{seal_of, opened, Opens};
ghost use Rattle.krb_tokens.specs.End.{other_side, seal_usage};

use crate::end::TokenEnd;
use krb_derive::{OpenRefusal, Piece, SealKeys};
use sec_base::NoMemory;

/// The sealing keys of an end: those of the tokens that it makes, and those of the other side's.
#[derive(Drop)]
pub(crate) struct WrapKeys {
    pub end: TokenEnd,
    own: SealKeys,
    other: SealKeys,
    ghost own_usage: { ∥ ForSealing own end.key (seal_usage end.side) ∥₁ },
    ghost other_usage: { ∥ ForSealing other end.key (seal_usage (other_side end.side)) ∥₁ },
}

impl WrapKeys {
    pub(crate) fn of(end: &TokenEnd) -> WrapKeys
        ensures { result.end ≡ end.now }
    {
        WrapKeys {
            end: *end,
            own: SealKeys::of(&end.key, end.side.seal_usage()),
            other: SealKeys::of(&end.key, end.side.other().seal_usage()),
        }
    }

    /// Seals where it stands what is in a vector from `start` on, as this end does, and appends the tag.
    pub(crate) fn seal_behind(&self, list: &mut Vec<u8>, start: usize) -> Result<(), NoMemory>
        requires { start + 16 ≤ length list.old.items }
        ensures value { OnOk result (list.new.items
            ≡ take start list.old.items ++ seal_of self.now.end.key (seal_usage self.now.end.side)
            (take 16 (drop start list.old.items)) (drop 16 (drop start list.old.items))) }
        ensures opens { Opens self.now.end.key (seal_usage self.now.end.side) }
    {
        self.own.seal_behind(list, start)
    }

    /// Opens where they stand octets that the other side sealed.
    pub(crate) fn open_in(&self, list: Vec<u8>) -> Result<Piece, OpenRefusal>
        ensures { result
            ≡ opened self.now.end.key (seal_usage (other_side self.now.end.side)) list.items }
    {
        self.other.open_in(list)
    }
}
