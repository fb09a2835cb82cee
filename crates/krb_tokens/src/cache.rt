//! The keys of an end, kept for the tokens of many messages.

ghost use Rattle.std.specs.Prelude.{◌≡◌, ◌+◌, ◌≤◌, ◌++◌, ◌↔◌, nat_eq, None, Some, IsSome, IfSome};
ghost use Rattle.std.specs.Prelude.{OnOk, length, take, drop};
ghost use lib.Pointwise.{pointwise};
ghost use Rattle.krb_derive.specs.Sealing.{checksum_of, seal_of, opened, Opens};
ghost use Rattle.krb_tokens.specs.End.{other_side, sign_usage, seal_usage};
ghost use Rattle.krb_tokens.specs.Cache.{kept_end, sealing_end};

use crate::end::TokenEnd;
use crate::lent::LentKeys;
use crate::mic_keys::MicKeys;
use crate::wrap_keys::WrapKeys;
use krb_derive::{OpenRefusal, Piece, SealKeys, checksum, is_tag, verify};
use sec_base::NoMemory;

/// The keys of the end that was kept last: those of its checksums and, where they were asked for, those of its sealed octets. They spare
/// the tokens of that end their derivations; a token of another end is made and read all the same.
#[derive(Drop)]
pub struct KeyCache {
    kept: Option<MicKeys>,
    sealing: Option<WrapKeys>,
}

impl KeyCache {
    /// No keys.
    pub fn empty() -> KeyCache
        ensures kept { kept_end result ≡ None }
        ensures sealing { sealing_end result ≡ None }
    {
        KeyCache {
            kept: None,
            sealing: None,
        }
    }

    /// Keeps the checksum keys of this end, and lets those of another end go, its sealing keys too. They are derived unless they are there.
    pub fn keep(&mut self, end: &TokenEnd)
        ensures kept { kept_end self.new ≡ Some end.now }
        ensures sealing { IfSome (sealing_end self.new) (λ other. other ≡ end.now) }
    {
        if self.keys_of(end).is_none() {
            self.kept = Some(MicKeys::of(end));
        }
        if self.sealing_of(end).is_none() {
            self.sealing = None;
        }
    }

    /// Keeps the checksum keys and the sealing keys of this end.
    pub fn keep_sealing(&mut self, end: &TokenEnd)
        ensures kept { kept_end self.new ≡ Some end.now }
        ensures sealing { sealing_end self.new ≡ Some end.now }
    {
        self.keep(end);
        if self.sealing.is_none() {
            self.sealing = Some(WrapKeys::of(end));
        }
    }

    /// The checksum keys of this end, where they are kept.
    pub(crate) fn keys_of(&self, end: &TokenEnd) -> Option<&MicKeys>
        ensures kept { IsSome result ↔ (kept_end self.now ≡ Some end.now) }
        ensures end { IfSome result (λ keys. keys.now.end ≡ end.now) }
    {
        match &self.kept {
            Some(keys) if keys.end == *end => Some(keys),
            _ => None,
        }
    }

    /// The sealing keys of this end, where they are kept.
    fn sealing_of(&self, end: &TokenEnd) -> Option<&WrapKeys>
        ensures sealing { IfSome result (λ keys. sealing_end self.now ≡ Some end.now) }
        ensures end { IfSome result (λ keys. keys.now.end ≡ end.now) }
    {
        match &self.sealing {
            Some(sealing) if sealing.end == *end => Some(sealing),
            _ => None,
        }
    }
}

impl TokenEnd {
    /// The checksum of both in a row, as this end makes it.
    pub(crate) fn own_checksum(&self, keys: &LentKeys<'_>, bytes: &[u8], header: &[u8]) -> [u8; 12]
        ensures { result
            ≡ checksum_of self.now.key (sign_usage self.now.side) (bytes.now ++ header.now) }
    {
        if let Some(tag) = keys.known_tag(&self.key, self.side, bytes, header) {
            return tag;
        }
        match keys.cache.keys_of(self) {
            Some(kept) => kept.checksum(bytes, header),
            None => checksum(&self.key, self.side.sign_usage(), bytes, header),
        }
    }

    /// Whether `tag` is the checksum of both in a row, as the other side makes it.
    pub(crate) fn is_others_checksum(
        &self,
        keys: &LentKeys<'_>,
        bytes: &[u8],
        header: &[u8],
        tag: &[u8],
    ) -> bool
        ensures { result ≡ pointwise nat_eq (checksum_of self.now.key
            (sign_usage (other_side self.now.side)) (bytes.now ++ header.now)) tag.now }
    {
        let other = self.side.other();
        if let Some(computed) = keys.known_tag(&self.key, other, bytes, header) {
            return is_tag(&computed, tag);
        }
        match keys.cache.keys_of(self) {
            Some(kept) => kept.verify(bytes, header, tag),
            None => verify(&self.key, other.sign_usage(), bytes, header, tag),
        }
    }

    /// Seals where it stands what is in a vector from `start` on, a confounder first, as this end does, and appends the tag.
    pub(crate) fn seal_behind(
        &self,
        cache: &KeyCache,
        list: &mut Vec<u8>,
        start: usize,
    ) -> Result<(), NoMemory>
        requires { start + 16 ≤ length list.old.items }
        ensures value { OnOk result (list.new.items
            ≡ take start list.old.items ++ seal_of self.now.key (seal_usage self.now.side)
            (take 16 (drop start list.old.items)) (drop 16 (drop start list.old.items))) }
        ensures opens { Opens self.now.key (seal_usage self.now.side) }
    {
        match cache.sealing_of(self) {
            Some(keys) => keys.seal_behind(list, start),
            None => SealKeys::of(&self.key, self.side.seal_usage()).seal_behind(list, start),
        }
    }

    /// Opens where they stand octets that the other side sealed.
    pub(crate) fn open_in(&self, cache: &KeyCache, list: Vec<u8>) -> Result<Piece, OpenRefusal>
        ensures { result
            ≡ opened self.now.key (seal_usage (other_side self.now.side)) list.items }
    {
        match cache.sealing_of(self) {
            Some(keys) => keys.open_in(list),
            None => SealKeys::of(&self.key, self.side.other().seal_usage()).open_in(list),
        }
    }
}
