//! Keys that are lent for the tokens of a call.

ghost use Rattle.std.specs.Prelude.{◌≡◌, ◌++◌, [], IfSome, None};
ghost use Rattle.sha1.specs.Sha1.{sha1};
ghost use Rattle.krb_derive.specs.Sealing.{checksum_of};
ghost use Rattle.krb_tokens.specs.End.{sign_usage};

use crate::cache::KeyCache;
use crate::end::Side;
use crate::known::{KnownDigest, KnownMic, find_tag};
use krb_derive::Key;

/// The keys of a cache, and checksums and a digest that are known already. A token is made and checked the same, whatever is lent: it
/// can only be done faster.
#[derive(Clone, Copy)]
pub struct LentKeys<'a> {
    pub cache: &'a KeyCache,
    pub mics: &'a [KnownMic<'a>],
    pub digest: Option<&'a KnownDigest<'a>>,
}

impl KeyCache {
    /// These keys alone.
    pub fn lent(&self) -> LentKeys<'_>
        ensures cache { result.cache.now ≡ self.now }
        ensures mics { result.mics.now ≡ [] }
        ensures digest { result.digest ≡ None }
    {
        LentKeys {
            cache: self,
            mics: &[],
            digest: None,
        }
    }
}

impl LentKeys<'_> {
    /// The tag of both in a row under this key, as this side makes it, where it is known.
    pub(crate) fn known_tag(
        &self,
        key: &Key,
        side: Side,
        bytes: &[u8],
        header: &[u8],
    ) -> Option<[u8; 12]>
        ensures { IfSome result (λ tag. tag
            ≡ checksum_of key.now (sign_usage side) (bytes.now ++ header.now)) }
    {
        find_tag(self.mics, key, side, bytes, header)
    }

    /// The SHA-1 of a message, where it is known.
    pub fn known_digest(&self, message: &[u8]) -> Option<[u8; 20]>
        ensures { IfSome result (λ digest. digest ≡ sha1 message.now) }
    {
        self.digest?.digest_of(message)
    }
}
