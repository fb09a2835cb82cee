//! Checksums of MIC tokens, and a digest, that are known before they are asked for.

ghost use Rattle.std.specs.Prelude.{◌≡◌, ◌++◌, IfSome};
ghost use Rattle.sha1.specs.Sha1.{sha1};
ghost use Rattle.krb_derive.specs.Sealing.{checksum_of};
ghost use Rattle.krb_tokens.specs.End.{sign_usage};

use crate::end::Side;
use krb_derive::Key;

/// A MIC token of a context, as far as its checksum depends on it.
#[derive(Clone, Copy)]
pub struct MicTask<'a> {
    /// The side that makes the token.
    pub side: Side,
    pub message: &'a [u8],
    /// Octets 0 to 15 of the token.
    pub header: [u8; 16],
}

/// The checksum of such a token under the key of its context.
#[derive(Drop)]
pub struct KnownMic<'a> {
    key: Key,
    task: MicTask<'a>,
    tag: [u8; 12],
    ghost is_checksum: { tag
        ≡ checksum_of key (sign_usage task.side) (task.message.now ++ task.header) },
}

impl<'a> KnownMic<'a> {
    ghost use Rattle.krb_tokens.specs.Known.{IsKnown, IsTagOf};

    pub(crate) fn new(key: &Key, task: &MicTask<'a>, tag: &[u8; 12]) -> KnownMic<'a>
        requires { IsTagOf key.now task.now tag.now }
        ensures { IsKnown key.now task.now result }
    {
        KnownMic {
            key: *key,
            task: *task,
            tag: *tag,
        }
    }

    /// The tag, where it is that of both in a row, as this side makes it.
    ///
    /// What differs more often is compared first.
    fn tag_of(&self, key: &Key, side: Side, message: &[u8], header: &[u8]) -> Option<[u8; 12]>
        ensures { IfSome result (λ tag. tag
            ≡ checksum_of key.now (sign_usage side) (message.now ++ header.now)) }
    {
        let task = &self.task;
        if task.side == side
            && task.header.as_slice() == header
            && task.message == message
            && self.key == *key
        {
            let tag = self.tag;
            return Some(tag);
        }
        None
    }
}

/// The tag of both in a row under this key, as this side makes it, where it is one of those that are known.
pub(crate) fn find_tag(
    known: &[KnownMic<'_>],
    key: &Key,
    side: Side,
    message: &[u8],
    header: &[u8],
) -> Option<[u8; 12]>
    ensures { IfSome result (λ tag. tag
        ≡ checksum_of key.now (sign_usage side) (message.now ++ header.now)) }
{
    for mic in known {
        match mic.tag_of(key, side, message, header) {
            Some(tag) => return Some(tag),
            None => {}
        }
    }
    None
}

/// The SHA-1 of a message.
#[derive(Drop)]
pub struct KnownDigest<'a> {
    message: &'a [u8],
    digest: [u8; 20],
    ghost is_digest: { digest ≡ sha1 message.now },
}

impl<'a> KnownDigest<'a> {
    pub(crate) fn new(message: &'a [u8], digest: &[u8; 20]) -> KnownDigest<'a>
        requires { digest.now ≡ sha1 message.now }
        ensures { result.message.now ≡ message.now }
    {
        KnownDigest {
            message,
            digest: *digest,
        }
    }

    /// The digest, where it is that of this message.
    pub fn digest_of(&self, message: &[u8]) -> Option<[u8; 20]>
        ensures { IfSome result (λ digest. digest ≡ sha1 message.now) }
    {
        if self.message == message {
            let digest = self.digest;
            return Some(digest);
        }
        None
    }
}

/// The checksums of four short tokens.
#[derive(Drop)]
pub struct KnownMics<'a> {
    pub mics: [KnownMic<'a>; 4],
}

/// The checksums of two tokens, and a digest.
#[derive(Drop)]
pub struct KnownPair<'a> {
    pub mics: [KnownMic<'a>; 2],
    pub digest: KnownDigest<'a>,
}
