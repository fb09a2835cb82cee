//! Checksums that are made side by side.

ghost use Rattle.std.specs.Prelude.{◌≡◌, ◌^◌, ◌<◌, length};
ghost use Rattle.sha1.specs.Sha1.{sha1};
ghost use Rattle.krb_derive.specs.SideBySide.{AsksFor, IsBeside, IsChecksumOf, IsShort};

use crate::checks::{CheckKey, tag_of};
use mac_sha1::{MacTask, codes_and_digest, codes4};

/// A checksum that is due: that of two pieces in a row, under a checksum key.
#[derive(Clone, Copy)]
pub struct CheckTask<'a> {
    pub key: &'a CheckKey,
    pub front: &'a [u8],
    pub back: &'a [u8],
}

// The code whose front the checksum is.
fn code_for<'a>(task: &CheckTask<'a>) -> MacTask<'a>
    ensures { AsksFor result task.now }
{
    MacTask {
        key: &task.key.ready,
        front: task.front,
        back: task.back,
    }
}

/// Four checksums of at most 128 octets each.
pub fn checksums4(
    first: &CheckTask<'_>,
    second: &CheckTask<'_>,
    third: &CheckTask<'_>,
    fourth: &CheckTask<'_>,
) -> ([u8; 12], [u8; 12], [u8; 12], [u8; 12])
    requires first { IsShort first.now }
    requires second { IsShort second.now }
    requires third { IsShort third.now }
    requires fourth { IsShort fourth.now }
    ensures first { IsChecksumOf first.now result.0 }
    ensures second { IsChecksumOf second.now result.1 }
    ensures third { IsChecksumOf third.now result.2 }
    ensures fourth { IsChecksumOf fourth.now result.3 }
{
    let (c0, c1, c2, c3) = codes4(
        &code_for(first),
        &code_for(second),
        &code_for(third),
        &code_for(fourth),
    );
    (tag_of(c0), tag_of(c1), tag_of(c2), tag_of(c3))
}

/// Two checksums and the SHA-1 of a message that is about as long.
pub fn checksums_and_digest(
    first: &CheckTask<'_>,
    second: &CheckTask<'_>,
    message: &[u8],
) -> ([u8; 12], [u8; 12], [u8; 20])
    requires size { length message.now < 2 ^ 32 }
    requires first { IsBeside (length message.now) first.now }
    requires second { IsBeside (length message.now) second.now }
    ensures first { IsChecksumOf first.now result.0 }
    ensures second { IsChecksumOf second.now result.1 }
    ensures digest { result.2 ≡ sha1 message.now }
{
    let (c0, c1, digest) = codes_and_digest(&code_for(first), &code_for(second), message);
    (tag_of(c0), tag_of(c1), digest)
}
