//! Codes that are made side by side.

ghost use Rattle.std.specs.Prelude.{◌≡◌, ◌^◌, ◌<◌, length};
ghost use Rattle.sha1.specs.Sha1.{sha1};
ghost use Rattle.mac_sha1.specs.Four.{AreShort, GoBeside, IsCodeOf};

use crate::ready::MacKey;
use lanes_sha1::{finish4, finish4_of_pieces, first_states, lane_words, lanes_of};

/// A code that is due: that of two pieces in a row, under a key.
#[derive(Clone, Copy)]
pub struct MacTask<'a> {
    pub key: &'a MacKey,
    pub front: &'a [u8],
    pub back: &'a [u8],
}

/// Four codes of at most 128 octets each, in as many passes as the longest of them takes blocks, and one more.
pub fn codes4(
    first: &MacTask<'_>,
    second: &MacTask<'_>,
    third: &MacTask<'_>,
    fourth: &MacTask<'_>,
) -> ([u8; 20], [u8; 20], [u8; 20], [u8; 20])
    requires first { AreShort first.now.front.now first.now.back.now }
    requires second { AreShort second.now.front.now second.now.back.now }
    requires third { AreShort third.now.front.now third.now.back.now }
    requires fourth { AreShort fourth.now.front.now fourth.now.back.now }
    ensures first { IsCodeOf first.now result.0 }
    ensures second { IsCodeOf second.now result.1 }
    ensures third { IsCodeOf third.now result.2 }
    ensures fourth { IsCodeOf fourth.now result.3 }
{
    let (k0, k1, k2, k3) = (first.key, second.key, third.key, fourth.key);
    let inner = lanes_of(&k0.inner, &k1.inner, &k2.inner, &k3.inner);
    let fronts = [first.front, second.front, third.front, fourth.front];
    let backs = [first.back, second.back, third.back, fourth.back];
    let [d0, d1, d2, d3] = finish4_of_pieces(&inner, &[1; 4], 0, &fronts, &backs);
    let outer = lanes_of(&k0.outer, &k1.outer, &k2.outer, &k3.outer);
    let [c0, c1, c2, c3] = finish4(&outer, &[1; 4], &[&d0, &d1, &d2, &d3]);
    (c0, c1, c2, c3)
}

/// Two codes and the digest of a message that is about as long, in as many passes as the longest of them takes blocks,
/// and one more.
pub fn codes_and_digest(
    first: &MacTask<'_>,
    second: &MacTask<'_>,
    message: &[u8],
) -> ([u8; 20], [u8; 20], [u8; 20])
    requires size { length message.now < 2 ^ 32 }
    requires first { GoBeside (length message.now) first.now.front.now first.now.back.now }
    requires second { GoBeside (length message.now) second.now.front.now second.now.back.now }
    ensures first { IsCodeOf first.now result.0 }
    ensures second { IsCodeOf second.now result.1 }
    ensures digest { result.2 ≡ sha1 message.now }
{
    let (k0, k1) = (first.key, second.key);
    let none = lane_words(&first_states(), 0);
    let inner = lanes_of(&k0.inner, &k1.inner, &none, &none);
    let fronts = [first.front, second.front, message, message];
    let no_octets: &[u8] = &[];
    let backs = [first.back, second.back, no_octets, no_octets];
    let count = message.len() / 64;
    let [d0, d1, digest, _] = finish4_of_pieces(&inner, &[1, 1, 0, 0], count, &fronts, &backs);
    let outer = lanes_of(&k0.outer, &k1.outer, &k0.outer, &k1.outer);
    let [c0, c1, _, _] = finish4(&outer, &[1; 4], &[&d0, &d1, &d0, &d1]);
    (c0, c1, digest)
}
