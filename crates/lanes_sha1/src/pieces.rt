// Messages that come in two pieces, of which the second is short.

ghost use Rattle.std.specs.Prelude.{◌≡◌, ℕ, ◌+◌, ◌*◌, ◌^◌, ◌<◌, ◌≤◌, List, ◌++◌};
ghost use Rattle.std.specs.Prelude.{length, take, drop, slice_index};
ghost use Rattle.sha1.specs.Sha1.{hash_after, sha1};
ghost use Rattle.lanes_sha1.specs.Lanes.{EachLane, lane, of_lane, read_lane};

use crate::four::{advance4, finish4};
use std::simd::u32x4;

// What is left of a message after `taken` octets of its first piece, in front of zeros, and its length.
fn joined(first: &[u8], taken: usize, second: &[u8]) -> ([u8; 128], usize)
    requires low { taken ≤ length first.now }
    requires high { length first.now + length second.now ≤ taken + 128 }
    ensures within { result.1 ≤ 128 }
    ensures octets { take result.1 result.0 ≡ drop taken first.now ++ second.now }
{
    let rest = &first[taken..];
    let len = rest.len() + second.len();
    let mut octets = [0u8; 128];
    octets[..rest.len()].copy_from_slice(rest);
    octets[rest.len()..len].copy_from_slice(second);
    (octets, len)
}

/// As `finish4`, where what is left of lane j's message comes in two pieces, `first[j]` and `second[j]`.
///
/// The first `count` blocks of each first piece are read where they lie. At most 128 octets of each message
/// may be left after them, which are joined. `before[j]` and `count` are below 2^49.
pub fn finish4_of_pieces(
    start: &[u32x4; 5],
    before: &[u64; 4],
    count: usize,
    first: &[&[u8]; 4],
    second: &[&[u8]; 4],
) -> [[u8; 20]; 4]
    requires before { EachLane (λ j. slice_index before.now j < 2 ^ 49) }
    requires count { count < 2 ^ 49 }
    requires whole { EachLane (λ j. 64 * count ≤ length (read_lane j first.now)) }
    requires left { EachLane (λ j. length (read_lane j first.now) + length (read_lane j second.now)
        ≤ 64 * count + 128) }
    // p is what a lane has taken in before
    ensures { EachLane (λ j. (p : List ℕ) → length p ≡ 64 * slice_index before.now j
        → lane j start.now ≡ hash_after p (slice_index before.now j)
        → of_lane j result
        ≡ sha1 (p ++ (read_lane j first.now ++ read_lane j second.now))) }
{
    let mut states = *start;
    advance4(&mut states, count, first);
    let at = 64 * count;
    let more = count as u64;
    let sums = [
        before[0] + more,
        before[1] + more,
        before[2] + more,
        before[3] + more,
    ];
    let [a0, a1, a2, a3] = *first;
    let [b0, b1, b2, b3] = *second;
    let (r0, len0) = joined(a0, at, b0);
    let (r1, len1) = joined(a1, at, b1);
    let (r2, len2) = joined(a2, at, b2);
    let (r3, len3) = joined(a3, at, b3);
    finish4(
        &states,
        &sums,
        &[&r0[..len0], &r1[..len1], &r2[..len2], &r3[..len3]],
    )
}
