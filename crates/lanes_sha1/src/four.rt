// Four messages of any lengths, hashed side by side.

ghost use Rattle.std.specs.Prelude.{◌≡◌, ◌≢◌, ℕ, ◌+◌, ◌*◌, ◌%◌, ◌^◌, ◌<◌, ◌≤◌, List, [], ◌∷◌, ◌++◌};
ghost use Rattle.std.specs.Prelude.{length, take, drop, slice_index};
ghost use Rattle.sha1.specs.Sha1.{hash_after, padding, digest_bytes, sha1, initial_hash};
ghost use Rattle.lanes_sha1.specs.Lanes.{EachLane, lane, of_lane, read_lane, block_count};

use crate::blocks::{octets_of, padded_block};
use crate::rounds::compress4;
use std::simd::u32x4;

/// Four hash values side by side, `h0` in lane 0 and so on.
pub fn lanes_of(h0: &[u32; 5], h1: &[u32; 5], h2: &[u32; 5], h3: &[u32; 5]) -> [u32x4; 5]
    ensures { EachLane (λ j. lane j result ≡ of_lane j (h0.now ∷ h1.now ∷ h2.now ∷ h3.now ∷ [])) }
{
    [
        u32x4::from_array([h0[0], h1[0], h2[0], h3[0]]),
        u32x4::from_array([h0[1], h1[1], h2[1], h3[1]]),
        u32x4::from_array([h0[2], h1[2], h2[2], h3[2]]),
        u32x4::from_array([h0[3], h1[3], h2[3], h3[3]]),
        u32x4::from_array([h0[4], h1[4], h2[4], h3[4]]),
    ]
}

/// The hash value of lane `j`.
pub fn lane_words(states: &[u32x4; 5], j: usize) -> [u32; 5]
    requires { j < 4 }
    ensures { result ≡ lane j states.now }
{
    [
        states[0].to_array()[j],
        states[1].to_array()[j],
        states[2].to_array()[j],
        states[3].to_array()[j],
        states[4].to_array()[j],
    ]
}

/// The initial hash value in each lane (FIPS 180-4 section 5.3.1).
pub fn first_states() -> [u32x4; 5]
    ensures { EachLane (λ j. lane j result ≡ initial_hash) }
{
    [
        u32x4::splat(0x6745_2301),
        u32x4::splat(0xEFCD_AB89),
        u32x4::splat(0x98BA_DCFE),
        u32x4::splat(0x1032_5476),
        u32x4::splat(0xC3D2_E1F0),
    ]
}

// Block `i` of a message.
#[inline(always)]
fn block_at(message: &[u8], i: usize) -> &[u8]
    requires { 64 * i + 64 ≤ length message.now }
    ensures octets { result.now ≡ take 64 (drop (64 * i) message.now) }
    ensures len { length result.now ≡ 64 }
{
    &message[64 * i..64 * i + 64]
}

/// Takes in the first `count` blocks, of 64 octets each, of a piece of each lane's message.
///
/// A message may come in any number of such pieces; `finish4` takes the last.
pub fn advance4(states: &mut [u32x4; 5], count: usize, messages: &[&[u8]; 4])
    requires { EachLane (λ j. 64 * count ≤ length (read_lane j messages.now)) }
    // p is what a lane has taken in before, n blocks of it
    ensures { EachLane (λ j. (p : List ℕ) (n : ℕ) → length p ≡ 64 * n
        → lane j states.old ≡ hash_after p n
        → lane j states.new
        ≡ hash_after (p ++ take (64 * count) (read_lane j messages.now)) (n + count)) }
{
    let [m0, m1, m2, m3] = *messages;
    'whole: for i in 0..count {
        let b0 = block_at(m0, i);
        let b1 = block_at(m1, i);
        let b2 = block_at(m2, i);
        let b3 = block_at(m3, i);
        compress4(states, &[b0, b1, b2, b3]);
    }
}

// The length of a message in octets, of which `before` blocks went before its rest.
fn total_octets(before: u64, rest: &[u8]) -> u64
    requires { before < 2 ^ 50 }
    ensures { result ≡ before * 64 + length rest.now }
{
    before * 64 + rest.len() as u64
}

// The blocks that a message, or what is left of it after whole blocks, takes with its padding.
fn count_blocks(rest: &[u8]) -> usize
    ensures { result ≡ block_count rest.now }
{
    (rest.len() + 8) / 64 + 1
}

// Block `i` of what is left with its padding, or zeros after its last block, where the lane idles.
fn block_or_zeros(rest: &[u8], total: u64, i: usize) -> [u8; 64]
    requires edge { total % 64 ≡ length rest.now % 64 }
    ensures { i < block_count rest.now
        → result ≡ take 64 (drop (i * 64) (rest.now ++ padding total)) }
{
    if i < count_blocks(rest) {
        return padded_block(rest, total, i);
    }
    [0; 64]
}

// Keeps the digest of lane `j` once it has taken the last of its `count` blocks.
fn note(digest: &mut [u8; 20], states: &[u32x4; 5], j: usize, taken: usize, count: usize)
    requires { j < 4 }
    ensures done { taken ≡ count → digest.new ≡ digest_bytes (lane j states.now) 5 }
    ensures kept { taken ≢ count → digest.new ≡ digest.old }
{
    if taken == count {
        *digest = octets_of(&lane_words(states, j));
    }
}

/// The digests of four messages. Lane j of `start` has taken in the first `before[j]` blocks of its message, of
/// 64 octets each and fewer than 2^50; `messages[j]` is what is left of it, of any length.
///
/// It takes as many passes as the longest of them has blocks left.
pub fn finish4(start: &[u32x4; 5], before: &[u64; 4], messages: &[&[u8]; 4]) -> [[u8; 20]; 4]
    requires { EachLane (λ j. slice_index before.now j < 2 ^ 50) }
    // p is what a lane has taken in before
    ensures { EachLane (λ j. (p : List ℕ) → length p ≡ 64 * slice_index before.now j
        → lane j start.now ≡ hash_after p (slice_index before.now j)
        → of_lane j result ≡ sha1 (p ++ read_lane j messages.now)) }
{
    let [m0, m1, m2, m3] = *messages;
    let whole = m0.len().min(m1.len()).min(m2.len()).min(m3.len()) / 64;
    let mut states = *start;
    advance4(&mut states, whole, messages);
    let total0 = total_octets(before[0], m0);
    let total1 = total_octets(before[1], m1);
    let total2 = total_octets(before[2], m2);
    let total3 = total_octets(before[3], m3);
    let count0 = count_blocks(m0);
    let count1 = count_blocks(m1);
    let count2 = count_blocks(m2);
    let count3 = count_blocks(m3);
    let most = count0.max(count1).max(count2).max(count3);
    let mut d0 = [0u8; 20];
    let mut d1 = [0u8; 20];
    let mut d2 = [0u8; 20];
    let mut d3 = [0u8; 20];
    'last: for i in whole..most {
        let b0 = block_or_zeros(m0, total0, i);
        let b1 = block_or_zeros(m1, total1, i);
        let b2 = block_or_zeros(m2, total2, i);
        let b3 = block_or_zeros(m3, total3, i);
        compress4(&mut states, &[&b0, &b1, &b2, &b3]);
        note(&mut d0, &states, 0, i + 1, count0);
        note(&mut d1, &states, 1, i + 1, count1);
        note(&mut d2, &states, 2, i + 1, count2);
        note(&mut d3, &states, 3, i + 1, count3);
    }
    [d0, d1, d2, d3]
}

/// The digests of four messages, in as many passes as the longest of them takes blocks.
pub fn digest4(messages: &[&[u8]; 4]) -> [[u8; 20]; 4]
    ensures { EachLane (λ j. of_lane j result ≡ sha1 (read_lane j messages.now)) }
{
    finish4(&first_states(), &[0; 4], messages)
}
