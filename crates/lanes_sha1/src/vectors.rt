// The operations on words of FIPS 180-4 section 3.2, on four words at once.

ghost use Rattle.std.specs.Prelude.{◌≡◌, ◌<◌, bit_and, bit_xor, slice_index};
ghost use Rattle.std.specs.Int.{w32, bit_not, rotate_left};
ghost use Rattle.sha1.specs.Sha1.{add32};
ghost use Rattle.lanes_sha1.specs.Lanes.{EachLane};

use std::simd::u32x4;

#[inline(always)]
pub fn and(x: u32x4, y: u32x4) -> u32x4
    ensures { EachLane (λ j. slice_index result j ≡ bit_and (slice_index x j) (slice_index y j)) }
{
    x & y
}

#[inline(always)]
pub fn xor(x: u32x4, y: u32x4) -> u32x4
    ensures { EachLane (λ j. slice_index result j ≡ bit_xor (slice_index x j) (slice_index y j)) }
{
    x ^ y
}

#[inline(always)]
pub fn not(x: u32x4) -> u32x4
    ensures { EachLane (λ j. slice_index result j ≡ bit_not w32 (slice_index x j)) }
{
    !x
}

#[inline(always)]
pub fn add(x: u32x4, y: u32x4) -> u32x4
    ensures { EachLane (λ j. slice_index result j ≡ add32 (slice_index x j) (slice_index y j)) }
{
    x + y
}

// ROTL of `bits` bits.
#[inline(always)]
pub fn rotate(x: u32x4, bits: u32) -> u32x4
    requires low { 0 < bits }
    requires high { bits < 32 }
    ensures { EachLane (λ j. slice_index result j ≡ rotate_left w32 (slice_index x j) bits) }
{
    (x << u32x4::splat(bits)) | (x >> u32x4::splat(32 - bits))
}
