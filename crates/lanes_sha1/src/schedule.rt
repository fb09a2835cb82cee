// The schedule of four blocks, FIPS 180-4 section 6.1.2, step 1.

ghost use Rattle.std.specs.Prelude.{◌≡◌, ℕ, ◌+◌, ◌<◌, ◌≤◌, List, length, slice_index};
ghost use Rattle.sha1.specs.Sha1.{word_at, next_word};
ghost use Rattle.lanes_sha1.specs.Lanes.{EachLane, words_of, read_lane};
ghost use Rattle.lanes_sha1.specs.Stages.{Scheduled};

use crate::vectors::{rotate, xor};
use std::simd::u32x4;

// The word at octet `at` of a block (section 5.2.1).
#[inline(always)]
fn word(block: &[u8], at: usize) -> u32
    requires { at + 4 ≤ length block.now }
    ensures { result ≡ word_at block.now at }
{
    u32::from_be_bytes([block[at], block[at + 1], block[at + 2], block[at + 3]])
}

// The same of four blocks.
#[inline(always)]
fn word4(blocks: &[&[u8]; 4], at: usize) -> u32x4
    requires { EachLane (λ j. at + 4 ≤ length (read_lane j blocks.now)) }
    ensures { EachLane (λ j. slice_index result j ≡ word_at (read_lane j blocks.now) at) }
{
    u32x4::from_array([
        word(blocks[0], at),
        word(blocks[1], at),
        word(blocks[2], at),
        word(blocks[3], at),
    ])
}

// Word t, from those before it.
#[inline(always)]
fn derived(words: &[u32x4; 80], t: usize) -> u32x4
    requires low { 16 ≤ t }
    requires high { t < 80 }
    ensures { EachLane (λ j. slice_index result j ≡ next_word (words_of j words.now) t) }
{
    let late = xor(words[t - 3], words[t - 8]);
    rotate(xor(xor(late, words[t - 14]), words[t - 16]), 1)
}

/// Writes words 0 to 19 of each block's schedule.
#[inline(always)]
pub fn first_words4(words: &mut [u32x4; 80], blocks: &[&[u8]; 4])
    requires { EachLane (λ j. length (read_lane j blocks.now) ≡ 64) }
    ensures { EachLane (λ j. Scheduled (read_lane j blocks.now) (words_of j words.new) 20) }
{
    'given: for t in 0..16 {
        words[t] = word4(blocks, 4 * t);
    }
    'further: for t in 16..20 {
        words[t] = derived(words, t);
    }
}

/// Writes the five words from word `first` on.
#[inline(always)]
pub fn further_words4(words: &mut [u32x4; 80], first: usize)
    requires low { 16 ≤ first }
    requires high { first ≤ 75 }
    ensures { EachLane (λ j. (block : List ℕ) → Scheduled block (words_of j words.old) first
        → Scheduled block (words_of j words.new) (first + 5)) }
{
    'further: for t in first..first + 5 {
        words[t] = derived(words, t);
    }
}
