// The 80 rounds on four blocks, FIPS 180-4 section 6.1.2, steps 2 to 4, with the constants of section 4.2.1.

ghost use Rattle.std.specs.Prelude.{◌≡◌, ℕ, ◌+◌, ◌<◌, ◌≤◌, List, length, slice_index};
ghost use Rattle.sha1.specs.Sha1.{ch, parity, maj, add_state, compress};
ghost use Rattle.lanes_sha1.specs.Lanes.{EachLane, lane, words_of, read_lane};
ghost use Rattle.lanes_sha1.specs.Stages.{function_of, IsRound, AreRounds, Scheduled};
ghost use Rattle.lanes_sha1.specs.Stages.{working_after};

use crate::schedule::{first_words4, further_words4};
use crate::vectors::{add, and, not, rotate, xor};
use std::simd::u32x4;

// The functions of the rounds (section 4.1.1).
#[derive(Clone, Copy)]
enum RoundFunction {
    Choose,
    Parity,
    Majority,
}

#[inline(always)]
fn choose(x: u32x4, y: u32x4, z: u32x4) -> u32x4
    ensures { EachLane (λ j. slice_index result j
        ≡ ch (slice_index x j) (slice_index y j) (slice_index z j)) }
{
    xor(and(x, y), and(not(x), z))
}

#[inline(always)]
fn parity(x: u32x4, y: u32x4, z: u32x4) -> u32x4
    ensures { EachLane (λ j. slice_index result j
        ≡ parity (slice_index x j) (slice_index y j) (slice_index z j)) }
{
    xor(xor(x, y), z)
}

#[inline(always)]
fn majority(x: u32x4, y: u32x4, z: u32x4) -> u32x4
    ensures { EachLane (λ j. slice_index result j
        ≡ maj (slice_index x j) (slice_index y j) (slice_index z j)) }
{
    xor(xor(and(x, y), and(x, z)), and(y, z))
}

#[inline(always)]
fn applied(function: RoundFunction, x: u32x4, y: u32x4, z: u32x4) -> u32x4
    ensures { EachLane (λ j. slice_index result j
        ≡ function_of function (slice_index x j) (slice_index y j) (slice_index z j)) }
{
    match function {
        RoundFunction::Choose => choose(x, y, z),
        RoundFunction::Parity => parity(x, y, z),
        RoundFunction::Majority => majority(x, y, z),
    }
}

// Round t of the working variables (step 3), by its function and its constant.
#[inline(always)]
fn round4(
    working: [u32x4; 5],
    words: &[u32x4; 80],
    t: usize,
    function: RoundFunction,
    constant: u32,
) -> [u32x4; 5]
    requires within { t < 80 }
    requires round { IsRound function constant t }
    ensures { EachLane (λ j. (block h : List ℕ) → Scheduled block (words_of j words.now) (t + 1)
        → lane j working ≡ working_after block h t
        → lane j result ≡ working_after block h (t + 1)) }
{
    let [a, b, c, d, e] = working;
    let turned = add(add(rotate(a, 5), applied(function, b, c, d)), e);
    let first = add(add(turned, u32x4::splat(constant)), words[t]);
    [first, a, rotate(b, 30), c, d]
}

// The five rounds from round t on, which bring each variable back to its place.
#[inline(always)]
fn five4(
    working: [u32x4; 5],
    words: &[u32x4; 80],
    t: usize,
    function: RoundFunction,
    constant: u32,
) -> [u32x4; 5]
    requires within { t ≤ 75 }
    requires rounds { AreRounds function constant t 5 }
    ensures { EachLane (λ j. (block h : List ℕ) → Scheduled block (words_of j words.now) (t + 5)
        → lane j working ≡ working_after block h t
        → lane j result ≡ working_after block h (t + 5)) }
{
    let one = round4(working, words, t, function, constant);
    let two = round4(one, words, t + 1, function, constant);
    let three = round4(two, words, t + 2, function, constant);
    let four = round4(three, words, t + 3, function, constant);
    round4(four, words, t + 4, function, constant)
}

// The twenty rounds from round `first` on, by one function and one constant. The words of the next twenty are
// written beside them, so that a processor does both at once.
#[inline(always)]
fn stage4(
    start: [u32x4; 5],
    words: &mut [u32x4; 80],
    first: usize,
    function: RoundFunction,
    constant: u32,
) -> [u32x4; 5]
    requires within { first ≤ 40 }
    requires rounds { AreRounds function constant first 20 }
    ensures { EachLane (λ j. (block h : List ℕ)
        → Scheduled block (words_of j words.old) (first + 20)
        → lane j start ≡ working_after block h first
        → Scheduled block (words_of j words.new) (first + 40)
        × (lane j result ≡ working_after block h (first + 20))) }
{
    let mut working = start;
    'fives: for five in 0..4 {
        let t = first + 5 * five;
        further_words4(words, t + 20);
        let turned = five4(working, words, t, function, constant);
        working = turned;
    }
    working
}

// The last twenty rounds, whose words are all there.
#[inline(always)]
fn last_stage4(start: [u32x4; 5], words: &[u32x4; 80]) -> [u32x4; 5]
    ensures { EachLane (λ j. (block h : List ℕ) → Scheduled block (words_of j words.now) 80
        → lane j start ≡ working_after block h 60
        → lane j result ≡ working_after block h 80) }
{
    let mut working = start;
    'fives: for five in 0..4 {
        let turned = five4(
            working,
            words,
            60 + 5 * five,
            RoundFunction::Parity,
            0xCA62_C1D6,
        );
        working = turned;
    }
    working
}

// Adds the working variables to the hash value (step 4).
#[inline(always)]
fn add_working(value: [u32x4; 5], working: [u32x4; 5]) -> [u32x4; 5]
    ensures { EachLane (λ j. lane j result ≡ add_state (lane j value) (lane j working)) }
{
    let [h0, h1, h2, h3, h4] = value;
    let [a, b, c, d, e] = working;
    [add(h0, a), add(h1, b), add(h2, c), add(h3, d), add(h4, e)]
}

/// Takes a block of 64 octets into each lane's hash value: `blocks[0]` into lane 0, and so on.
pub fn compress4(states: &mut [u32x4; 5], blocks: &[&[u8]; 4])
    requires { EachLane (λ j. length (read_lane j blocks.now) ≡ 64) }
    ensures { EachLane (λ j. lane j states.new
        ≡ compress (lane j states.old) (read_lane j blocks.now)) }
{
    let mut words = [u32x4::splat(0); 80];
    first_words4(&mut words, blocks);
    let after20 = stage4(*states, &mut words, 0, RoundFunction::Choose, 0x5A82_7999);
    let after40 = stage4(after20, &mut words, 20, RoundFunction::Parity, 0x6ED9_EBA1);
    let after60 = stage4(
        after40,
        &mut words,
        40,
        RoundFunction::Majority,
        0x8F1B_BCDC,
    );
    let after80 = last_stage4(after60, &words);
    *states = add_working(*states, after80);
}
