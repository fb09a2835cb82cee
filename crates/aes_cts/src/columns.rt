// Columns of the state as words of 32 bits, the octet of row 0 on top, and the rounds of FIPS 197 on them.

ghost use Rattle.std.specs.Prelude.{◌≡◌, ◌+◌, ◌<◌, ◌≤◌, length};
ghost use Rattle.aes_cts.specs.Words.{state_of, state_at};
ghost use Rattle.aes_cts.specs.State.{octet_of, column_of, column_from, state_from, state_octets};
ghost use Rattle.aes_cts.specs.State.{across, add_column, sub_column, inverse_sub_column};
ghost use Rattle.aes_cts.specs.State.{mix_column, inverse_mix_column, add_state, sub_bytes};
ghost use Rattle.aes_cts.specs.State.{inverse_sub_bytes, shift_rows, inverse_shift_rows};
ghost use Rattle.aes_cts.specs.State.{mix_columns, inverse_mix_columns};

use crate::tables::{mix0, mix1, mix2, mix3, sub, unmix0, unmix1, unmix2, unmix3, unsub};

/// A state, column by column.
#[derive(Clone, Copy)]
pub struct Columns {
    pub first: u32,
    pub second: u32,
    pub third: u32,
    pub fourth: u32,
}

#[inline]
pub fn octet(word: u32, shift: u32) -> usize
    requires { shift < 32 }
    ensures value { result ≡ octet_of word shift }
    ensures small { result < 256 }
{
    (word >> shift & 0xff) as usize
}

// The word of four octets from `at` on.
#[inline]
pub fn word_at(octets: &[u8], at: usize) -> u32
    requires { at + 4 ≤ length octets.now }
    ensures { column_of result ≡ column_from octets.now at }
{
    u32::from_be_bytes([octets[at], octets[at + 1], octets[at + 2], octets[at + 3]])
}

#[inline]
pub fn state_words(block: &[u8]) -> Columns
    requires { length block.now ≡ 16 }
    ensures { state_of result ≡ state_from block.now }
{
    Columns {
        first: word_at(block, 0),
        second: word_at(block, 4),
        third: word_at(block, 8),
        fourth: word_at(block, 12),
    }
}

#[inline]
pub fn block_of(state: Columns) -> [u8; 16]
    ensures { result ≡ state_octets (state_of state) }
{
    let first = state.first.to_be_bytes();
    let second = state.second.to_be_bytes();
    let third = state.third.to_be_bytes();
    let fourth = state.fourth.to_be_bytes();
    let mut block = [0u8; 16];
    block[..4].copy_from_slice(&first);
    block[4..8].copy_from_slice(&second);
    block[8..12].copy_from_slice(&third);
    block[12..].copy_from_slice(&fourth);
    block
}

// SubBytes of the column whose rows stand in these four.
#[inline]
pub fn substitute(a: u32, b: u32, c: u32, d: u32) -> u32
    ensures { column_of result
        ≡ sub_column (across (column_of a) (column_of b) (column_of c) (column_of d)) }
{
    u32::from_be_bytes([
        sub(octet(a, 24)),
        sub(octet(b, 16)),
        sub(octet(c, 8)),
        sub(octet(d, 0)),
    ])
}

#[inline]
fn unsubstitute(a: u32, b: u32, c: u32, d: u32) -> u32
    ensures { column_of result
        ≡ inverse_sub_column (across (column_of a) (column_of b) (column_of c) (column_of d)) }
{
    u32::from_be_bytes([
        unsub(octet(a, 24)),
        unsub(octet(b, 16)),
        unsub(octet(c, 8)),
        unsub(octet(d, 0)),
    ])
}

// A column of a round: MixColumns after SubBytes of the column whose rows stand in these four, with a word of the key.
// The word of the key comes first in the sum and the last row next: in another order the compiler keeps octets on the stack, and each round waits for them.
#[inline]
fn mix(key: u32, a: u32, b: u32, c: u32, d: u32) -> u32
    ensures { column_of result ≡ add_column
        (mix_column (sub_column (across (column_of a) (column_of b) (column_of c) (column_of d))))
        (column_of key) }
{
    key ^ mix3(octet(d, 0)) ^ mix2(octet(c, 8)) ^ mix0(octet(a, 24)) ^ mix1(octet(b, 16))
}

#[inline]
fn unmix(key: u32, a: u32, b: u32, c: u32, d: u32) -> u32
    ensures { column_of result ≡ add_column (inverse_mix_column (inverse_sub_column
        (across (column_of a) (column_of b) (column_of c) (column_of d)))) (column_of key) }
{
    key ^ unmix3(octet(d, 0)) ^ unmix2(octet(c, 8)) ^ unmix0(octet(a, 24)) ^ unmix1(octet(b, 16))
}

// InvMixColumns of a word of the key schedule.
pub fn unmixed(word: u32) -> u32
    ensures { column_of result ≡ inverse_mix_column (column_of word) }
{
    let put = substitute(word, word, word, word);
    unmix(0, put, put, put, put)
}

#[inline]
pub fn add(s: Columns, words: &[u32; 60], at: usize) -> Columns
    requires { at + 4 ≤ 60 }
    ensures { state_of result ≡ add_state (state_of s) (state_at words.now at) }
{
    Columns {
        first: s.first ^ words[at],
        second: s.second ^ words[at + 1],
        third: s.third ^ words[at + 2],
        fourth: s.fourth ^ words[at + 3],
    }
}

#[inline]
pub fn round(s: Columns, words: &[u32; 60], at: usize) -> Columns
    requires { at + 4 ≤ 60 }
    ensures { state_of result
        ≡ add_state (mix_columns (shift_rows (sub_bytes (state_of s)))) (state_at words.now at) }
{
    let Columns {
        first: a,
        second: b,
        third: c,
        fourth: d,
    } = s;
    Columns {
        first: mix(words[at], a, b, c, d),
        second: mix(words[at + 1], b, c, d, a),
        third: mix(words[at + 2], c, d, a, b),
        fourth: mix(words[at + 3], d, a, b, c),
    }
}

#[inline]
pub fn last_round(s: Columns, words: &[u32; 60], at: usize) -> Columns
    requires { at + 4 ≤ 60 }
    ensures { state_of result
        ≡ add_state (shift_rows (sub_bytes (state_of s))) (state_at words.now at) }
{
    let Columns {
        first: a,
        second: b,
        third: c,
        fourth: d,
    } = s;
    let put = Columns {
        first: substitute(a, b, c, d),
        second: substitute(b, c, d, a),
        third: substitute(c, d, a, b),
        fourth: substitute(d, a, b, c),
    };
    add(put, words, at)
}

// A round of the inverse; its key has gone through InvMixColumns too.
#[inline]
pub fn inverse_round(s: Columns, words: &[u32; 60], at: usize) -> Columns
    requires { at + 4 ≤ 60 }
    ensures { state_of result
        ≡ add_state (inverse_mix_columns (inverse_sub_bytes (inverse_shift_rows (state_of s))))
        (state_at words.now at) }
{
    let Columns {
        first: a,
        second: b,
        third: c,
        fourth: d,
    } = s;
    Columns {
        first: unmix(words[at], a, d, c, b),
        second: unmix(words[at + 1], b, a, d, c),
        third: unmix(words[at + 2], c, b, a, d),
        fourth: unmix(words[at + 3], d, c, b, a),
    }
}

#[inline]
pub fn inverse_last_round(s: Columns, words: &[u32; 60], at: usize) -> Columns
    requires { at + 4 ≤ 60 }
    ensures { state_of result
        ≡ add_state (inverse_sub_bytes (inverse_shift_rows (state_of s))) (state_at words.now at) }
{
    let Columns {
        first: a,
        second: b,
        third: c,
        fourth: d,
    } = s;
    let put = Columns {
        first: unsubstitute(a, d, c, b),
        second: unsubstitute(b, a, d, c),
        third: unsubstitute(c, b, a, d),
        fourth: unsubstitute(d, c, b, a),
    };
    add(put, words, at)
}
