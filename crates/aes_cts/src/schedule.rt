// The words of a key's rounds, FIPS 197 section 5.2, and those of the inverse.

ghost use Rattle.std.specs.Prelude.{◌≡◌, ℕ, ◌+◌, ◌-◌, ◌*◌, ◌<◌, ◌≤◌, ◌⊎◌, length, take};
ghost use Rattle.std.specs.Prelude.{slice_index};
ghost use Rattle.aes_cts.specs.State.{column_of, add_column, sub_column, rotate_column};
ghost use Rattle.aes_cts.specs.State.{inverse_mix_column};
ghost use Rattle.aes_cts.specs.Schedule.{column_at, key_schedule, round_constant, turned};

use crate::columns::{octet, substitute, unmixed, word_at};
use crate::tables::{constant, sub};

// RotWord, SubWord and the round constant of that number.
fn turned_first(before: u32, number: usize) -> u32
    requires low { 0 < number }
    requires high { number < 11 }
    ensures { column_of result
        ≡ add_column (sub_column (rotate_column (column_of before))) (round_constant number) }
{
    let put = u32::from_be_bytes([
        sub(octet(before, 16)),
        sub(octet(before, 8)),
        sub(octet(before, 0)),
        sub(octet(before, 24)),
    ]);
    put ^ u32::from_be_bytes([constant(number), 0, 0, 0])
}

// What is added to the word `size` places before word `i`.
fn turned(before: u32, size: usize, i: usize) -> u32
    requires sized { (size ≡ 4) ⊎ (size ≡ 8) }
    requires low { size ≤ i }
    requires high { i < 4 * size + 28 }
    ensures { column_of result ≡ turned size i (column_of before) }
{
    if i % size == 0 {
        turned_first(before, i / size)
    } else if size > 6 && i % size == 4 {
        substitute(before, before, before, before)
    } else {
        before
    }
}

/// The words of the rounds, of a key of `size` words.
pub fn expand(key: &[u8; 32], size: usize) -> [u32; 60]
    requires sized { (size ≡ 4) ⊎ (size ≡ 8) }
    ensures { (i : ℕ) → i < 4 * size + 28
        → column_of (slice_index result i) ≡ column_at (key_schedule (take (4 * size) key.now)) i }
{
    let mut words = [0u32; 60];
    'own: for i in 0..size {
        words[i] = word_at(key, 4 * i);
    }
    'further: for i in size..4 * size + 28 {
        words[i] = words[i - size] ^ turned(words[i - 1], size, i);
    }
    words
}

/// The words from 4 to `end` after InvMixColumns.
pub fn mixed(forward: &[u32; 60], end: usize) -> [u32; 60]
    requires { end ≤ 60 }
    ensures { (i : ℕ) → 4 ≤ i → i < end → column_of (slice_index result i)
        ≡ inverse_mix_column (column_of (slice_index forward.now i)) }
{
    let mut words = [0u32; 60];
    'words: for i in 4..end {
        words[i] = unmixed(forward[i]);
    }
    words
}
