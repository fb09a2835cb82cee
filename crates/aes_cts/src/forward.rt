// Keys that encipher a block or two.

ghost use Rattle.std.specs.Prelude.{◌≡◌, ℕ, ◌+◌, ◌-◌, ◌*◌, ◌<◌, ◌≤◌, ◌⊎◌, length, take};
ghost use Rattle.std.specs.Prelude.{slice_index};
ghost use Rattle.aes_cts.specs.State.{column_of};
ghost use Rattle.aes_cts.specs.Schedule.{column_at, key_schedule};

use crate::columns::{Columns, add, block_of, last_round, round, state_words};
use crate::schedule::expand;

/// An AES key that enciphers alone. The words of the inverse cipher, whose making costs as much as that of its own, aren't made.
#[derive(Drop)]
pub struct ForwardKey {
    octets: [u8; 32],
    rounds: usize,
    words: [u32; 60],
    ghost whole: { length octets ≡ 32 },
    ghost low: { 10 ≤ rounds },
    ghost high: { rounds ≤ 14 },
    ghost scheduled: { (i : ℕ) → i < 4 * rounds + 4 → column_of (slice_index words i)
        ≡ column_at (key_schedule (take (4 * (rounds - 6)) octets)) i },
}

impl ForwardKey {
    ghost use Rattle.aes_cts.specs.Words.{state_of};
    ghost use Rattle.aes_cts.specs.Cipher.{cipher, cipher_state};
    ghost use Rattle.aes_cts.specs.AesKey.{forward_key};

    /// The key of 16 octets, with 10 rounds.
    pub fn new128(key: &[u8; 16]) -> ForwardKey
        ensures { forward_key result ≡ key.now }
    {
        let mut octets = [0u8; 32];
        octets[..16].copy_from_slice(key);
        ForwardKey::expanded(octets, 4)
    }

    /// The key of 32 octets, with 14 rounds.
    pub fn new256(key: &[u8; 32]) -> ForwardKey
        ensures { forward_key result ≡ key.now }
    {
        ForwardKey::expanded(*key, 8)
    }

    fn expanded(octets: [u8; 32], size: usize) -> ForwardKey
        requires sized { (size ≡ 4) ⊎ (size ≡ 8) }
        ensures { forward_key result ≡ take (4 * size) octets }
    {
        let words = expand(&octets, size);
        let rounds = size + 6;
        ForwardKey {
            octets,
            rounds,
            words,
        }
    }

    fn encrypt(&self, block: Columns) -> Columns
        ensures { state_of result ≡ cipher_state (key_schedule (forward_key self.now))
            self.now.rounds (state_of block) }
    {
        let mut state = add(block, &self.words, 0);
        'rounds: for number in 1..self.rounds {
            state = round(state, &self.words, 4 * number);
        }
        last_round(state, &self.words, 4 * self.rounds)
    }

    /// The cipher of a block, FIPS 197 section 5.1.
    pub fn block(&self, b: &[u8; 16]) -> [u8; 16]
        ensures { result ≡ cipher (forward_key self.now) b.now }
    {
        block_of(self.encrypt(state_words(b)))
    }
}
