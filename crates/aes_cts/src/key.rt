// Keys with their schedules, made once, and the cipher on a block.

ghost use Rattle.std.specs.Prelude.{◌≡◌, ◌≢◌, ℕ, ◌+◌, ◌-◌, ◌*◌, ◌<◌, ◌≤◌, ◌⊎◌, List, [], ◌∷◌};
ghost use Rattle.std.specs.Prelude.{length, take, slice_index, All};
ghost use Rattle.aes_cts.specs.State.{column_of, inverse_mix_column};
ghost use Rattle.aes_cts.specs.Schedule.{column_at, key_schedule};

use crate::columns::{
    Columns, add, block_of, inverse_last_round, inverse_round, last_round, round, state_words,
};
use crate::schedule::{expand, mixed};

/// An AES key with the words of its rounds, made once. It is copied freely.
#[derive(Clone, Copy)]
pub struct AesKey {
    octets: [u8; 32],
    rounds: usize,
    // The words of the rounds, and those of the inverse cipher's, which have gone through InvMixColumns.
    forward: [u32; 60],
    backward: [u32; 60],
    ghost whole: { length octets ≡ 32 },
    ghost low: { 10 ≤ rounds },
    ghost high: { rounds ≤ 14 },
    ghost sized: { rounds ≢ 10 → rounds ≡ 14 },
    ghost scheduled: { (i : ℕ) → i < 4 * rounds + 4 → column_of (slice_index forward i)
        ≡ column_at (key_schedule (take (4 * (rounds - 6)) octets)) i },
    ghost mixed: { (i : ℕ) → 4 ≤ i → i < 4 * rounds → column_of (slice_index backward i)
        ≡ inverse_mix_column (column_of (slice_index forward i)) },
}

impl AesKey {
    ghost use Rattle.aes_cts.specs.Words.{state_of};
    ghost use Rattle.aes_cts.specs.State.{State};
    ghost use Rattle.aes_cts.specs.Cipher.{cipher, inverse_cipher, cipher_state};
    ghost use Rattle.aes_cts.specs.Cipher.{inverse_cipher_state, after_rounds};
    ghost use Rattle.aes_cts.specs.Cipher.{after_inverse_rounds, IsOctets};
    ghost use Rattle.aes_cts.specs.AesKey.{cipher_key};

    /// The key of 16 octets, with 10 rounds.
    pub fn new128(key: &[u8; 16]) -> AesKey
        ensures { cipher_key result ≡ key.now }
    {
        let mut octets = [0u8; 32];
        octets[..16].copy_from_slice(key);
        AesKey::expanded(octets, 4)
    }

    /// The key of 32 octets, with 14 rounds.
    pub fn new256(key: &[u8; 32]) -> AesKey
        ensures { cipher_key result ≡ key.now }
    {
        AesKey::expanded(*key, 8)
    }

    fn expanded(octets: [u8; 32], size: usize) -> AesKey
        requires sized { (size ≡ 4) ⊎ (size ≡ 8) }
        ensures { cipher_key result ≡ take (4 * size) octets }
    {
        let forward = expand(&octets, size);
        let rounds = size + 6;
        let backward = mixed(&forward, 4 * rounds);
        AesKey {
            octets,
            rounds,
            forward,
            backward,
        }
    }

    // The state after round `number`, which isn't the last, from that after the rounds before it.
    #[inline(always)]
    fn after(&self, state: Columns, number: usize) -> Columns
        requires some { 0 < number }
        requires inner { number < self.now.rounds }
        ensures { (s : State)
            → state_of state ≡ after_rounds (key_schedule (cipher_key self.now)) s (number - 1)
            → state_of result ≡ after_rounds (key_schedule (cipher_key self.now)) s number }
    {
        round(state, &self.forward, 4 * number)
    }

    // The rounds are written out one by one: in a loop the state's words would be packed into a vector and taken apart at each round.
    #[inline(always)]
    pub(crate) fn encrypt(&self, block: Columns) -> Columns
        ensures { state_of result
            ≡ cipher_state (key_schedule (cipher_key self.now)) self.now.rounds (state_of block) }
    {
        let begun = add(block, &self.forward, 0);
        let one = self.after(begun, 1);
        let two = self.after(one, 2);
        let three = self.after(two, 3);
        let four = self.after(three, 4);
        let five = self.after(four, 5);
        let six = self.after(five, 6);
        let seven = self.after(six, 7);
        let eight = self.after(seven, 8);
        let nine = self.after(eight, 9);
        if self.rounds == 10 {
            return last_round(nine, &self.forward, 40);
        }
        let ten = self.after(nine, 10);
        let eleven = self.after(ten, 11);
        let twelve = self.after(eleven, 12);
        let thirteen = self.after(twelve, 13);
        last_round(thirteen, &self.forward, 56)
    }

    // The state of the inverse after its round with the key of round `number`, which isn't its last.
    #[inline(always)]
    fn before(&self, state: Columns, number: usize) -> Columns
        requires some { 0 < number }
        requires inner { number < self.now.rounds }
        ensures { (s : State) (done : ℕ) → done + number + 1 ≡ self.now.rounds → state_of state
            ≡ after_inverse_rounds (key_schedule (cipher_key self.now)) self.now.rounds s done
            → state_of result ≡ after_inverse_rounds (key_schedule (cipher_key self.now))
            self.now.rounds s (done + 1) }
    {
        inverse_round(state, &self.backward, 4 * number)
    }

    // The state of the inverse before its round with the key of round 9.
    #[inline(always)]
    fn begun(&self, block: Columns) -> Columns
        ensures { state_of result ≡ after_inverse_rounds (key_schedule (cipher_key self.now))
            self.now.rounds (state_of block) (self.now.rounds - 10) }
    {
        let whole = add(block, &self.forward, 4 * self.rounds);
        if self.rounds == 10 {
            return whole;
        }
        let thirteen = self.before(whole, 13);
        let twelve = self.before(thirteen, 12);
        let eleven = self.before(twelve, 11);
        self.before(eleven, 10)
    }

    #[inline(always)]
    pub(crate) fn decrypt(&self, block: Columns) -> Columns
        ensures { state_of result ≡ inverse_cipher_state (key_schedule (cipher_key self.now))
            self.now.rounds (state_of block) }
    {
        let begun = self.begun(block);
        let nine = self.before(begun, 9);
        let eight = self.before(nine, 8);
        let seven = self.before(eight, 7);
        let six = self.before(seven, 6);
        let five = self.before(six, 5);
        let four = self.before(five, 4);
        let three = self.before(four, 3);
        let two = self.before(three, 2);
        let one = self.before(two, 1);
        inverse_last_round(one, &self.forward, 0)
    }

    /// The cipher of a block, FIPS 197 section 5.1.
    pub fn block(&self, b: &[u8; 16]) -> [u8; 16]
        ensures { result ≡ cipher (cipher_key self.now) b.now }
    {
        block_of(self.encrypt(state_words(b)))
    }

    /// The inverse cipher of a block, section 5.3.
    pub fn unblock(&self, b: &[u8; 16]) -> [u8; 16]
        ensures value { result ≡ inverse_cipher (cipher_key self.now) b.now }
        ensures undoes { (block : List ℕ) → IsOctets block → length block ≡ 16
            → b.now ≡ cipher (cipher_key self.now) block → result ≡ block }
        ensures undone { cipher (cipher_key self.now) result ≡ b.now }
    {
        block_of(self.decrypt(state_words(b)))
    }
}
