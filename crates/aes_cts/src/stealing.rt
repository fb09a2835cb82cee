// CBC with ciphertext stealing, RFC 3962 section 5, in place.

ghost use Rattle.std.specs.Prelude.{◌≡◌, ℕ, ◌+◌, ◌-◌, ◌*◌, ◌<◌, ◌≤◌, List, [], ◌++◌, length, drop};
ghost use Rattle.aes_cts.specs.Words.{state_of};
ghost use Rattle.aes_cts.specs.State.{state_octets};
ghost use Rattle.aes_cts.specs.AesKey.{cipher_key};
ghost use Rattle.aes_cts.specs.Cipher.{cipher, inverse_cipher, IsOctets};
ghost use Rattle.aes_cts.specs.Stealing.{add_octets, chain, chained, stolen, cts_encrypted};
ghost use Rattle.aes_cts.specs.Stealing.{unchained, given_back, cts_decrypted};

use crate::columns::{Columns, block_of, state_words};
use crate::key::AesKey;

const ZERO: Columns = Columns {
    first: 0,
    second: 0,
    third: 0,
    fourth: 0,
};

#[inline]
fn added(a: Columns, b: Columns) -> Columns
    ensures { state_octets (state_of result)
        ≡ add_octets (state_octets (state_of a)) (state_octets (state_of b)) }
{
    Columns {
        first: a.first ^ b.first,
        second: a.second ^ b.second,
        third: a.third ^ b.third,
        fourth: a.fourth ^ b.fourth,
    }
}

fn add_to(bytes: &mut [u8], other: &[u8; 16])
    requires { length bytes.old ≤ 16 }
    ensures { bytes.new ≡ add_octets bytes.old other.now }
{
    'octets: for i in 0..bytes.len() {
        bytes[i] ^= other[i];
    }
}

impl AesKey {
    /// Enciphers in place, with the zero vector (RFC 3962 section 5).
    pub fn cts_encrypt(&self, bytes: &mut [u8])
        requires { 16 ≤ length bytes.old }
        ensures { bytes.new ≡ cts_encrypted (cipher_key self.now) bytes.old }
    {
        let count = (bytes.len() - 1) / 16;
        if count == 0 {
            let whole = self.encrypt(state_words(bytes));
            bytes.copy_from_slice(&block_of(whole));
        } else {
            self.steal(bytes, count);
        }
    }

    /// Deciphers in place what `cts_encrypt` made.
    pub fn cts_decrypt(&self, bytes: &mut [u8])
        requires { 16 ≤ length bytes.old }
        ensures value { bytes.new ≡ cts_decrypted (cipher_key self.now) bytes.old }
        ensures undoes { (plain : List ℕ) → IsOctets plain → 16 ≤ length plain
            → bytes.old ≡ cts_encrypted (cipher_key self.now) plain → bytes.new ≡ plain }
        ensures undone { IsOctets bytes.old
            → cts_encrypted (cipher_key self.now) bytes.new ≡ bytes.old }
    {
        let count = (bytes.len() - 1) / 16;
        if count == 0 {
            let whole = self.decrypt(state_words(bytes));
            bytes.copy_from_slice(&block_of(whole));
        } else {
            self.give_back(bytes, count);
        }
    }

    // A block of CBC.
    #[inline(always)]
    fn chain(&self, before: Columns, block: &[u8]) -> Columns
        requires { length block.now ≡ 16 }
        ensures { state_octets (state_of result)
            ≡ cipher (cipher_key self.now) (add_octets (state_octets (state_of before)) block.now) }
    {
        self.encrypt(added(before, state_words(block)))
    }

    // The first `count` blocks of CBC; answers the last of them.
    #[inline(never)]
    fn encrypt_blocks(&self, bytes: &mut [u8], count: usize) -> Columns
        requires { 16 * count ≤ length bytes.old }
        ensures bytes { bytes.new
            ≡ chained (cipher_key self.now) bytes.old count ++ drop (16 * count) bytes.old }
        ensures last { state_octets (state_of result)
            ≡ chain (cipher_key self.now) bytes.old count }
    {
        let mut before = ZERO;
        'each: for i in 0..count {
            let at = 16 * i;
            before = self.chain(before, &bytes[at..at + 16]);
            bytes[at..at + 16].copy_from_slice(&block_of(before));
        }
        before
    }

    fn steal(&self, bytes: &mut [u8], count: usize)
        requires some { 0 < count }
        requires low { 16 * count < length bytes.old }
        requires high { length bytes.old ≤ 16 * count + 16 }
        ensures { bytes.new ≡ stolen (cipher_key self.now) bytes.old count }
    {
        let before = self.encrypt_blocks(bytes, count);
        let end = 16 * count;
        let rest = bytes.len() - end;
        let mut last = [0u8; 16];
        last[..rest].copy_from_slice(&bytes[end..]);
        let whole = self.chain(before, &last);
        bytes[end..].copy_from_slice(&block_of(before)[..rest]);
        bytes[end - 16..end].copy_from_slice(&block_of(whole));
    }

    // The first `count` blocks of CBC deciphered.
    #[inline(never)]
    fn decrypt_blocks(&self, bytes: &mut [u8], count: usize)
        requires { 16 * count ≤ length bytes.old }
        ensures { bytes.new
            ≡ unchained (cipher_key self.now) bytes.old count ++ drop (16 * count) bytes.old }
    {
        let mut before = ZERO;
        'each: for i in 0..count {
            let at = 16 * i;
            let block = state_words(&bytes[at..at + 16]);
            let plain = added(self.decrypt(block), before);
            bytes[at..at + 16].copy_from_slice(&block_of(plain));
            before = block;
        }
    }

    fn give_back(&self, bytes: &mut [u8], count: usize)
        requires some { 0 < count }
        requires low { 16 * count < length bytes.old }
        requires high { length bytes.old ≤ 16 * count + 16 }
        ensures { bytes.new ≡ given_back (cipher_key self.now) bytes.old count }
    {
        let end = 16 * count;
        let rest = bytes.len() - end;
        let whole = block_of(self.decrypt(state_words(&bytes[end - 16..end])));
        let mut cut = whole;
        cut[..rest].copy_from_slice(&bytes[end..]);
        add_to(&mut bytes[end..], &whole);
        bytes[end - 16..end].copy_from_slice(&cut);
        self.decrypt_blocks(bytes, count);
    }
}
