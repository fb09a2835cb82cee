//! Derived keys, RFC 3961 section 5.1.

ghost use Rattle.std.specs.Prelude.{◌≡◌, ◌++◌};
ghost use Rattle.aes_cts.specs.AesKey.{cipher_key};
ghost use Rattle.krb_derive.specs.Fold.{n_fold};
ghost use Rattle.krb_derive.specs.Key.{key_octets};
ghost use Rattle.krb_derive.specs.Derivation.{octet_of_part, constant, derived};

use crate::constants::folded_before;
use crate::fold::n_fold;
use crate::key::Key;
use aes_cts::{AesKey, ForwardKey};

/// What a derived key is for (RFC 3961 section 5.3).
#[derive(Clone, Copy, Debug, PartialEq, Eq)]
pub enum Part {
    /// Ke, which enciphers sealed octets.
    Encrypt,
    /// Ki, which proves sealed octets.
    Integrity,
    /// Kc, of checksums.
    Check,
}

impl Part {
    fn octet(self) -> u8
        ensures { result ≡ octet_of_part self }
    {
        match self {
            Part::Encrypt => 0xaa,
            Part::Integrity => 0x55,
            Part::Check => 0x99,
        }
    }
}

/// The cipher of a key.
pub(crate) fn cipher_of(key: &Key) -> AesKey
    ensures { cipher_key result ≡ key_octets key.now }
{
    match key {
        Key::Aes128(octets) => AesKey::new128(octets),
        Key::Aes256(octets) => AesKey::new256(octets),
    }
}

// Folds the constant of a usage and a part to a block.
fn fold_constant(usage: u32, part: Part) -> [u8; 16]
    ensures { result ≡ n_fold 16 (constant usage part) }
{
    let [a, b, c, d] = usage.to_be_bytes();
    let mut block = [0u8; 16];
    n_fold(&[a, b, c, d, part.octet()], &mut block);
    block
}

// The constant of a usage and a part, folded to a block: one that is known, or else computed.
fn folded(usage: u32, part: Part) -> [u8; 16]
    ensures { result ≡ n_fold 16 (constant usage part) }
{
    match folded_before(usage, part) {
        Some(block) => block,
        None => fold_constant(usage, part),
    }
}

fn joined(first: &[u8; 16], second: &[u8; 16]) -> [u8; 32]
    ensures { result ≡ first.now ++ second.now }
{
    let mut both = [0u8; 32];
    both[..16].copy_from_slice(first);
    both[16..].copy_from_slice(second);
    both
}

/// The key derived for a usage and a part.
pub fn derive(key: &Key, usage: u32, part: Part) -> Key
    ensures { result ≡ derived key.now usage part }
{
    let block = folded(usage, part);
    match key {
        Key::Aes128(octets) => Key::Aes128(ForwardKey::new128(octets).block(&block)),
        Key::Aes256(octets) => {
            let cipher = ForwardKey::new256(octets);
            let first = cipher.block(&block);
            let second = cipher.block(&first);
            Key::Aes256(joined(&first, &second))
        }
    }
}
