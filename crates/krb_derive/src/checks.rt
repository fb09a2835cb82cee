//! Checksums of 96 bits, RFC 3962 section 6.

ghost use Rattle.std.specs.Prelude.{◌≡◌, ℕ, ◌≤◌, nat_eq, List, [], ◌++◌, length, take};
ghost use lib.Pointwise.{pointwise};
ghost use Rattle.mac_sha1.specs.Mac.{hmac, Begun};
ghost use Rattle.krb_derive.specs.Key.{key_octets};
ghost use Rattle.krb_derive.specs.Derivation.{derived};
ghost use Rattle.krb_derive.specs.Sealing.{tag_of, checksum_of};
ghost use Rattle.krb_derive.specs.Kept.{ForChecks};
ghost use Rattle.krb_derive.specs.declared.key.Key.{Key};

use crate::derivation::{Part, derive};
use crate::key::Key;
use mac_sha1::{Hmac, MacKey};

/// The front of a code.
pub(crate) fn tag_of(code: [u8; 20]) -> [u8; 12]
    ensures { result ≡ take 12 code }
{
    let mut tag = [0u8; 12];
    tag.copy_from_slice(&code[..12]);
    tag
}

/// Whether a tag is the one that was computed. Every octet is looked at, whatever differs.
pub fn is_tag(computed: &[u8; 12], tag: &[u8]) -> bool
    ensures { result ≡ pointwise nat_eq computed.now tag.now }
{
    if tag.len() != 12 {
        return false;
    }
    let mut same = true;
    'octets: for i in 0..12 {
        same &= computed[i] == tag[i];
    }
    same
}

// The front of the code of two pieces in a row, under the key with which `begun` was made.
pub(crate) fn tag_under(begun: &Hmac, first: &[u8], second: &[u8]) -> [u8; 12]
    ensures { (key : List ℕ) → Begun begun.now key []
        → result ≡ take 12 (hmac key (first.now ++ second.now)) }
{
    let mut code = begun.clone().unwrap();
    code.update(first);
    code.update(second);
    tag_of(code.finish())
}

/// The checksum key of a key and a usage, derived once for many messages. It is begun for one checksum, and made ready
/// for those that are made side by side.
#[derive(Drop)]
pub struct CheckKey {
    code: Hmac,
    pub(crate) ready: MacKey,
}

impl CheckKey {
    pub fn of(key: &Key, usage: u32) -> CheckKey
        ensures { ForChecks result key.now usage }
    {
        let derived = derive(key, usage, Part::Check);
        CheckKey {
            code: Hmac::new(derived.bytes()),
            ready: MacKey::new(derived.bytes()),
        }
    }

    /// The checksum of both in a row.
    pub fn checksum(&self, first: &[u8], second: &[u8]) -> [u8; 12]
        ensures { (key : Key) (usage : ℕ) → ForChecks self.now key usage
            → result ≡ checksum_of key usage (first.now ++ second.now) }
    {
        tag_under(&self.code, first, second)
    }

    /// Whether `tag` is the checksum of both in a row.
    pub fn verify(&self, first: &[u8], second: &[u8], tag: &[u8]) -> bool
        ensures { (key : Key) (usage : ℕ) → ForChecks self.now key usage
            → result ≡ pointwise nat_eq (checksum_of key usage (first.now ++ second.now)) tag.now }
    {
        is_tag(&self.checksum(first, second), tag)
    }
}

/// The checksum of both in a row.
pub fn checksum(key: &Key, usage: u32, first: &[u8], second: &[u8]) -> [u8; 12]
    ensures { result ≡ checksum_of key.now usage (first.now ++ second.now) }
{
    let begun = Hmac::new(derive(key, usage, Part::Check).bytes());
    tag_under(&begun, first, second)
}

/// Whether `tag` is the checksum of both in a row.
pub fn verify(key: &Key, usage: u32, first: &[u8], second: &[u8], tag: &[u8]) -> bool
    ensures { result
        ≡ pointwise nat_eq (checksum_of key.now usage (first.now ++ second.now)) tag.now }
{
    is_tag(&checksum(key, usage, first, second), tag)
}
