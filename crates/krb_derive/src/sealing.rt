//! Sealed octets, RFC 3961 section 5.3.

ghost use Rattle.std.specs.Prelude.{◌≡◌, ℕ, ◌+◌, ◌-◌, ◌≤◌, List, ◌++◌, length, take, drop, Ok};
ghost use Rattle.std.specs.Prelude.{IfOk, OnOk, OnErr};
ghost use Rattle.sec_base.specs.Answers.{Gives};
ghost use Rattle.aes_cts.specs.AesKey.{cipher_key};
ghost use Rattle.aes_cts.specs.Cipher.{IsOctets};
ghost use Rattle.aes_cts.specs.Stealing.{cts_encrypted, cts_decrypted};
ghost use Rattle.krb_derive.specs.Sealing.{seal_of, opened, Opens};
ghost use Rattle.krb_derive.specs.Kept.{ForSealing};
ghost use Rattle.krb_derive.specs.declared.key.Key.{Key};

use crate::checks::{is_tag, tag_under};
use crate::derivation::{Part, cipher_of, derive};
use crate::key::Key;
use crate::piece::Piece;
use aes_cts::AesKey;
use mac_sha1::Hmac;
use sec_base::{NoMemory, Octets};
use std::alloc::Global;

/// Why sealed octets don't open, in the order in which it is judged.
#[derive(Clone, Copy, Debug, PartialEq, Eq)]
pub enum OpenRefusal {
    /// They are fewer than a confounder and a tag have.
    Short,
    /// The tag isn't that of the octets.
    BadChecksum,
    /// No memory was to be had.
    NoMemory,
}

fn encipher_part(cipher: &AesKey, octets: &mut [u8], start: usize, end: usize)
    requires block { start + 16 ≤ end }
    requires within { end ≤ length octets.old }
    ensures { octets.new ≡ take start octets.old ++ (cts_encrypted (cipher_key cipher.now)
        (take (end - start) (drop start octets.old)) ++ drop end octets.old) }
{
    cipher.cts_encrypt(&mut octets[start..end]);
}

// Enciphers a part of a vector where it stands.
fn encipher(cipher: &AesKey, list: &mut Vec<u8>, start: usize, end: usize)
    requires block { start + 16 ≤ end }
    requires within { end ≤ length list.old.items }
    ensures { list.new.items ≡ take start list.old.items ++ (cts_encrypted (cipher_key cipher.now)
        (take (end - start) (drop start list.old.items)) ++ drop end list.old.items) }
{
    encipher_part(cipher, list.as_mut_slice(), start, end);
}

fn decipher_front(cipher: &AesKey, octets: &mut [u8], end: usize)
    requires block { 16 ≤ end }
    requires within { end ≤ length octets.old }
    ensures value { octets.new
        ≡ cts_decrypted (cipher_key cipher.now) (take end octets.old) ++ drop end octets.old }
    ensures long { length octets.new ≡ length octets.old }
{
    cipher.cts_decrypt(&mut octets[..end]);
}

// Deciphers the front of a vector where it stands.
fn decipher(cipher: &AesKey, list: &mut Vec<u8>, end: usize)
    requires block { 16 ≤ end }
    requires within { end ≤ length list.old.items }
    ensures value { list.new.items ≡ cts_decrypted (cipher_key cipher.now)
        (take end list.old.items) ++ drop end list.old.items }
    ensures long { length list.new.items ≡ length list.old.items }
{
    decipher_front(cipher, list.as_mut_slice(), end);
}

/// The sealing keys of a key and a usage, derived once for many messages.
#[derive(Drop)]
pub struct SealKeys {
    cipher: AesKey,
    code: Hmac,
}

impl SealKeys {
    pub fn of(key: &Key, usage: u32) -> SealKeys
        ensures { ForSealing result key.now usage }
    {
        SealKeys {
            cipher: cipher_of(&derive(key, usage, Part::Encrypt)),
            code: Hmac::new(derive(key, usage, Part::Integrity).bytes()),
        }
    }

    /// Seals where it stands what is in a vector from `start` on, a confounder first, and appends the tag. Where there is no memory for the
    /// tag, the vector is left as it was.
    pub fn seal_behind(&self, list: &mut Vec<u8>, start: usize) -> Result<(), NoMemory>
        requires { start + 16 ≤ length list.old.items }
        ensures value { (key : Key) (usage : ℕ) → ForSealing self.now key usage → OnOk result
            (list.new.items ≡ take start list.old.items ++ seal_of key usage
            (take 16 (drop start list.old.items)) (drop 16 (drop start list.old.items))) }
        ensures unchanged { OnErr result (list.new.items ≡ list.old.items) }
        ensures opens { (key : Key) (usage : ℕ) → ForSealing self.now key usage → Opens key usage }
    {
        let end = list.len();
        let tag = tag_under(&self.code, &list.as_slice()[start..], &[]);
        list.extend_from_slice(&tag)?;
        encipher(&self.cipher, list, start, end);
        Ok(())
    }

    /// Seals octets with this confounder.
    pub fn seal(
        &self,
        alloc: Global,
        confounder: &[u8; 16],
        bytes: &[u8],
    ) -> Result<Octets, NoMemory>
        ensures { (key : Key) (usage : ℕ) → ForSealing self.now key usage
            → IfOk result (λ o. o ≡ seal_of key usage confounder.now bytes.now) }
    {
        let mut list = Vec::with_capacity(alloc, bytes.len().saturating_add(28))?;
        list.extend_from_slice(confounder)?;
        list.extend_from_slice(bytes)?;
        self.seal_behind(&mut list, 0)?;
        Ok(Octets::from_vec(list))
    }

    /// Opens sealed octets where they stand. Nothing is handed out before the tag is compared.
    pub fn open_in(&self, list: Vec<u8>) -> Result<Piece, OpenRefusal>
        ensures value { (key : Key) (usage : ℕ) → ForSealing self.now key usage
            → result ≡ opened key usage list.items }
        ensures undoes { (key : Key) (usage : ℕ) (confounder plain : List ℕ)
            → ForSealing self.now key usage → length confounder ≡ 16
            → IsOctets (confounder ++ plain) → list.items ≡ seal_of key usage confounder plain
            → opened key usage list.items ≡ Ok plain }
    {
        if list.len() < 28 {
            return Err(OpenRefusal::Short);
        }
        let mut list = list;
        let end = list.len() - 12;
        decipher(&self.cipher, &mut list, end);
        let octets = list.as_slice();
        let tag = tag_under(&self.code, &octets[..end], &[]);
        if !is_tag(&tag, &octets[end..]) {
            return Err(OpenRefusal::BadChecksum);
        }
        Ok(Piece::between(list, 16, end))
    }

    /// Opens a copy of sealed octets.
    pub fn open(&self, alloc: Global, bytes: &[u8]) -> Result<Octets, OpenRefusal>
        ensures value { (key : Key) (usage : ℕ) → ForSealing self.now key usage
            → Gives OpenRefusal.NoMemory (λ o. o) result (opened key usage bytes.now) }
        ensures undoes { (key : Key) (usage : ℕ) (confounder plain : List ℕ)
            → ForSealing self.now key usage → length confounder ≡ 16
            → IsOctets (confounder ++ plain) → bytes.now ≡ seal_of key usage confounder plain
            → opened key usage bytes.now ≡ Ok plain }
    {
        let list = match Vec::from_slice(alloc, bytes) {
            Ok(list) => list,
            Err(_) => return Err(OpenRefusal::NoMemory),
        };
        match self.open_in(list) {
            Ok(plain) => Ok(Octets::from_vec(plain.into_vec())),
            Err(refusal) => Err(refusal),
        }
    }
}

/// Seals octets with this confounder.
pub fn seal(
    alloc: Global,
    key: &Key,
    usage: u32,
    confounder: &[u8; 16],
    bytes: &[u8],
) -> Result<Octets, NoMemory>
    ensures { IfOk result (λ o. o ≡ seal_of key.now usage confounder.now bytes.now) }
{
    SealKeys::of(key, usage).seal(alloc, confounder, bytes)
}

/// Opens sealed octets.
pub fn open(alloc: Global, key: &Key, usage: u32, bytes: &[u8]) -> Result<Octets, OpenRefusal>
    ensures value { Gives OpenRefusal.NoMemory (λ o. o) result (opened key.now usage bytes.now) }
    ensures undoes { (confounder plain : List ℕ) → length confounder ≡ 16
        → IsOctets (confounder ++ plain) → bytes.now ≡ seal_of key.now usage confounder plain
        → opened key.now usage bytes.now ≡ Ok plain }
{
    SealKeys::of(key, usage).open(alloc, bytes)
}
