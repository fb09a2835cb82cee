//! Keys and sealed data in messages.

ghost use Rattle.std.specs.Prelude.{◌≡◌, IfOk};
ghost use Rattle.sec_base.specs.Answers.{Gives};
ghost use Rattle.krb_derive.specs.Sealing.{opened};
ghost use Rattle.ap_exchange.specs.Keys.{known_key, key_in, subkey_in, key_value, sealed_data};
ghost use Rattle.ap_exchange.specs.Keys.{SealedOpens, is_type_of, opened_or, data_opened};

use crate::refusal::ApRefusal;
use krb_derive::{Etype, Key, OpenRefusal, SealKeys, open};
use krb_msgs::{EncryptedData, EncryptionKey};
use sec_base::{NoMemory, Octets};
use std::alloc::Global;

/// The key usage of a ticket's sealed part (RFC 4120 section 7.5.1).
pub const TICKET_USAGE: u32 = 2;

/// The key usage of a request's authenticator.
pub const AUTHENTICATOR_USAGE: u32 = 11;

/// The key usage of a reply's sealed part.
pub const REPLY_USAGE: u32 = 12;

/// The key of a message, where it is of a known type and has that type's length.
fn known_key(key: &EncryptionKey) -> Option<Key>
    ensures { result ≡ known_key key.now }
{
    match Etype::of(key.keytype) {
        Some(etype) => Key::new(etype, key.keyvalue.as_slice()),
        None => None,
    }
}

/// The key of a message.
pub fn key_in(key: &EncryptionKey) -> Result<Key, ApRefusal>
    ensures { Gives ApRefusal.NoMemory (λ k. k) result (key_in key.now) }
{
    match known_key(key) {
        Some(known) => Ok(known),
        None => Err(ApRefusal::KeyType),
    }
}

/// A key that may be left out.
pub fn subkey_in(key: &Option<EncryptionKey>) -> Result<Option<Key>, ApRefusal>
    ensures { Gives ApRefusal.NoMemory (λ k. k) result (subkey_in key.now) }
{
    match key {
        Some(key) => {
            let known = key_in(key)?;
            Ok(Some(known))
        }
        None => Ok(None),
    }
}

/// A key as a message has it.
pub fn key_value(alloc: Global, key: &Key) -> Result<EncryptionKey, NoMemory>
    ensures { IfOk result (λ k. k ≡ key_value key.now) }
{
    let keyvalue = Octets::of(alloc, key.bytes())?;
    Ok(EncryptionKey {
        keytype: key.etype().number(),
        keyvalue,
    })
}

/// These octets sealed with a key, as a message has them.
pub fn sealed_data(
    alloc: Global,
    key: &Key,
    kvno: Option<u32>,
    usage: u32,
    confounder: &[u8; 16],
    octets: &[u8],
) -> Result<EncryptedData, NoMemory>
    ensures value { IfOk result
        (λ d. d ≡ sealed_data key.now kvno usage confounder.now octets.now) }
    ensures opens { IfOk result (λ _. SealedOpens key.now usage confounder.now octets.now) }
{
    let keys = SealKeys::of(key, usage);
    let cipher = keys.seal(alloc, confounder, octets)?;
    Ok(EncryptedData {
        etype: key.etype().number(),
        kvno,
        cipher,
    })
}

/// Whether a key is of this type.
fn is_type_of(key: &Key, etype: Option<Etype>) -> bool
    ensures { result ≡ is_type_of key.now etype }
{
    match etype {
        Some(etype) => etype == key.etype(),
        None => false,
    }
}

/// What sealed octets open to, or else this refusal.
pub fn opened_or(
    alloc: Global,
    refusal: ApRefusal,
    key: &Key,
    usage: u32,
    octets: &[u8],
) -> Result<Octets, ApRefusal>
    ensures { Gives ApRefusal.NoMemory (λ o. o) result
        (opened_or refusal (opened key.now usage octets.now)) }
{
    match open(alloc, key, usage, octets) {
        Ok(plain) => Ok(plain),
        Err(OpenRefusal::Short) => Err(refusal),
        Err(OpenRefusal::BadChecksum) => Err(refusal),
        Err(OpenRefusal::NoMemory) => Err(ApRefusal::NoMemory),
    }
}

/// What sealed data opens to: its type is the key's, and its tag is right; or else this refusal.
pub fn data_opened(
    alloc: Global,
    refusal: ApRefusal,
    key: &Key,
    usage: u32,
    sealed: &EncryptedData,
) -> Result<Octets, ApRefusal>
    ensures { Gives ApRefusal.NoMemory (λ o. o) result
        (data_opened refusal key.now usage sealed.now) }
{
    if !is_type_of(key, Etype::of(sealed.etype)) {
        return Err(refusal);
    }
    opened_or(alloc, refusal, key, usage, sealed.cipher.as_slice())
}
