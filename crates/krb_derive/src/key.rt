//! Encryption types and their keys.

ghost use Rattle.std.specs.Prelude.{◌≡◌, pos, length};
ghost use Rattle.krb_derive.specs.Key.{etype_of, number_of_etype, key_length, type_of_key};
ghost use Rattle.krb_derive.specs.Key.{key_octets, key_of};

use std::fmt;

/// An encryption type of RFC 3962.
#[derive(Clone, Copy, Debug, PartialEq, Eq)]
pub enum Etype {
    /// Number 17, with keys of 16 octets.
    Aes128,
    /// Number 18, with keys of 32 octets.
    Aes256,
}

impl Etype {
    /// The type of a number; None exactly for other numbers than 17 and 18.
    pub fn of(number: i32) -> Option<Etype>
        ensures { result ≡ etype_of number }
    {
        match number {
            17 => Some(Etype::Aes128),
            18 => Some(Etype::Aes256),
            _ => None,
        }
    }

    /// The number of the type (RFC 3962 section 7).
    pub fn number(self) -> i32
        ensures { result ≡ pos (number_of_etype self) }
    {
        match self {
            Etype::Aes128 => 17,
            Etype::Aes256 => 18,
        }
    }
}

/// A key of an encryption type. It is copied freely.
#[derive(Clone, Copy, PartialEq, Eq)]
pub enum Key {
    Aes128([u8; 16]),
    Aes256([u8; 32]),
}

impl Key {
    /// The key of that type with these octets; None exactly where the type's keys have another length.
    pub fn new(etype: Etype, bytes: &[u8]) -> Option<Key>
        ensures { result ≡ key_of etype bytes.now }
    {
        match etype {
            Etype::Aes128 => {
                if bytes.len() != 16 {
                    return None;
                }
                let mut octets = [0u8; 16];
                octets.copy_from_slice(bytes);
                Some(Key::Aes128(octets))
            }
            Etype::Aes256 => {
                if bytes.len() != 32 {
                    return None;
                }
                let mut octets = [0u8; 32];
                octets.copy_from_slice(bytes);
                Some(Key::Aes256(octets))
            }
        }
    }

    /// The type of the key.
    pub fn etype(&self) -> Etype
        ensures { result ≡ type_of_key self.now }
    {
        match self {
            Key::Aes128(_) => Etype::Aes128,
            Key::Aes256(_) => Etype::Aes256,
        }
    }

    /// The octets of the key.
    pub fn bytes(&self) -> &[u8]
        ensures { result.now ≡ key_octets self.now }
    {
        match self {
            Key::Aes128(octets) => octets.as_slice(),
            Key::Aes256(octets) => octets.as_slice(),
        }
    }
}

impl fmt::Debug for Key {
    fn fmt<W: fmt::Write>(&self, f: &mut fmt::Formatter<W>) -> fmt::Result {
        f.write_str("Key { .. }")
    }
}
