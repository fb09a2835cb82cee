//! The end that makes tokens as one side and reads those of the other.

ghost use Rattle.std.specs.Prelude.{◌≡◌, length};
ghost use Rattle.krb_tokens.specs.End.{other_side, seal_usage, sign_usage, sender_flag, flags_of};
ghost use Rattle.krb_tokens.specs.End.{is_from_other, is_sealed, has_subkey, is_other_kind};
ghost use Rattle.krb_tokens.specs.End.{all_filler};

use krb_derive::Key;

/// A side of a context.
#[derive(Clone, Copy, PartialEq, Eq)]
pub enum Side {
    Initiator,
    Acceptor,
}

impl Side {
    pub fn other(self) -> Side
        ensures { result ≡ other_side self }
    {
        match self {
            Side::Initiator => Side::Acceptor,
            Side::Acceptor => Side::Initiator,
        }
    }

    pub(crate) fn seal_usage(self) -> u32
        ensures { result ≡ seal_usage self }
    {
        match self {
            Side::Acceptor => 22,
            Side::Initiator => 24,
        }
    }

    pub(crate) fn sign_usage(self) -> u32
        ensures { result ≡ sign_usage self }
    {
        match self {
            Side::Acceptor => 23,
            Side::Initiator => 25,
        }
    }

    fn flag(self) -> u8
        ensures { result ≡ sender_flag self }
    {
        match self {
            Side::Initiator => 0,
            Side::Acceptor => 1,
        }
    }
}

/// An end of a context: its key, its side, and whether the key is the acceptor's subkey.
#[derive(Clone, Copy, PartialEq, Eq)]
pub struct TokenEnd {
    pub key: Key,
    pub side: Side,
    pub subkey: bool,
}

/// What is wrong with a token, in the order in which it is judged but for what `TokenEnd`'s calls say.
#[derive(Clone, Copy, Debug, PartialEq, Eq)]
pub enum TokenRefusal {
    /// It has too few octets, or too many.
    Length,
    /// The first two octets name another kind of token.
    Kind,
    /// It isn't from the other side.
    Direction,
    /// Its key is another one by the flag of the subkey.
    Subkey,
    /// An octet that is due as `ff` is another.
    Filler,
    /// The checksum is another.
    BadChecksum,
    /// The extra count isn't the checksum's length, or leaves no room for the inner header.
    ExtraCount,
    /// The inner header isn't the outer one.
    InnerHeader,
    /// No memory was to be had.
    NoMemory,
}

impl TokenEnd {
    // The flags of a token that this end makes.
    pub(crate) fn flags(&self, sealed: bool) -> u8
        ensures { result ≡ flags_of self.now sealed }
    {
        let seal = if sealed { 2 } else { 0 };
        let key = if self.subkey { 4 } else { 0 };
        self.side.flag() + seal + key
    }

    pub(crate) fn is_from_other(&self, flags: u8) -> bool
        ensures { result ≡ is_from_other self.now flags }
    {
        flags % 2 == self.side.other().flag()
    }

    pub(crate) fn has_subkey(&self, flags: u8) -> bool
        ensures { result ≡ has_subkey self.now flags }
    {
        let due = if self.subkey { 1 } else { 0 };
        flags / 4 % 2 == due
    }
}

pub(crate) fn is_sealed(flags: u8) -> bool
    ensures { result ≡ is_sealed flags }
{
    flags / 2 % 2 == 1
}

// Whether two octets or more begin as another kind of token.
pub(crate) fn is_other_kind(kind: u8, token: &[u8]) -> bool
    ensures { result ≡ is_other_kind kind token.now }
{
    token.len() >= 2 && !(token[0] == kind && token[1] == 4)
}

pub(crate) fn all_filler(octets: &[u8]) -> bool
    ensures { result ≡ all_filler octets.now }
{
    octets.iter().all(|octet| *octet == 255)
}
