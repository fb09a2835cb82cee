//! MIC tokens, RFC 4121 section 4.2.6.1.
//!
//! | Octets | Field |
//! |---|---|
//! | 0, 1 | the kind, `0404` |
//! | 2 | flags |
//! | 3 to 7 | `ff` |
//! | 8 to 15 | the number, most significant octet first |
//! | 16 to 27 | the checksum over the message and octets 0 to 15 |

ghost use Rattle.std.specs.Prelude.{◌≡◌, ◌++◌, Ok};
ghost use Rattle.krb_tokens.specs.End.{facing};
ghost use Rattle.krb_tokens.specs.Mic.{mic_header, mic_of, checked_mic};

use crate::cache::KeyCache;
use crate::end::{TokenEnd, TokenRefusal, all_filler, is_other_kind};
use crate::lent::LentKeys;

fn joined(header: &[u8; 16], tag: &[u8; 12]) -> [u8; 28]
    ensures { result ≡ header.now ++ tag.now }
{
    let mut token = [0u8; 28];
    token[..16].copy_from_slice(header);
    token[16..].copy_from_slice(tag);
    token
}

impl TokenEnd {
    pub(crate) fn mic_header(&self, number: u64) -> [u8; 16]
        ensures { result ≡ mic_header self.now number }
    {
        let [a, b, c, d, e, f, g, h] = number.to_be_bytes();
        [
            4,
            4,
            self.flags(false),
            255,
            255,
            255,
            255,
            255,
            a,
            b,
            c,
            d,
            e,
            f,
            g,
            h,
        ]
    }

    /// The token over these octets with that number.
    pub fn make_mic(&self, number: u64, bytes: &[u8]) -> [u8; 28]
        ensures value { result ≡ mic_of self.now number bytes.now }
        ensures taken { checked_mic (facing self.now) result bytes.now ≡ Ok tt }
    {
        let cache = KeyCache::empty();
        self.make_mic_by(&cache.lent(), number, bytes)
    }

    /// The same, by what is lent where it is this end's.
    pub fn make_mic_by(&self, keys: &LentKeys<'_>, number: u64, bytes: &[u8]) -> [u8; 28]
        ensures value { result ≡ mic_of self.now number bytes.now }
        ensures taken { checked_mic (facing self.now) result bytes.now ≡ Ok tt }
    {
        let header = self.mic_header(number);
        joined(&header, &self.own_checksum(keys, bytes, &header))
    }

    /// Whether a token is the other side's over these octets, whatever its number. A token of two octets or more that begins as
    /// another kind is refused by Kind before its length is judged.
    pub fn check_mic(&self, token: &[u8], bytes: &[u8]) -> Result<(), TokenRefusal>
        ensures { result ≡ checked_mic self.now token.now bytes.now }
    {
        let cache = KeyCache::empty();
        self.check_mic_by(&cache.lent(), token, bytes)
    }

    /// The same, by what is lent where it is this end's.
    pub fn check_mic_by(
        &self,
        keys: &LentKeys<'_>,
        token: &[u8],
        bytes: &[u8],
    ) -> Result<(), TokenRefusal>
        ensures { result ≡ checked_mic self.now token.now bytes.now }
    {
        if is_other_kind(4, token) {
            return Err(TokenRefusal::Kind);
        }
        if token.len() != 28 {
            return Err(TokenRefusal::Length);
        }
        if !self.is_from_other(token[2]) {
            return Err(TokenRefusal::Direction);
        }
        if !self.has_subkey(token[2]) {
            return Err(TokenRefusal::Subkey);
        }
        if !all_filler(&token[3..8]) {
            return Err(TokenRefusal::Filler);
        }
        if self.is_others_checksum(keys, bytes, &token[..16], &token[16..]) {
            Ok(())
        } else {
            Err(TokenRefusal::BadChecksum)
        }
    }
}
