//! Wrap tokens, RFC 4121 section 4.2.6.2.
//!
//! | Octets | Field |
//! |---|---|
//! | 0, 1 | the kind, `0504` |
//! | 2 | flags |
//! | 3 | `ff` |
//! | 4, 5 | EC, most significant octet first |
//! | 6, 7 | RRC, the octets by which the body is turned right |
//! | 8 to 15 | the number, most significant octet first |
//! | from 16 | the body: sealed, or with a checksum of 12 octets at its end |

ghost use Rattle.std.specs.Prelude.{◌≡◌, ℕ, ◌+◌, ◌<◌, ◌≤◌, true, false, nat_lt, nat_eq, length};
ghost use Rattle.std.specs.Prelude.{take, drop, ◌++◌, slice_index, List, IfOk, OnOk, Ok};
ghost use Rattle.std.specs.Prelude.{if◌then◌else◌};
ghost use lib.Pointwise.{pointwise};
ghost use Rattle.sec_base.specs.Answers.{Gives};
ghost use Rattle.krb_tokens.specs.End.{is_sealed, facing};
ghost use Rattle.krb_tokens.specs.Wrap.{wrap_header, wrap_of, word_of, body_of, unturned_header};
ghost use Rattle.krb_tokens.specs.Wrap.{bare_header, unwrapped_signed, unwrapped_plain};
ghost use Rattle.krb_tokens.specs.Wrap.{unwrapped_sealed, unwrapped, rotated};

use crate::cache::KeyCache;
use crate::end::{TokenEnd, TokenRefusal, is_other_kind, is_sealed};
use krb_derive::{Piece, checksum, verify};
use sec_base::{NoMemory, Octets};
use std::alloc::Global;

/// What a token held.
#[derive(Drop)]
pub struct Unwrapped {
    pub sealed: bool,
    pub content: Piece,
}

fn word_of(token: &[u8], at: usize) -> usize
    requires { at + 1 < length token.now }
    ensures value { result ≡ word_of token.now at }
    ensures small { result < 65536 }
{
    256 * usize::from(token[at]) + usize::from(token[at + 1])
}

fn is_too_short(token: &[u8]) -> bool
    ensures value { result
        ≡ nat_lt (length token.now) (if is_sealed (slice_index token.now 2) then 60 else 28) }
    ensures enough { result ≡ false → 28 ≤ length token.now }
    ensures enough_sealed { result ≡ false → is_sealed (slice_index token.now 2) ≡ true
        → 60 ≤ length token.now }
{
    if token.len() < 28 {
        return true;
    }
    if is_sealed(token[2]) {
        token.len() < 60
    } else {
        false
    }
}

// Octets turned left by some places.
fn turned(alloc: Global, octets: &[u8], places: usize) -> Result<Vec<u8>, NoMemory>
    requires { places ≤ length octets.now }
    ensures { IfOk result (λ v. v.items ≡ drop places octets.now ++ take places octets.now) }
{
    let mut list = Vec::with_capacity(alloc, octets.len())?;
    list.extend_from_slice(&octets[places..])?;
    list.extend_from_slice(&octets[..places])?;
    Ok(list)
}

// The body turned back.
fn body_of(alloc: Global, token: &[u8]) -> Result<Vec<u8>, NoMemory>
    requires { 28 ≤ length token.now }
    ensures value { IfOk result (λ v. v.items ≡ body_of token.now) }
    ensures long { IfOk result (λ v. length v.items + 16 ≡ length token.now) }
{
    let places = word_of(token, 6) % (token.len() - 16);
    let list = turned(alloc, &token[16..], places)?;
    Ok(list)
}

// The header with RRC 0.
fn unturned_header(token: &[u8]) -> [u8; 16]
    requires { 16 ≤ length token.now }
    ensures { result ≡ unturned_header token.now }
{
    let mut header = [0u8; 16];
    header[..6].copy_from_slice(&token[..6]);
    header[8..].copy_from_slice(&token[8..16]);
    header
}

// The header with EC and RRC 0.
fn bare_header(token: &[u8]) -> [u8; 16]
    requires { 16 ≤ length token.now }
    ensures { result ≡ bare_header token.now }
{
    let mut header = [0u8; 16];
    header[..4].copy_from_slice(&token[..4]);
    header[8..].copy_from_slice(&token[8..16]);
    header
}

fn is_same(octets: &[u8], header: &[u8; 16]) -> bool
    ensures { result ≡ pointwise nat_eq octets.now header.now }
{
    octets == header.as_slice()
}

// What opened octets hold, behind which the header stands again.
fn plain_content(token: &[u8], mut plain: Piece) -> Result<Unwrapped, TokenRefusal>
    requires { 16 ≤ length token.now }
    ensures { result ≡ unwrapped_plain token.now plain }
{
    let extra = word_of(token, 4);
    let octets = plain.as_slice();
    if octets.len() < extra + 16 {
        return Err(TokenRefusal::ExtraCount);
    }
    let end = octets.len() - 16;
    let header = unturned_header(token);
    if !is_same(&octets[end..], &header) {
        return Err(TokenRefusal::InnerHeader);
    }
    plain.keep_first(end - extra);
    Ok(Unwrapped {
        sealed: true,
        content: plain,
    })
}

// Appends what is sealed: a confounder, octets in two pieces, and the header.
fn put_plain(
    list: &mut Vec<u8>,
    confounder: &[u8; 16],
    first: &[u8],
    second: &[u8],
    header: &[u8; 16],
) -> Result<(), NoMemory>
    ensures { OnOk result (list.new.items ≡ list.old.items
        ++ (confounder.now ++ ((first.now ++ second.now) ++ header.now))) }
{
    list.extend_from_slice(confounder)?;
    list.extend_from_slice(first)?;
    list.extend_from_slice(second)?;
    list.extend_from_slice(header)?;
    Ok(())
}

impl TokenEnd {
    // A header with RRC 0.
    fn wrap_header(&self, sealed: bool, extra: u16, number: u64) -> [u8; 16]
        ensures { result ≡ wrap_header self.now sealed extra 0 number }
    {
        let [a, b, c, d, e, f, g, h] = number.to_be_bytes();
        let [i, j] = extra.to_be_bytes();
        [
            5,
            4,
            self.flags(sealed),
            255,
            i,
            j,
            0,
            0,
            a,
            b,
            c,
            d,
            e,
            f,
            g,
            h,
        ]
    }

    fn wrap_signed(&self, alloc: Global, number: u64, bytes: &[u8]) -> Result<Octets, NoMemory>
        ensures value { IfOk result
            (λ o. (confounder : List ℕ) → o ≡ wrap_of self.now number false confounder bytes.now) }
        ensures unwraps { IfOk result (λ o. (rotation : ℕ) → rotation < 65536 → unwrapped (facing
            self.now) (rotated rotation o) ≡ Ok (record { sealed = false; content = bytes.now })) }
    {
        let bare = self.wrap_header(false, 0, number);
        let tag = checksum(&self.key, self.side.seal_usage(), bytes, &bare);
        let header = self.wrap_header(false, 12, number);
        let mut list = Vec::with_capacity(alloc, bytes.len().saturating_add(28))?;
        list.extend_from_slice(&header)?;
        list.extend_from_slice(bytes)?;
        list.extend_from_slice(&tag)?;
        Ok(Octets::from_vec(list))
    }

    /// Appends to octets the sealed token of these in two pieces, with that number, RRC 0 and EC 0. It is made where it stands, by the keys
    /// of this cache where they are this end's.
    pub fn wrap_onto(
        &self,
        list: Vec<u8>,
        cache: &KeyCache,
        number: u64,
        confounder: &[u8; 16],
        first: &[u8],
        second: &[u8],
    ) -> Result<Vec<u8>, NoMemory>
        ensures value { IfOk result (λ v. v.items ≡ list.items
            ++ wrap_of self.now number true confounder.now (first.now ++ second.now)) }
        ensures unwraps { IfOk result (λ _. (rotation : ℕ) → rotation < 65536
            → unwrapped (facing self.now) (rotated rotation
            (wrap_of self.now number true confounder.now (first.now ++ second.now)))
            ≡ Ok (record { sealed = true; content = first.now ++ second.now })) }
    {
        let header = self.wrap_header(true, 0, number);
        let mut list = list;
        list.extend_from_slice(&header)?;
        let start = list.len();
        put_plain(&mut list, confounder, first, second, &header)?;
        self.seal_behind(cache, &mut list, start)?;
        Ok(list)
    }

    fn wrap_sealed(
        &self,
        alloc: Global,
        cache: &KeyCache,
        number: u64,
        confounder: &[u8; 16],
        bytes: &[u8],
    ) -> Result<Octets, NoMemory>
        ensures value { IfOk result
            (λ o. o ≡ wrap_of self.now number true confounder.now bytes.now) }
        ensures unwraps { IfOk result (λ o. (rotation : ℕ) → rotation < 65536 → unwrapped (facing
            self.now) (rotated rotation o) ≡ Ok (record { sealed = true; content = bytes.now })) }
    {
        let list = Vec::with_capacity(alloc, bytes.len().saturating_add(60))?;
        let token = self.wrap_onto(list, cache, number, confounder, bytes, &[])?;
        Ok(Octets::from_vec(token))
    }

    /// The token of these octets with that number, RRC 0 and, where it is sealed, EC 0.
    pub fn wrap(
        &self,
        alloc: Global,
        number: u64,
        sealed: bool,
        confounder: &[u8; 16],
        bytes: &[u8],
    ) -> Result<Octets, NoMemory>
        ensures value { IfOk result
            (λ o. o ≡ wrap_of self.now number sealed confounder.now bytes.now) }
        ensures unwraps { IfOk result (λ o. (rotation : ℕ) → rotation < 65536 → unwrapped (facing
            self.now) (rotated rotation o) ≡ Ok (record { sealed = sealed; content = bytes.now })) }
    {
        self.wrap_by(alloc, &KeyCache::empty(), number, sealed, confounder, bytes)
    }

    /// The same, by the keys of this cache where they are this end's.
    pub fn wrap_by(
        &self,
        alloc: Global,
        cache: &KeyCache,
        number: u64,
        sealed: bool,
        confounder: &[u8; 16],
        bytes: &[u8],
    ) -> Result<Octets, NoMemory>
        ensures value { IfOk result
            (λ o. o ≡ wrap_of self.now number sealed confounder.now bytes.now) }
        ensures unwraps { IfOk result (λ o. (rotation : ℕ) → rotation < 65536 → unwrapped (facing
            self.now) (rotated rotation o) ≡ Ok (record { sealed = sealed; content = bytes.now })) }
    {
        if sealed {
            self.wrap_sealed(alloc, cache, number, confounder, bytes)
        } else {
            self.wrap_signed(alloc, number, bytes)
        }
    }

    fn unwrap_signed(&self, alloc: Global, token: &[u8]) -> Result<Unwrapped, TokenRefusal>
        requires { 28 ≤ length token.now }
        ensures { Gives TokenRefusal.NoMemory (λ u. u) result
            (unwrapped_signed self.now token.now) }
    {
        if word_of(token, 4) != 12 {
            return Err(TokenRefusal::ExtraCount);
        }
        let body = match body_of(alloc, token) {
            Ok(body) => body,
            Err(_) => return Err(TokenRefusal::NoMemory),
        };
        let usage = self.side.other().seal_usage();
        let bare = bare_header(token);
        let list = body.as_slice();
        let count = list.len() - 12;
        if !verify(&self.key, usage, &list[..count], &bare, &list[count..]) {
            return Err(TokenRefusal::BadChecksum);
        }
        Ok(Unwrapped {
            sealed: false,
            content: Piece::between(body, 0, count),
        })
    }

    fn unwrap_sealed(
        &self,
        alloc: Global,
        cache: &KeyCache,
        token: &[u8],
    ) -> Result<Unwrapped, TokenRefusal>
        requires { 28 ≤ length token.now }
        ensures { Gives TokenRefusal.NoMemory (λ u. u) result
            (unwrapped_sealed self.now token.now) }
    {
        let body = match body_of(alloc, token) {
            Ok(body) => body,
            Err(_) => return Err(TokenRefusal::NoMemory),
        };
        match self.open_in(cache, body) {
            Ok(plain) => plain_content(token, plain),
            Err(_) => Err(TokenRefusal::BadChecksum),
        }
    }

    /// What a token of the other side holds, whatever its number and its RRC. A token of two octets or more that begins as another
    /// kind is refused by Kind before its length is judged, and one that isn't sealed by ExtraCount before its checksum is.
    pub fn unwrap(&self, alloc: Global, token: &[u8]) -> Result<Unwrapped, TokenRefusal>
        ensures { Gives TokenRefusal.NoMemory (λ u. u) result (unwrapped self.now token.now) }
    {
        self.unwrap_by(alloc, &KeyCache::empty(), token)
    }

    /// The same, by the keys of this cache where they are this end's.
    pub fn unwrap_by(
        &self,
        alloc: Global,
        cache: &KeyCache,
        token: &[u8],
    ) -> Result<Unwrapped, TokenRefusal>
        ensures { Gives TokenRefusal.NoMemory (λ u. u) result (unwrapped self.now token.now) }
    {
        if is_other_kind(5, token) {
            return Err(TokenRefusal::Kind);
        }
        if is_too_short(token) {
            return Err(TokenRefusal::Length);
        }
        if !self.is_from_other(token[2]) {
            return Err(TokenRefusal::Direction);
        }
        if !self.has_subkey(token[2]) {
            return Err(TokenRefusal::Subkey);
        }
        if token[3] != 255 {
            return Err(TokenRefusal::Filler);
        }
        if is_sealed(token[2]) {
            self.unwrap_sealed(alloc, cache, token)
        } else {
            self.unwrap_signed(alloc, token)
        }
    }
}
