//! Checksums of MIC tokens that are computed side by side, before they are asked for.

ghost use Rattle.std.specs.Prelude.{◌≡◌, ◌≤◌, ◌^◌, ◌<◌, ◌↔◌, [], ◌∷◌, length, take};
ghost use Rattle.std.specs.Prelude.{IsSome, IfSome, Some};
ghost use Rattle.sha1.specs.Sha1.{sha1};
ghost use Rattle.krb_tokens.specs.End.{other_side};
ghost use Rattle.krb_tokens.specs.Mic.{mic_header};
ghost use Rattle.krb_tokens.specs.Cache.{kept_end};
ghost use Rattle.krb_tokens.specs.Known.{AreKnown, ChecksFor, IsAbout, IsShort, IsTagOf};

use crate::cache::KeyCache;
use crate::end::TokenEnd;
use crate::known::{KnownDigest, KnownMic, KnownMics, KnownPair, MicTask};
use crate::mic_keys::MicKeys;
use krb_derive::{CheckTask, checksums_and_digest, checksums4};

impl TokenEnd {
    /// The token over these octets that this end makes with that number.
    pub fn mic_due<'a>(&self, number: u64, bytes: &'a [u8]) -> MicTask<'a>
        ensures side { result.side ≡ self.now.side }
        ensures message { result.message.now ≡ bytes.now }
        ensures header { result.header ≡ mic_header self.now number }
    {
        MicTask {
            side: self.side,
            message: bytes,
            header: self.mic_header(number),
        }
    }

    /// The token over these octets that the other side made; None if it is shorter than a header.
    pub fn mic_taken<'a>(&self, token: &[u8], bytes: &'a [u8]) -> Option<MicTask<'a>>
        ensures long { IsSome result ↔ (16 ≤ length token.now) }
        ensures side { IfSome result (λ task. task.side ≡ other_side self.now.side) }
        ensures message { IfSome result (λ task. task.message.now ≡ bytes.now) }
        ensures header { IfSome result (λ task. task.header ≡ take 16 token.now) }
    {
        if token.len() < 16 {
            return None;
        }
        let mut header = [0u8; 16];
        header.copy_from_slice(&token[..16]);
        Some(MicTask {
            side: self.side.other(),
            message: bytes,
            header,
        })
    }
}

// The checksum of a token by the keys of its end.
fn check_for<'a>(keys: &'a MicKeys, task: &'a MicTask<'_>) -> CheckTask<'a>
    ensures { ChecksFor keys.now.end.key task.now result }
{
    CheckTask {
        key: keys.key_of(task.side),
        front: task.message,
        back: &task.header,
    }
}

impl MicKeys {
    // The tags of four short tokens.
    fn tags4<'a>(
        &'a self,
        first: &'a MicTask<'a>,
        second: &'a MicTask<'a>,
        third: &'a MicTask<'a>,
        fourth: &'a MicTask<'a>,
    ) -> ([u8; 12], [u8; 12], [u8; 12], [u8; 12])
        requires first { IsShort first.now }
        requires second { IsShort second.now }
        requires third { IsShort third.now }
        requires fourth { IsShort fourth.now }
        ensures first { IsTagOf self.now.end.key first.now result.0 }
        ensures second { IsTagOf self.now.end.key second.now result.1 }
        ensures third { IsTagOf self.now.end.key third.now result.2 }
        ensures fourth { IsTagOf self.now.end.key fourth.now result.3 }
    {
        checksums4(
            &check_for(self, first),
            &check_for(self, second),
            &check_for(self, third),
            &check_for(self, fourth),
        )
    }

    // The tags of two tokens, and the SHA-1 of octets that are about as long as their messages.
    fn tags_and_digest<'a>(
        &'a self,
        first: &'a MicTask<'a>,
        second: &'a MicTask<'a>,
        octets: &'a [u8],
    ) -> ([u8; 12], [u8; 12], [u8; 20])
        requires size { length octets.now < 2 ^ 32 }
        requires first { IsAbout (length octets.now) first.now }
        requires second { IsAbout (length octets.now) second.now }
        ensures first { IsTagOf self.now.end.key first.now result.0 }
        ensures second { IsTagOf self.now.end.key second.now result.1 }
        ensures digest { result.2 ≡ sha1 octets.now }
    {
        checksums_and_digest(&check_for(self, first), &check_for(self, second), octets)
    }

    // The checksums of four short tokens, each with its token.
    fn known4<'a>(
        &self,
        first: &MicTask<'a>,
        second: &MicTask<'a>,
        third: &MicTask<'a>,
        fourth: &MicTask<'a>,
    ) -> KnownMics<'a>
        requires first { IsShort first.now }
        requires second { IsShort second.now }
        requires third { IsShort third.now }
        requires fourth { IsShort fourth.now }
        ensures { AreKnown self.now.end.key
            (first.now ∷ second.now ∷ third.now ∷ fourth.now ∷ []) result.mics }
    {
        let (t0, t1, t2, t3) = self.tags4(&*first, &*second, &*third, &*fourth);
        KnownMics {
            mics: [
                KnownMic::new(&self.end.key, first, &t0),
                KnownMic::new(&self.end.key, second, &t1),
                KnownMic::new(&self.end.key, third, &t2),
                KnownMic::new(&self.end.key, fourth, &t3),
            ],
        }
    }

    // The checksums of two tokens, each with its token, and the SHA-1 of octets that are about as long as their messages.
    fn known_pair<'a>(
        &self,
        first: &MicTask<'a>,
        second: &MicTask<'a>,
        octets: &'a [u8],
    ) -> KnownPair<'a>
        requires size { length octets.now < 2 ^ 32 }
        requires first { IsAbout (length octets.now) first.now }
        requires second { IsAbout (length octets.now) second.now }
        ensures known { AreKnown self.now.end.key (first.now ∷ second.now ∷ []) result.mics }
        ensures digest { result.digest.message.now ≡ octets.now }
    {
        let (t0, t1, digest) = self.tags_and_digest(&*first, &*second, &*octets);
        KnownPair {
            mics: [
                KnownMic::new(&self.end.key, first, &t0),
                KnownMic::new(&self.end.key, second, &t1),
            ],
            digest: KnownDigest::new(octets, &digest),
        }
    }
}

impl KeyCache {
    /// The checksums of four short tokens of this end's context; None unless the end's keys are kept.
    pub fn foresee4<'a>(
        &self,
        end: &TokenEnd,
        first: &MicTask<'a>,
        second: &MicTask<'a>,
        third: &MicTask<'a>,
        fourth: &MicTask<'a>,
    ) -> Option<KnownMics<'a>>
        requires first { IsShort first.now }
        requires second { IsShort second.now }
        requires third { IsShort third.now }
        requires fourth { IsShort fourth.now }
        ensures kept { IsSome result ↔ (kept_end self.now ≡ Some end.now) }
        ensures known { IfSome result (λ all. AreKnown end.now.key
            (first.now ∷ second.now ∷ third.now ∷ fourth.now ∷ []) all.mics) }
    {
        match self.keys_of(end) {
            Some(keys) => Some(keys.known4(first, second, third, fourth)),
            None => None,
        }
    }

    /// The checksums of two tokens of this end's context, and the SHA-1 of octets that are about as long as their messages;
    /// None unless the end's keys are kept.
    pub fn foresee_with_digest<'a>(
        &self,
        end: &TokenEnd,
        first: &MicTask<'a>,
        second: &MicTask<'a>,
        octets: &'a [u8],
    ) -> Option<KnownPair<'a>>
        requires size { length octets.now < 2 ^ 32 }
        requires first { IsAbout (length octets.now) first.now }
        requires second { IsAbout (length octets.now) second.now }
        ensures kept { IsSome result ↔ (kept_end self.now ≡ Some end.now) }
        ensures known { IfSome result
            (λ all. AreKnown end.now.key (first.now ∷ second.now ∷ []) all.mics) }
        ensures digest { IfSome result (λ all. all.digest.message.now ≡ octets.now) }
    {
        match self.keys_of(end) {
            Some(keys) => Some(keys.known_pair(first, second, octets)),
            None => None,
        }
    }
}
