//! Checksums of a data call by integrity and of its reply that are computed side by side, before they are asked for.
//!
//! They are looked up where a checksum is due, and taken where key, side, octets and header are the same. So an answer is the same with
//! them and without.

ghost use Rattle.std.specs.Prelude.{◌≤◌, length};
ghost use Rattle.krb_tokens.specs.Known.{IsShort};

use crate::heard::Heard;
use crate::saying::end_at;
use accept_book::Lease;
use krb_tokens::{KeyCache, KnownMics, KnownPair, LentKeys, MicTask, TokenEnd};
use rpcsec_msgs::numbers::RPC_GSS_SVC_INTEGRITY;
use rpcsec_msgs::{GssCred, split_checked};

/// The most octets of a message whose checksum is computed beside three others.
pub(crate) const SHORT: usize = 112;

/// The most octets of a record, and so of a body.
const LONG: usize = 131_072;

/// The databody of a call by integrity and its MIC (RFC 2203 section 5.3.2.2), where it has them.
fn signed_body<'a>(heard: &Heard<'a>, cred: &GssCred<'_>) -> Option<(&'a [u8], &'a [u8])> {
    if cred.service != RPC_GSS_SVC_INTEGRITY {
        return None;
    }
    split_checked(heard.call.args).ok()
}

/// Four checksums of a short call: those of its header and its body, and those of its reply's verifier and body, where that has the
/// content of the call, as the replies of NULL and ECHO have.
pub(crate) fn foresee_short<'a>(
    heard: &Heard<'a>,
    cred: &GssCred<'_>,
    lease: &Lease,
    keys: &KeyCache,
) -> Option<KnownMics<'a>> {
    let (body, mic) = signed_body(heard, cred)?;
    let bytes = heard.bytes;
    let header = &bytes[..heard.call.header];
    if header.len() > SHORT || body.len() > SHORT || body.len() < 4 {
        return None;
    }
    let end = end_at(lease);
    let of_header = end.mic_taken(heard.call.verf.body, header);
    let (of_header, of_body) = of_header.zip(end.mic_taken(mic, body))?;
    foresee_reply(keys, &end, cred.seq, &of_header, &of_body)
}

/// Four checksums of a short call by the two of its own: those of its reply are taken of its body.
fn foresee_reply<'a>(
    keys: &KeyCache,
    end: &TokenEnd,
    seq: u32,
    of_header: &MicTask<'a>,
    of_body: &MicTask<'a>,
) -> Option<KnownMics<'a>>
    requires header { IsShort of_header.now }
    requires body { IsShort of_body.now }
    requires size { 4 ≤ length of_body.now.message.now }
{
    let body = of_body.message;
    let number = 2 * seq as u64;
    let of_verifier = end.mic_due(number, &body[..4]);
    let of_reply = end.mic_due(number + 1, body);
    keys.foresee4(end, of_header, of_body, &of_verifier, &of_reply)
}

/// The checksums of a long call's body and of its reply's, where that has the content of the call, and the digest of the call's content.
///
/// It is asked for once the call's header was verified, so that a call of somebody else costs no more than its header.
pub(crate) fn foresee_long<'a>(
    heard: &Heard<'a>,
    cred: &GssCred<'_>,
    lease: &Lease,
    keys: &KeyCache,
) -> Option<KnownPair<'a>> {
    let (body, mic) = signed_body(heard, cred)?;
    if body.len() <= SHORT || body.len() > LONG {
        return None;
    }
    let end = end_at(lease);
    let of_body = end.mic_taken(mic, body)?;
    let of_reply = end.mic_due(2 * cred.seq as u64 + 1, body);
    keys.foresee_with_digest(&end, &of_body, &of_reply, &body[4..])
}

/// The keys, with what was foreseen of a short call.
pub(crate) fn lend_short<'a>(keys: &'a KeyCache, short: &'a Option<KnownMics<'a>>) -> LentKeys<'a> {
    match short {
        Some(known) => LentKeys {
            cache: keys,
            mics: &known.mics,
            digest: None,
        },
        None => keys.lent(),
    }
}

/// The keys, with what was foreseen of a long call.
pub(crate) fn lend_long<'a>(keys: &'a KeyCache, known: &'a KnownPair<'a>) -> LentKeys<'a> {
    LentKeys {
        cache: keys,
        mics: &known.mics,
        digest: Some(&known.digest),
    }
}
