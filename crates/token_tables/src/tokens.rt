//! MIC and Wrap tokens.

use crate::keys::key;
use krb_tokens::{KeyCache, Side, TokenEnd, TokenRefusal};
use table_rows::{Cells, Said};

/// The next cell's side.
fn side(cells: &mut Cells<'_>) -> Side {
    let word = cells.word();
    cells.expect(word == "Initiator" || word == "Acceptor");
    if word == "Initiator" {
        Side::Initiator
    } else {
        Side::Acceptor
    }
}

/// The end of the cells type, octets of the key, side and subkey.
fn end(cells: &mut Cells<'_>) -> TokenEnd {
    let (key, side, subkey) = (key(cells), side(cells), cells.is_yes());
    TokenEnd { key, side, subkey }
}

/// The facing end.
fn facing(end: &TokenEnd) -> TokenEnd {
    TokenEnd {
        key: end.key,
        side: end.side.other(),
        subkey: end.subkey,
    }
}

/// The kept keys of an end.
fn kept(end: &TokenEnd) -> KeyCache {
    let mut cache = KeyCache::empty();
    cache.keep(end);
    cache
}

/// Whether the end makes this token by its own kept keys, and by those of the facing end.
fn is_made_by_kept(end: &TokenEnd, number: u64, bytes: &[u8], token: &[u8; 28]) -> bool {
    let own = kept(end);
    let other = kept(&facing(end));
    end.make_mic_by(&own.lent(), number, bytes) == *token
        && end.make_mic_by(&other.lent(), number, bytes) == *token
}

/// The cells of an end, a number and octets: the MIC token, which is the same by kept keys.
pub fn mic(cells: &mut Cells<'_>, said: &mut Said) {
    let (end, number, bytes) = (end(cells), cells.number(), cells.octets());
    let token = end.make_mic(number, bytes.as_slice());
    if !is_made_by_kept(&end, number, bytes.as_slice(), &token) {
        said.word("is another by kept keys");
    }
    said.octets(&token);
}

/// Says what an end says to a token.
fn verdict_said(said: &mut Said, verdict: Result<(), TokenRefusal>) {
    match verdict {
        Ok(()) => said.word("Ok"),
        Err(refusal) => said.form(&refusal),
    }
}

/// The cells of an end, octets and a token: whether it is taken, or the refusal, which kept keys of both ends give too.
pub fn mic_check(cells: &mut Cells<'_>, said: &mut Said) {
    let (end, bytes, token) = (end(cells), cells.octets(), cells.octets());
    let (bytes, token) = (bytes.as_slice(), token.as_slice());
    let verdict = end.check_mic(token, bytes);
    let own = end.check_mic_by(&kept(&end).lent(), token, bytes);
    let other = end.check_mic_by(&kept(&facing(&end)).lent(), token, bytes);
    if own != verdict || other != verdict {
        said.word("kept keys say otherwise");
    }
    verdict_said(said, verdict);
}

/// The cells of an end, a number, whether to seal, a confounder and octets: the Wrap token.
pub fn wrap(cells: &mut Cells<'_>, said: &mut Said) {
    let (end, number, is_sealed) = (end(cells), cells.number(), cells.is_yes());
    let confounder: [u8; 16] = cells.exactly();
    let bytes = cells.octets();
    match end.wrap(
        cells.alloc(),
        number,
        is_sealed,
        &confounder,
        bytes.as_slice(),
    ) {
        Ok(token) => said.octets(token.as_slice()),
        Err(_) => said.starve(),
    }
}

/// The cells of an end and a token: whether it was sealed and what it holds, or the refusal.
pub fn unwrapped(cells: &mut Cells<'_>, said: &mut Said) {
    let (end, token) = (end(cells), cells.octets());
    match end.unwrap(cells.alloc(), token.as_slice()) {
        Ok(held) => {
            said.word("Ok");
            said.yes(held.sealed);
            said.octets(held.content.as_slice());
        }
        Err(refusal) => said.form(&refusal),
    }
}
