//! One text of SCRAM to an end that waits for it: to the acceptor or the initiator of one user, without bindings.

use scram_mech::{ScramAccept, ScramInit, ScramRefusal, ScramWait, Verifiers, read_verifiers};
use sec_base::{Moment, Octets};
use std::alloc::Global;
use table_rows::{Cells, Said};
use table_setting::saying;

/// The verifier file: the user `user` with the password `pencil`.
const FILE: &str =
    "user:4096:MDEyMzQ1Njc4OWFiY2RlZg==:rPJ7iPSJer+bnDr9PCWJNRIA68M=:rcHjOyVIe4jH3uaHsm83lApzxlo=\n";

/// The random octets of an end: 18 that count from this number.
fn counting(first: u8) -> [u8; 18] {
    let mut octets = [0; 18];
    for number in 0..18u8 {
        octets[number as usize] = first.wrapping_add(number);
    }
    octets
}

/// The initiator and its token.
fn begun(alloc: Global) -> Result<(ScramInit, Octets), ScramRefusal> {
    ScramInit::start(alloc, "user", "pencil", &counting(0), None)
}

/// The acceptor behind a token, and its text.
fn accepted(
    alloc: Global,
    verifiers: &Verifiers,
    token: &[u8],
) -> Result<(ScramAccept, Octets), ScramRefusal> {
    ScramAccept::start(alloc, verifiers, token, &counting(100))
}

/// Says `Ok` and a token.
fn fine(said: &mut Said, token: &[u8]) {
    said.word("Ok");
    said.join(":");
    said.octets(token);
}

/// A text, which of an exchange's texts it is, and the acceptor's verifiers.
#[derive(Clone, Copy)]
struct Asked<'a> {
    which: &'a str,
    text: &'a [u8],
    verifiers: &'a Verifiers,
}

/// What the acceptor says to a first token.
fn first(alloc: Global, said: &mut Said, asked: &Asked<'_>) {
    match accepted(alloc, asked.verifiers, asked.text) {
        Ok((_accept, second)) => fine(said, second.as_slice()),
        Err(refusal) => saying::scram(said, refusal),
    }
}

/// What the initiator says to the acceptor's first text.
fn second(alloc: Global, said: &mut Said, end: ScramInit, text: &[u8]) {
    match end.take_first(alloc, text) {
        Ok((_wait, third)) => fine(said, third.as_slice()),
        Err(refusal) => saying::scram(said, refusal),
    }
}

/// What an acceptor that waits for the proof says to the text with it.
fn finished(alloc: Global, said: &mut Said, accept: ScramAccept, text: &[u8]) {
    match accept.finish(alloc, text, None, Moment::start()) {
        Ok((_done, last)) => fine(said, last.as_slice()),
        Err(refusal) => saying::scram(said, refusal),
    }
}

/// What the acceptor behind the initiator's token says to the text with the proof.
fn third(alloc: Global, said: &mut Said, asked: &Asked<'_>, opening: &[u8]) {
    match accepted(alloc, asked.verifiers, opening) {
        Ok((accept, _second)) => finished(alloc, said, accept, asked.text),
        Err(_) => said.starve(),
    }
}

/// What an initiator that waits for the final text says to it.
fn ended(alloc: Global, said: &mut Said, wait: ScramWait, text: &[u8]) {
    match wait.take_final(alloc, text) {
        Ok(_done) => said.word("Ok"),
        Err(refusal) => saying::scram(said, refusal),
    }
}

/// What the initiator behind the acceptor's first text says to the final one.
fn proved(alloc: Global, said: &mut Said, end: ScramInit, second: &[u8], text: &[u8]) {
    match end.take_first(alloc, second) {
        Ok((wait, _third)) => ended(alloc, said, wait, text),
        Err(_) => said.starve(),
    }
}

/// What the initiator says to the final text, once the acceptor has its token.
fn last(alloc: Global, said: &mut Said, asked: &Asked<'_>, end: ScramInit, opening: &[u8]) {
    match accepted(alloc, asked.verifiers, opening) {
        Ok((_accept, second)) => proved(alloc, said, end, second.as_slice(), asked.text),
        Err(_) => {
            drop(end);
            said.starve();
        }
    }
}

/// What the acceptor says to a text that it waits for: `first`, framed, or `third`.
fn judged_by_acceptor(alloc: Global, said: &mut Said, asked: &Asked<'_>, opening: &[u8]) {
    match asked.which {
        "first" => first(alloc, said, asked),
        "third" => third(alloc, said, asked, opening),
        _ => said.word("which"),
    }
}

/// What is said to a text by the end that waits for it: the initiator waits for `second` and `final`.
fn told(alloc: Global, said: &mut Said, asked: &Asked<'_>, end: ScramInit, opening: &[u8]) {
    match asked.which {
        "second" => second(alloc, said, end, asked.text),
        "final" => last(alloc, said, asked, end, opening),
        _ => {
            drop(end);
            judged_by_acceptor(alloc, said, asked, opening);
        }
    }
}

/// What is said to a text, by an initiator and an acceptor with these verifiers.
fn judged(alloc: Global, said: &mut Said, asked: &Asked<'_>) {
    match begun(alloc) {
        Ok((end, opening)) => told(alloc, said, asked, end, opening.as_slice()),
        Err(_) => said.starve(),
    }
}

/// What is said to the text of a row, by the cells which text it is and the text.
pub fn answer(cells: &mut Cells<'_>, said: &mut Said) {
    let which = cells.word();
    let text = cells.octets();
    let alloc = cells.alloc();
    match read_verifiers(alloc, FILE.as_bytes()) {
        Ok(verifiers) => {
            let (text, verifiers) = (text.as_slice(), &verifiers);
            let asked = Asked {
                which,
                text,
                verifiers,
            };
            judged(alloc, said, &asked);
        }
        Err(_) => said.starve(),
    }
}
