//! An initiator of SCRAM, and the texts that come to it.

use crate::kerberos::bindings_in;
use crate::scram_exchanges::{left, refused};
use gss_base::Bindings;
use scram_mech::{ScramInit, ScramWait};
use std::alloc::Global;
use table_rows::{Cells, Said};

/// What an initiator begins with, and the two texts of the acceptor.
#[derive(Drop)]
struct Talk {
    user: String,
    password: String,
    nonce: [u8; 18],
    bindings: Option<Bindings>,
    second: Vec<u8>,
    last: Vec<u8>,
}

/// The cells user, password, random octets, bindings, and the two texts of the acceptor.
fn talk_in(cells: &mut Cells<'_>) -> Talk {
    Talk {
        user: cells.text(),
        password: cells.text(),
        nonce: cells.exactly(),
        bindings: bindings_in(cells),
        second: cells.octets(),
        last: cells.octets(),
    }
}

/// What the initiator says to the final text.
fn ended(alloc: Global, said: &mut Said, wait: ScramWait, last: &[u8]) {
    match wait.take_final(alloc, last) {
        Err(refusal) => refused(said, refusal),
        Ok(done) => left(said, &done),
    }
}

/// What the initiator says to the acceptor's first text, and to the final one.
fn proved(alloc: Global, said: &mut Said, talk: &Talk, end: ScramInit) {
    match end.take_first(alloc, talk.second.as_slice()) {
        Err(refusal) => refused(said, refusal),
        Ok((wait, third)) => {
            said.octets(third.as_slice());
            ended(alloc, said, wait, talk.last.as_slice());
        }
    }
}

/// The initiator's texts, and what it is left with or the refusal.
fn begun(alloc: Global, said: &mut Said, talk: &Talk) {
    let (user, password) = (talk.user.as_str(), talk.password.as_str());
    match ScramInit::start(alloc, user, password, &talk.nonce, talk.bindings.as_ref()) {
        Err(refusal) => refused(said, refusal),
        Ok((end, first)) => {
            said.octets(first.as_slice());
            proved(alloc, said, talk, end);
        }
    }
}

/// The texts of the initiator of a row, and what it is left with or the refusal.
pub fn answer(cells: &mut Cells<'_>, said: &mut Said) {
    let talk = talk_in(cells);
    begun(cells.alloc(), said, &talk);
    drop(talk);
}
