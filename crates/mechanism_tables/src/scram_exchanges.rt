//! An exchange of SCRAM between two ends.

use crate::kerberos::bindings_in;
use gss_base::Bindings;
use krb_tokens::MechDone;
use scram_mech::{ScramAccept, ScramInit, ScramRefusal, ScramWait, Verifiers, read_verifiers};
use sec_base::Moment;
use std::alloc::Global;
use table_rows::{Cells, Said};
use table_setting::saying;

/// What both ends of an exchange begin with.
#[derive(Drop)]
struct Ends {
    user: String,
    password: String,
    verifiers: Vec<u8>,
    own: [u8; 18],
    theirs: [u8; 18],
    here: Option<Bindings>,
    there: Option<Bindings>,
    now: Moment,
}

/// The cells user, password, verifier file, random octets of both, bindings of both and the acceptor's moment.
fn ends_in(cells: &mut Cells<'_>) -> Ends {
    Ends {
        user: cells.text(),
        password: cells.text(),
        verifiers: cells.octets(),
        own: cells.exactly(),
        theirs: cells.exactly(),
        here: bindings_in(cells),
        there: bindings_in(cells),
        now: cells.moment(),
    }
}

/// Says a refusal.
pub fn refused(said: &mut Said, refusal: ScramRefusal) {
    said.word("refused");
    said.join(":");
    saying::scram(said, refusal);
}

/// Says what an end is left with: `key:hash:initiator:end`.
pub fn left(said: &mut Said, done: &MechDone) {
    said.octets(done.key.bytes());
    said.join(":");
    said.octets(&done.hash);
    said.join(":");
    said.octets(done.initiator.text().as_bytes());
    said.join(":");
    said.moment(done.ends);
}

/// What both ends are left with, once the initiator has the final text.
fn ended(alloc: Global, said: &mut Said, wait: ScramWait, there: &MechDone, last: &[u8]) {
    match wait.take_final(alloc, last) {
        Err(refusal) => refused(said, refusal),
        Ok(here) => {
            left(said, there);
            left(said, &here);
        }
    }
}

/// The exchange from the text with the proof on.
fn finished(
    alloc: Global,
    said: &mut Said,
    ends: &Ends,
    wait: ScramWait,
    accept: ScramAccept,
    third: &[u8],
) {
    match accept.finish(alloc, third, ends.there.as_ref(), ends.now) {
        Err(refusal) => {
            drop(wait);
            refused(said, refusal);
        }
        Ok((done, last)) => {
            said.octets(last.as_slice());
            ended(alloc, said, wait, &done, last.as_slice());
        }
    }
}

/// The exchange from the acceptor's first text on.
fn proved(
    alloc: Global,
    said: &mut Said,
    ends: &Ends,
    end: ScramInit,
    accept: ScramAccept,
    second: &[u8],
) {
    match end.take_first(alloc, second) {
        Err(refusal) => {
            drop(accept);
            refused(said, refusal);
        }
        Ok((wait, third)) => {
            said.octets(third.as_slice());
            finished(alloc, said, ends, wait, accept, third.as_slice());
        }
    }
}

/// The exchange from the initiator's first token on.
fn accepted(
    alloc: Global,
    said: &mut Said,
    ends: &Ends,
    verifiers: &Verifiers,
    end: ScramInit,
    first: &[u8],
) {
    match ScramAccept::start(alloc, verifiers, first, &ends.theirs) {
        Err(refusal) => {
            drop(end);
            refused(said, refusal);
        }
        Ok((accept, second)) => {
            said.octets(second.as_slice());
            proved(alloc, said, ends, end, accept, second.as_slice());
        }
    }
}

/// The exchange with these verifiers.
fn begun(alloc: Global, said: &mut Said, ends: &Ends, verifiers: &Verifiers) {
    let (user, password) = (ends.user.as_str(), ends.password.as_str());
    match ScramInit::start(alloc, user, password, &ends.own, ends.here.as_ref()) {
        Err(refusal) => refused(said, refusal),
        Ok((end, first)) => {
            said.octets(first.as_slice());
            accepted(alloc, said, ends, verifiers, end, first.as_slice());
        }
    }
}

/// The exchange of these ends.
fn begin(cells: &mut Cells<'_>, said: &mut Said, ends: &Ends) {
    match read_verifiers(cells.alloc(), ends.verifiers.as_slice()) {
        Ok(verifiers) => begun(cells.alloc(), said, ends, &verifiers),
        Err(_) => cells.expect(false),
    }
}

/// The tokens of the exchange of a row, and what the acceptor and the initiator are left with, or the refusal.
pub fn answer(cells: &mut Cells<'_>, said: &mut Said) {
    let ends = ends_in(cells);
    begin(cells, said, &ends);
    drop(ends);
}
