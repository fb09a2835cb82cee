//! The tokens of SPNEGO, and the list that both ends sign.

use crate::fields::identifiers;
use crate::values::{refused, written_as};
use sec_base::{Octets, Oid};
use spnego_msgs::{
    NegInit, NegResp, NegState, list_bytes, read_init, read_resp, write_init, write_resp,
};
use std::alloc::Global;
use table_rows::{Cells, Said};

/// Says a field of octets that may be there.
fn octets_said(said: &mut Said, path: &str, octets: &Option<Octets>) {
    said.word(path);
    said.join("=");
    match octets {
        Some(octets) => {
            said.word("some");
            said.join(":");
            said.hex(octets.as_slice());
        }
        None => said.word("none"),
    }
}

/// Says the fields of a first token.
fn init_said(said: &mut Said, token: &NegInit) {
    said.word("list");
    said.join("=");
    identifiers(said, token.list.as_slice());
    octets_said(said, "flags", &token.flags);
    octets_said(said, "token", &token.token);
    octets_said(said, "mic", &token.mic);
}

/// A first token written.
fn init_written(alloc: Global, token: &NegInit) -> Option<Octets> {
    let count = token.list.as_slice().len();
    if count < 1 || count > 16 {
        return None;
    }
    write_init(alloc, token).ok()
}

/// Says a first token, which is written as it stood, or why octets are none.
fn init(said: &mut Said, octets: &[u8]) {
    match read_init(said.alloc(), octets) {
        Ok(token) => {
            let written = init_written(said.alloc(), &token);
            written_as(said, octets, written);
            init_said(said, &token);
        }
        Err(refusal) => refused(said, refusal),
    }
}

/// The state that may be there, by its number.
fn state_said(state: Option<NegState>) -> &'static str {
    match state {
        None => "none",
        Some(NegState::Completed) => "0",
        Some(NegState::Incomplete) => "1",
        Some(NegState::Reject) => "2",
        Some(NegState::RequestMic) => "3",
    }
}

/// Says the mechanism that may be there.
fn mechanism_said(said: &mut Said, mechanism: &Option<Oid>) {
    said.word("mech");
    said.join("=");
    match mechanism {
        Some(oid) => {
            said.word("some");
            said.join(":");
            said.octets(oid.content());
        }
        None => said.word("none"),
    }
}

/// Says the fields of a later token.
fn resp_said(said: &mut Said, token: &NegResp) {
    said.word("state");
    said.join("=");
    said.word(state_said(token.state));
    mechanism_said(said, &token.mech);
    octets_said(said, "token", &token.token);
    octets_said(said, "mic", &token.mic);
}

/// Says a later token, which is written as it stood, or why octets are none.
fn resp(said: &mut Said, octets: &[u8]) {
    match read_resp(said.alloc(), octets) {
        Ok(token) => {
            let written = write_resp(said.alloc(), &token).ok();
            written_as(said, octets, written);
            resp_said(said, &token);
        }
        Err(refusal) => refused(said, refusal),
    }
}

/// Adds the identifier with this content, and answers whether it could.
fn is_added(list: &mut Vec<Oid>, content: &[u8]) -> bool {
    match Oid::new(content) {
        Some(oid) => list.push(oid).is_ok(),
        None => false,
    }
}

/// Says the octets of a list of identifiers with commas between them.
fn list(cells: &mut Cells<'_>, said: &mut Said, contents: &str) {
    let mut list = Vec::new(cells.alloc());
    for content in contents.split(',') {
        let is_added = is_added(&mut list, cells.octets_in(content).as_slice());
        cells.expect(is_added);
    }
    match list_bytes(cells.alloc(), list.as_slice()) {
        Ok(octets) => said.octets(octets.as_slice()),
        Err(_) => said.starve(),
    }
}

/// The cells kind and octets, or `list` and identifiers: the fields of a token or the refusal, or the list's octets.
pub fn read(cells: &mut Cells<'_>, said: &mut Said) {
    let (kind, cell) = (cells.word(), cells.word());
    match kind {
        "init" => init(said, cells.octets_in(cell).as_slice()),
        "resp" => resp(said, cells.octets_in(cell).as_slice()),
        "list" => list(cells, said, cell),
        _ => cells.expect(false),
    }
}
