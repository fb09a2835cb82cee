//! What mechanisms speak of: their kinds, marks, hashes of bindings, status numbers.

use gss_base::{Bindings, EmptyBindings, Label, MechKind, binding_hash, mark_of, status};
use sec_base::{Octets, Oid};
use table_rows::{Cells, Said};

/// The octets that bindings may have.
const BINDINGS: usize = 32_768;

/// Says the mechanism of an object identifier, and that mechanism's own.
fn kind_said(said: &mut Said, oid: &Oid) {
    match MechKind::of(oid) {
        Some(kind) => {
            said.form(&kind);
            said.octets(kind.oid().content());
        }
        None => said.word("None"),
    }
}

/// The mechanism of an object identifier, which that mechanism has.
pub fn kind(cells: &mut Cells<'_>, said: &mut Said) {
    let content = cells.octets();
    match Oid::new(content.as_slice()) {
        Some(oid) => kind_said(said, &oid),
        None => cells.expect(false),
    }
}

/// Says the hash of bindings with this application data, where it isn't too long.
fn hash_said(said: &mut Said, application: Vec<u8>) {
    if application.len() > BINDINGS {
        said.word("too long");
    } else {
        match Bindings::new(Octets::from_vec(application)) {
            Ok(bindings) => said.octets(&binding_hash(Some(&bindings))),
            Err(EmptyBindings) => said.word("EmptyBindings"),
        }
    }
}

/// The hash of bindings with this application data, or of none.
pub fn hash(cells: &mut Cells<'_>, said: &mut Said) {
    let cell = cells.word();
    if cell == "none" {
        said.octets(&binding_hash(None));
    } else {
        hash_said(said, cells.octets_in(cell));
    }
}

/// Who made the mark of the cells server, client and moment for whom, and its moment in microseconds.
pub fn mark(cells: &mut Cells<'_>, said: &mut Said) {
    let (server, client, at) = (cells.text(), cells.text(), cells.moment());
    match (Label::new(server.as_str()), Label::new(client.as_str())) {
        (Some(server), Some(client)) => {
            let mark = mark_of(&server, &client, at);
            said.octets(&mark.who);
            said.number(mark.at.total());
        }
        _ => cells.expect(false),
    }
}

/// The routine errors, in the order of their numbers.
const ERRORS: [u32; 8] = [
    status::BAD_MECH,
    status::BAD_BINDINGS,
    status::BAD_MIC,
    status::NO_CRED,
    status::DEFECTIVE_TOKEN,
    status::CREDENTIALS_EXPIRED,
    status::FAILURE,
    status::UNAUTHORIZED,
];

/// Says a major status in hexadecimal.
fn major_said(said: &mut Said, major: u32) {
    said.octets(&major.to_be_bytes());
}

/// Says the major statuses of the routine errors.
fn errors(said: &mut Said) {
    for (at, error) in ERRORS.iter().enumerate() {
        said.listed(at);
        if *error < 256 {
            major_said(said, status::major(*error));
        }
    }
}

/// The statuses of a kind: `errors` or `calls`.
pub fn statuses(cells: &mut Cells<'_>, said: &mut Said) {
    match cells.word() {
        "errors" => errors(said),
        "calls" => {
            major_said(said, status::COMPLETE);
            said.join(",");
            major_said(said, status::CONTINUE_NEEDED);
        }
        _ => cells.expect(false),
    }
}
