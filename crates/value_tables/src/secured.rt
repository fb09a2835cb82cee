//! The credentials, results and bodies of RPCSEC_GSS, both ways.

use crate::messages::written_as;
use crate::xdr::refused;
use rpcsec_msgs::{
    GssCred, InitRes, join_checked, join_sealed, read_cred, read_init_res, split_checked,
    split_sealed, write_cred, write_init_res,
};
use sec_base::{NoMemory, Octets};
use std::alloc::Global;
use table_rows::{Cells, Said};

/// More octets than a row has.
const MOST: usize = 65_536;

/// Says procedure, number, service and handle of a credential that octets are.
fn cred_said(said: &mut Said, octets: &[u8], cred: &GssCred<'_>) {
    if cred.context.len() <= MOST {
        let written = write_cred(said.alloc(), cred);
        written_as(said, octets, written);
    }
    said.number(cred.proc as u64);
    said.number(cred.seq as u64);
    said.number(cred.service as u64);
    said.octets(cred.context);
}

/// The credential that octets are, or the place at which they are none.
pub fn credential(cells: &mut Cells<'_>, said: &mut Said) {
    let octets = cells.octets();
    match read_cred(octets.as_slice()) {
        Ok(cred) => cred_said(said, octets.as_slice(), &cred),
        Err(refusal) => {
            said.word("Refused");
            said.number(refusal.at as u64);
        }
    }
}

/// Says handle, statuses, window and token of a result.
fn result_said(said: &mut Said, res: &InitRes) {
    said.octets(res.context.as_slice());
    said.number(res.major as u64);
    said.number(res.minor as u64);
    said.number(res.window as u64);
    said.octets(res.token.as_slice());
}

/// The result of a creation call that octets are, or why they are none.
pub fn creation(cells: &mut Cells<'_>, said: &mut Said) {
    let octets = cells.octets();
    match read_init_res(cells.alloc(), octets.as_slice()) {
        Ok(res) => {
            let written = write_init_res(cells.alloc(), &res);
            written_as(said, octets.as_slice(), written);
            result_said(said, &res);
        }
        Err(refusal) => refused(said, refusal),
    }
}

/// A body by integrity as it is joined, none where its parts are too long.
fn checked_joined(alloc: Global, body: &[u8], tag: &[u8]) -> Result<Octets, NoMemory> {
    if body.len() > MOST || tag.len() > MOST {
        return Ok(Octets::from_vec(Vec::new(alloc)));
    }
    join_checked(alloc, body, tag)
}

/// Octets and MIC of a body by integrity, or why it is none.
pub fn checked(cells: &mut Cells<'_>, said: &mut Said) {
    let octets = cells.octets();
    match split_checked(octets.as_slice()) {
        Ok((body, tag)) => {
            written_as(
                said,
                octets.as_slice(),
                checked_joined(cells.alloc(), body, tag),
            );
            said.octets(body);
            said.octets(tag);
        }
        Err(refusal) => refused(said, refusal),
    }
}

/// A body by privacy as it is joined, none where its token is too long.
fn sealed_joined(alloc: Global, token: &[u8]) -> Result<Octets, NoMemory> {
    if token.len() > MOST {
        return Ok(Octets::from_vec(Vec::new(alloc)));
    }
    join_sealed(alloc, token)
}

/// The token of a body by privacy, or why it is none.
pub fn sealed(cells: &mut Cells<'_>, said: &mut Said) {
    let octets = cells.octets();
    match split_sealed(octets.as_slice()) {
        Ok(token) => {
            written_as(said, octets.as_slice(), sealed_joined(cells.alloc(), token));
            said.octets(token);
        }
        Err(refusal) => refused(said, refusal),
    }
}
