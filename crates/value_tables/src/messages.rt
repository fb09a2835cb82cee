//! Calls and replies, both ways.

use rpc_msgs::{Auth, Call, CallRefusal, Reply, read_call, read_reply, write_call, write_reply};
use sec_base::{NoMemory, Octets};
use std::alloc::Global;
use table_rows::{Cells, Said};

/// The flavour of the credentials that calls are written with.
const GSS: u32 = 6;

/// The octets that a credential or a verifier may have.
const BODY: usize = 400;

/// Says that octets are read, and where they aren't written again as they were, that they are written otherwise.
pub fn written_as(said: &mut Said, read: &[u8], written: Result<Octets, NoMemory>) {
    match written {
        Ok(written) => {
            if written.as_slice() != read {
                said.word("is written otherwise");
            }
        }
        Err(NoMemory) => said.starve(),
    }
    said.word("Ok");
}

/// Says flavour and body of a credential or a verifier.
fn auth_said(said: &mut Said, auth: &Auth<'_>) {
    said.number(auth.flavour as u64);
    said.join(":");
    said.octets(auth.body);
}

/// Says a call: its numbers, flavour and body of its credential, the length of its header, flavour and body of its verifier, its arguments.
fn call_said(said: &mut Said, call: &Call<'_>) {
    said.number(call.xid as u64);
    said.number(call.program as u64);
    said.number(call.version as u64);
    said.number(call.procedure as u64);
    auth_said(said, &call.cred);
    said.number(call.header as u64);
    auth_said(said, &call.verf);
    said.octets(call.args);
}

/// A call as it is written, none where its credential or its verifier is too long.
fn call_written(alloc: Global, call: &Call<'_>) -> Result<Octets, NoMemory> {
    let (cred, verf) = (call.cred.body, call.verf.body);
    if cred.len() > BODY || verf.len() > BODY {
        return Ok(Octets::from_vec(Vec::new(alloc)));
    }
    write_call(
        alloc,
        call.xid,
        call.program,
        call.version,
        call.procedure,
        cred,
        call.verf.flavour,
        verf,
        call.args,
    )
}

/// Says a call that octets are, which is written as it was read where it has the flavour that calls are written with.
fn call_found(said: &mut Said, octets: &[u8], call: &Call<'_>) {
    if call.cred.flavour == GSS {
        let written = call_written(said.alloc(), call);
        written_as(said, octets, written);
    } else {
        said.word("Ok");
    }
    call_said(said, call);
}

/// The call that octets are, or why they are none.
pub fn called(cells: &mut Cells<'_>, said: &mut Said) {
    let octets = cells.octets();
    match read_call(octets.as_slice()) {
        Ok(call) => call_found(said, octets.as_slice(), &call),
        Err(CallRefusal::Unreadable { at }) => {
            said.word("Unreadable");
            said.number(at as u64);
        }
        Err(CallRefusal::NotCall) => said.word("NotCall"),
        Err(CallRefusal::RpcVersion { xid }) => {
            said.word("RpcVersion");
            said.number(xid as u64);
        }
    }
}

/// Says numbers.
fn numbers_said(said: &mut Said, numbers: &[u32]) {
    for number in numbers {
        said.number(*number as u64);
    }
}

/// Says a reply, with all its fields.
fn reply_said(said: &mut Said, reply: &Reply<'_>) {
    match *reply {
        Reply::Accepted {
            xid,
            flavour,
            verf,
            stat,
            low,
            high,
            result,
        } => {
            said.word("Accepted");
            numbers_said(said, &[xid, flavour]);
            said.octets(verf);
            numbers_said(said, &[stat, low, high]);
            said.octets(result);
        }
        Reply::Mismatch { xid, low, high } => {
            said.word("Mismatch");
            numbers_said(said, &[xid, low, high]);
        }
        Reply::AuthError { xid, stat } => {
            said.word("AuthError");
            numbers_said(said, &[xid, stat]);
        }
    }
}

/// The reply that octets are, which is written as they are, or the place at which they are none.
pub fn replied(cells: &mut Cells<'_>, said: &mut Said) {
    let octets = cells.octets();
    match read_reply(octets.as_slice()) {
        Ok(reply) => {
            written_as(said, octets.as_slice(), write_reply(cells.alloc(), &reply));
            reply_said(said, &reply);
        }
        Err(refusal) => {
            said.word("Refused");
            said.number(refusal.at as u64);
        }
    }
}
