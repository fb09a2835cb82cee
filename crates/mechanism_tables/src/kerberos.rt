//! Kerberos's exchange by itself: a request that is judged and answered, and a request that is made and takes its reply.

use ap_exchange::{ApInit, Judged, judge_request};
use gss_base::{Bindings, Principal};
use krb_derive::{Etype, Key};
use krb_files::{Credential, Keytab, read_keytab};
use krb_tokens::MechDone;
use sec_base::{Moment, Octets};
use std::alloc::Global;
use table_rows::{Cells, Said};
use table_setting::{credential, saying};

/// The bindings with these octets, at most 32,768 and not none.
fn bindings_of(octets: Vec<u8>) -> Option<Bindings> {
    if octets.len() > 32768 {
        return None;
    }
    Bindings::new(Octets::from_vec(octets)).ok()
}

/// The bindings with a cell's octets, and no bindings for `-`.
pub fn bindings_in(cells: &mut Cells<'_>) -> Option<Bindings> {
    let octets = cells.octets();
    if octets.is_empty() {
        return None;
    }
    let bindings = bindings_of(octets);
    cells.expect(bindings.is_some());
    bindings
}

/// The principal of a cell.
pub fn principal_in(cells: &mut Cells<'_>) -> Option<Principal> {
    let text = cells.text();
    Principal::parse(cells.alloc(), text.as_str()).ok()
}

/// The type of a key.
fn etype_in(cells: &mut Cells<'_>) -> Option<Etype> {
    match i32::try_from(cells.signed()) {
        Ok(number) => Etype::of(number),
        Err(_) => None,
    }
}

/// The key of the cells type and octets.
pub fn key_in(cells: &mut Cells<'_>) -> Option<Key> {
    let etype = etype_in(cells);
    let octets = cells.octets();
    match etype {
        Some(etype) => Key::new(etype, octets.as_slice()),
        None => None,
    }
}

/// Says `type:key`.
fn say_key(said: &mut Said, key: &Key) {
    said.signed(key.etype().number() as i64);
    said.join(":");
    said.octets(key.bytes());
}

/// A request and who judges it.
#[derive(Drop)]
struct Request {
    keytab: Vec<u8>,
    own: Option<Principal>,
    now: Moment,
    bindings: Option<Bindings>,
    token: Vec<u8>,
    draws: [u8; 66],
}

/// The cells keytab, own name, moment, bindings, token and random octets.
fn request_in(cells: &mut Cells<'_>) -> Request {
    Request {
        keytab: cells.octets(),
        own: principal_in(cells),
        now: cells.moment(),
        bindings: bindings_in(cells),
        token: cells.octets(),
        draws: cells.exactly(),
    }
}

/// What is said to the request of a row: the mark, the reply and what the acceptor is left with, or the refusal.
pub fn judged(cells: &mut Cells<'_>, said: &mut Said) {
    let request = request_in(cells);
    judge_in(cells, said, &request);
    drop(request);
}

/// What is said to a request.
fn judge_in(cells: &mut Cells<'_>, said: &mut Said, request: &Request) {
    match &request.own {
        Some(own) => judge_by(cells, said, request, own),
        None => cells.expect(false),
    }
}

/// What this name says to a request.
fn judge_by(cells: &mut Cells<'_>, said: &mut Said, request: &Request, own: &Principal) {
    match read_keytab(cells.alloc(), request.keytab.as_slice()) {
        Ok(keytab) => judge(cells.alloc(), said, request, &keytab, own),
        Err(_) => cells.expect(false),
    }
}

/// What is said to a request under this keytab and this name.
fn judge(alloc: Global, said: &mut Said, request: &Request, keytab: &Keytab, own: &Principal) {
    let (bindings, token) = (request.bindings.as_ref(), request.token.as_slice());
    match judge_request(alloc, keytab, own, request.now, bindings, token) {
        Err(refusal) => saying::kerberos(said, refusal),
        Ok(judged) => answer(alloc, said, judged, &request.draws),
    }
}

/// What is answered to a request that was judged.
fn answer(alloc: Global, said: &mut Said, request: Judged, draws: &[u8; 66]) {
    let mark = request.mark();
    match request.answer(alloc, draws) {
        Err(_no_memory) => said.starve(),
        Ok((done, reply)) => {
            said.word("Ok");
            said.octets(&mark.who);
            said.moment(mark.at);
            said.octets(reply.as_slice());
            left(said, &done);
        }
    }
}

/// What an acceptor is left with: key, hash, both names, whether the key is a subkey, and the end.
fn left(said: &mut Said, done: &MechDone) {
    say_key(said, &done.key);
    said.octets(&done.hash);
    said.octets(done.initiator.text().as_bytes());
    said.octets(done.acceptor.text().as_bytes());
    said.yes(done.subkey);
    said.moment(done.ends);
}

/// What a request is made from, and the reply to it.
#[derive(Drop)]
struct Exchange {
    own: Option<Credential>,
    stamp: Moment,
    draws: [u8; 66],
    bindings: Option<Bindings>,
    reply: Vec<u8>,
}

/// The cells client, server, type and octets of the session key and ticket.
pub fn credential_in(cells: &mut Cells<'_>) -> Option<Credential> {
    let (client, server) = (cells.text(), cells.text());
    let session = key_in(cells);
    let ticket = cells.octets();
    let (client, server, ticket) = (client.as_str(), server.as_str(), ticket.as_slice());
    match session {
        Some(session) => credential(cells.alloc(), client, server, session, ticket),
        None => None,
    }
}

/// The cells of a credential, moment, random octets, bindings and reply.
fn exchange_in(cells: &mut Cells<'_>) -> Exchange {
    Exchange {
        own: credential_in(cells),
        stamp: cells.moment(),
        draws: cells.exactly(),
        bindings: bindings_in(cells),
        reply: cells.octets(),
    }
}

/// The request of a row, and what the initiator says to the reply.
pub fn replied(cells: &mut Cells<'_>, said: &mut Said) {
    let exchange = exchange_in(cells);
    begin(cells, said, &exchange);
    drop(exchange);
}

/// The request of an exchange, and what the initiator says to the reply.
fn begin(cells: &mut Cells<'_>, said: &mut Said, exchange: &Exchange) {
    match &exchange.own {
        Some(own) => begun(cells.alloc(), said, own, exchange),
        None => cells.expect(false),
    }
}

/// The request by this credential, and what the initiator says to the reply.
fn begun(alloc: Global, said: &mut Said, own: &Credential, exchange: &Exchange) {
    let (stamp, bindings) = (exchange.stamp, exchange.bindings.as_ref());
    match ApInit::start(alloc, own, stamp, &exchange.draws, bindings) {
        Err(refusal) => {
            said.word("-");
            saying::kerberos(said, refusal);
        }
        Ok((end, token)) => {
            said.octets(token.as_slice());
            taken(alloc, said, end, exchange.reply.as_slice());
        }
    }
}

/// What an initiator says to a reply.
fn taken(alloc: Global, said: &mut Said, end: ApInit, reply: &[u8]) {
    match end.take_reply(alloc, reply) {
        Err(refusal) => saying::kerberos(said, refusal),
        Ok(done) => {
            said.word("Ok");
            say_key(said, &done.key);
            said.octets(&done.hash);
            said.yes(done.subkey);
        }
    }
}
