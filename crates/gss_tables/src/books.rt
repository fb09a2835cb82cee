//! A book and what is asked of it, one question after the other.

use crate::connections::book_of;
use crate::entries;
use crate::served::{BookGate, call_of, gate_of, is_taken};
use accept_book::{
    AdmitRefusal, Admitted, BookRefusal, Entry, Lease, NegAnswer, Negotiated, Receipt, Receipts,
};
use gss_server::Gate;
use rpc_program::Outcome;
use std::alloc::Global;
use table_rows::{Cells, Said};
use table_setting::{Files, Setting, draws, saying};

/// Says a name and a number.
fn numbered(said: &mut Said, name: &str, number: u64) {
    said.word(name);
    said.join(":");
    said.number(number);
}

/// Says `id:outcome:end`, the end in microseconds.
fn say_lease(said: &mut Said, lease: &Lease) {
    said.number(lease.id);
    said.join(":");
    saying::outcome(said, &lease.outcome);
    said.join(":");
    said.number(lease.ends.total());
}

/// Says a book's refusal by its name and what it holds.
fn say_refused(said: &mut Said, refusal: BookRefusal) {
    match refusal {
        BookRefusal::Neg(refusal) => saying::refusal(said, refusal),
        BookRefusal::Stale { greatest } => numbered(said, "Stale", greatest.total()),
        BookRefusal::Repeat { place } => numbered(said, "Repeat", place),
        refusal => said.form(&refusal),
    }
}

/// Says what a token came to.
fn say_answer(said: &mut Said, answer: &NegAnswer) {
    match answer {
        NegAnswer::Going { id, token } => {
            numbered(said, "Going", *id);
            said.join(":");
            said.octets(token.as_slice());
        }
        NegAnswer::Settled { lease, token } => {
            said.word("Settled");
            said.join(":");
            say_lease(said, lease);
            said.join(":");
            said.octets(token.as_slice());
        }
        NegAnswer::Refused(refusal) => say_refused(said, *refusal),
        NegAnswer::NoMemory => said.word("NoMemory"),
    }
}

/// Says `place-entry`.
pub fn say_receipt(said: &mut Said, receipt: &Receipt) {
    said.number(receipt.place);
    said.join("-");
    entries::say(said, &receipt.entry);
}

/// Says the entries that a step added, `-` where there is none.
pub fn say_receipts(said: &mut Said, receipts: &Receipts) {
    if receipts.count == 0 {
        said.word("-");
    }
    for one in receipts.list.iter().take(receipts.count as usize) {
        say_receipt(said, one);
        said.join(",");
    }
    said.join(" ");
}

/// Says what a token came to, and the entries that its step added.
fn say_negotiated(said: &mut Said, negotiated: &Negotiated) {
    say_answer(said, &negotiated.answer);
    said.join("/");
    say_receipts(said, &negotiated.receipts);
}

/// Says why a number isn't admitted.
fn say_unadmitted(said: &mut Said, refusal: AdmitRefusal) {
    match refusal {
        AdmitRefusal::Below { last } => numbered(said, "Below", last as u64),
        refusal => said.form(&refusal),
    }
}

/// Says what came of a call: `args`, the octets of its result, or why it has none.
fn say_outcome(said: &mut Said, outcome: &Outcome) {
    match outcome {
        Outcome::Args => said.word("args"),
        Outcome::Done(octets) => said.octets(octets.as_slice()),
        Outcome::Refused(why) => said.form(why),
        Outcome::Mismatch { low, high } => {
            said.number(*low as u64);
            said.join("-");
            said.number(*high as u64);
        }
        Outcome::Gone => said.word("gone"),
        Outcome::NoMemory => said.starve(),
    }
}

/// Says what is answered to a call: its entry, and what came of it.
fn say_admitted(said: &mut Said, answer: &Result<Admitted, AdmitRefusal>) {
    match answer {
        Ok(admitted) => {
            say_receipt(said, &admitted.receipt);
            said.join(":");
            say_outcome(said, &admitted.outcome);
        }
        Err(refusal) => say_unadmitted(said, *refusal),
    }
}

/// Says what is answered to an end.
pub fn say_ended(said: &mut Said, answer: &Result<Receipt, AdmitRefusal>) {
    match answer {
        Ok(receipt) => say_receipt(said, receipt),
        Err(refusal) => say_unadmitted(said, *refusal),
    }
}

/// Says what comes of `token:moment` for a context, of a first token where there is no id.
fn take<G: Gate>(
    gate: &mut G,
    files: &Files,
    id: Option<u64>,
    parts: &mut Cells<'_>,
    said: &mut Said,
) {
    let token = files.octets(parts);
    let now = parts.moment();
    let (alloc, token) = (parts.alloc(), token.as_slice());
    let answer = gate.negotiate(alloc, id, token, now, &draws());
    say_negotiated(said, &answer);
}

/// Says what is answered to a look, `id:moment`; a lease that it shows is kept.
fn look<G: Gate>(gate: &mut G, lease: &mut Option<Lease>, parts: &mut Cells<'_>, said: &mut Said) {
    let (id, now) = (parts.number(), parts.moment());
    match gate.look(id, now) {
        Ok(found) => {
            *lease = Some(found);
            say_lease(said, &found);
        }
        Err(refusal) => said.form(&refusal),
    }
}

/// Says what is answered to a call of the lease's context, `number:procedure:arguments`.
fn call<G: Gate>(gate: &mut G, lease: &Option<Lease>, parts: &mut Cells<'_>, said: &mut Said) {
    let (number, procedure) = (parts.word_number(), parts.word_number());
    let args = parts.octets();
    match lease {
        Some(lease) if is_taken(gate, procedure, args.as_slice()) => {
            let call = call_of(number, procedure, args.as_slice());
            say_admitted(said, &gate.admit(parts.alloc(), lease, &call));
        }
        _ => parts.expect(false),
    }
}

/// Says what is answered to an end of the lease's context.
fn end<G: Gate>(gate: &mut G, lease: &Option<Lease>, parts: &mut Cells<'_>, said: &mut Said) {
    let number = parts.word_number();
    match lease {
        Some(lease) => say_ended(said, &gate.end(lease, number)),
        None => parts.expect(false),
    }
}

/// Says `step=answer` of a step that a gate is asked; a lease that it shows is kept for the next.
pub fn say_step<G: Gate>(
    gate: &mut G,
    lease: &mut Option<Lease>,
    files: &Files,
    cells: &mut Cells<'_>,
    step: &str,
    said: &mut Said,
) {
    said.word(step);
    said.join("=");
    let mut parts = Cells::new(cells.alloc(), step, ':');
    match parts.word() {
        "first" => take(gate, files, None, &mut parts, said),
        "later" => {
            let id = parts.number();
            take(gate, files, Some(id), &mut parts, said);
        }
        "look" => look(gate, lease, &mut parts, said),
        "call" => call(gate, lease, &mut parts, said),
        "end" => end(gate, lease, &mut parts, said),
        _ => parts.expect(false),
    }
    cells.expect(parts.are_well() && parts.rest().is_none());
}

/// Says `log=` and the digest of a log.
pub fn say_log(alloc: Global, log: &[Entry], said: &mut Said) {
    said.word("log");
    said.join("=");
    entries::logged(alloc, said, log, ":");
}

/// Says `step=answer` for each step of a line.
fn step_all(book: &mut BookGate, files: &Files, cells: &mut Cells<'_>, said: &mut Said) {
    let mut lease = None;
    for part in cells.rest().unwrap_or("").split(' ') {
        let (step, _answer) = part.split_once('=').unwrap_or((part, ""));
        if step == "log" {
            say_log(cells.alloc(), entries::entries_in(book.seat.log()), said);
        } else {
            say_step(book, &mut lease, files, cells, step, said);
        }
    }
}

/// By the cells of the offer's letters, the limits and the moment of the book's opening, `step=answer` for each step behind them.
pub fn answer(setting: &Setting, files: &Files, cells: &mut Cells<'_>, said: &mut Said) {
    let (letters, limits, start) = (cells.word(), cells.word(), cells.moment());
    match book_of(cells.alloc(), setting, letters, limits, start) {
        Some(book) => step_all(&mut gate_of(book), files, cells, said),
        None => cells.expect(false),
    }
}
