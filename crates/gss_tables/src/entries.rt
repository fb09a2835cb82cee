//! The entries of a log, as the tables say them.

use accept_book::{EndCause, Entry, Log};
use gss_base::{Mark, MechKind};
use sec_base::Moment;
use sha1::Sha1;
use std::alloc::Global;
use table_rows::Said;

/// The entries of a log that has them in memory, as those of the tables have.
pub fn entries_in(log: &Log) -> &[Entry] {
    log.entries().unwrap_or(&[])
}

/// The kind of an entry.
fn kind(entry: &Entry) -> &'static str {
    match entry {
        Entry::Opened { .. } => "Opened",
        Entry::Auth { .. } => "Auth",
        Entry::Went { .. } => "Went",
        Entry::Settled { .. } => "Settled",
        Entry::Call { .. } => "Call",
        Entry::Ended { .. } => "Ended",
    }
}

/// Says a number, and a moment in microseconds.
fn dated(said: &mut Said, number: u64, at: Moment) {
    said.number(number);
    said.join(":");
    said.number(at.total());
}

/// Says the fields of an authenticator, its mark as who and moment.
fn authenticated(said: &mut Said, id: u64, mark: &Mark, at: Moment) {
    said.number(id);
    said.join(":");
    said.octets(&mark.who);
    said.join("@");
    said.number(mark.at.total());
    said.join(":");
    said.number(at.total());
}

/// Says the fields of a completion: its id, mechanism and names.
fn settled(said: &mut Said, id: u64, mech: MechKind, names: &[u8; 20]) {
    said.number(id);
    said.join(":");
    said.word(match mech {
        MechKind::Kerberos => "krb5",
        MechKind::Scram => "scram",
    });
    said.join(":");
    said.octets(names);
    said.join(":");
}

/// Says the fields of a call.
fn called(said: &mut Said, id: u64, seq: u32, procedure: u32, args: &[u8; 20]) {
    said.number(id);
    said.join(":");
    said.number(seq as u64);
    said.join(":");
    said.number(procedure as u64);
    said.join(":");
    said.octets(args);
}

/// Says the fields of an end.
fn ended(said: &mut Said, id: u64, cause: EndCause) {
    said.number(id);
    said.join(":");
    match cause {
        EndCause::Destroyed { seq } => {
            said.word("Destroyed");
            said.join(":");
            said.number(seq as u64);
        }
        EndCause::Refused => said.word("Refused"),
        EndCause::Lapsed => said.word("Lapsed"),
    }
}

/// Says an entry as `kind:fields`: moments in microseconds, octets in hexadecimal.
pub fn say(said: &mut Said, entry: &Entry) {
    said.word(kind(entry));
    said.join(":");
    match entry {
        Entry::Opened { id, at } => dated(said, *id, *at),
        Entry::Auth { id, mark, at } => authenticated(said, *id, mark, *at),
        Entry::Went { id, at } => dated(said, *id, *at),
        Entry::Settled {
            id,
            mech,
            names,
            ends,
            at,
        } => {
            settled(said, *id, *mech, names);
            dated(said, ends.total(), *at);
        }
        Entry::Call {
            id,
            seq,
            procedure,
            args,
        } => called(said, *id, *seq, *procedure, args),
        Entry::Ended { id, cause } => ended(said, *id, *cause),
    }
}

/// Says SHA-1 of the lines `kind:fields` of the entries, each ended by a line feed.
fn digest(alloc: Global, said: &mut Said, entries: &[Entry]) {
    let mut hasher = Sha1::new();
    for entry in entries {
        let mut line = Said::new(alloc);
        say(&mut line, entry);
        match line.told() {
            Some(line) => hasher.update(line.as_bytes()),
            None => said.starve(),
        }
        hasher.update(b"\n");
    }
    said.octets(&hasher.finalize());
}

/// Says the kinds of the entries, `-` where there is none.
pub fn kinds(said: &mut Said, entries: &[Entry]) {
    if entries.is_empty() {
        said.word("-");
    }
    for entry in entries {
        said.word(kind(entry));
        said.join(",");
    }
    said.join(" ");
}

/// Says the digest and the kinds of the entries, with this mark between them.
pub fn logged(alloc: Global, said: &mut Said, entries: &[Entry], mark: &'static str) {
    digest(alloc, said, entries);
    said.join(mark);
    kinds(said, entries);
}
