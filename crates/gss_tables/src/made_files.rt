//! The files that the command for files makes, and what readers find in them.

use files_command::run_files;
use gss_base::Principal;
use krb_derive::{Etype, Key};
use krb_files::{Ccache, read_ccache, read_keytab};
use sec_base::{Moment, Text};
use std::alloc::Global;
use table_rows::{Cells, Said};
use table_setting::{Devices, numbers_of, words, words_of};

/// 1,000.000007 seconds.
fn moment() -> Moment {
    Moment::new(1_000, 7).unwrap_or(Moment::start())
}

/// The status of the run of these words.
fn run(alloc: Global, words: &[Text], devices: &mut Devices) -> u8 {
    let Devices {
        clock,
        draw,
        out,
        err,
    } = devices;
    run_files(alloc, words, clock, draw, out, err).status
}

/// By the cells of its words and the numbers of the writes that fail, what a run writes: its status, both streams, and how many of their
/// writes failed.
pub fn make(cells: &mut Cells<'_>, said: &mut Said) {
    let alloc = cells.alloc();
    let words = words(cells);
    let failing = cells.word();
    let (out, err) = (numbers_of(cells, failing), numbers_of(cells, failing));
    let mut devices = Devices::new(alloc, moment(), out, err);
    let status = run(alloc, words.as_slice(), &mut devices);
    said.number(status as u64);
    devices.say(said);
    said.number(devices.out.faults());
    said.number(devices.err.faults());
}

/// What is sought in a keytab.
#[derive(Clone, Copy)]
struct Sought {
    kvno: u32,
    etype: Etype,
}

/// The cells of a key's number and type.
fn read_sought(cells: &mut Cells<'_>) -> Sought {
    let kvno = cells.word_number();
    let number = cells.word_number();
    cells.expect(number == 17 || number == 18);
    let etype = if number == 18 {
        Etype::Aes256
    } else {
        Etype::Aes128
    };
    Sought { kvno, etype }
}

/// The key of a server that a keytab has, None where there is none.
fn key_of(alloc: Global, file: &[u8], server: &Principal, sought: Sought) -> Option<Key> {
    match read_keytab(alloc, file) {
        Ok(keytab) => keytab.find(server, Some(sought.kvno), sought.etype),
        Err(_) => None,
    }
}

/// Says the owner of a cache, and the client and session key of its credential for a server.
fn say_credential(cache: &Ccache, server: &Principal, said: &mut Said) {
    said.word(cache.owner().label().text());
    said.join(":");
    match cache.find(server) {
        Some(found) => {
            said.word(found.client.label().text());
            said.join(":");
            said.octets(found.session.bytes());
        }
        None => said.word("none"),
    }
}

/// Says what a reader finds in a file for a server: the key in a keytab, or the credential in a cache.
fn say_found(
    alloc: Global,
    file: &[u8],
    is_keytab: bool,
    server: &Principal,
    sought: Sought,
    said: &mut Said,
) {
    if is_keytab {
        return match key_of(alloc, file, server, sought) {
            Some(key) => said.octets(key.bytes()),
            None => said.word("none"),
        };
    }
    match read_ccache(alloc, file) {
        Ok(cache) => say_credential(&cache, server, said),
        Err(_) => said.word("unread"),
    }
}

/// By the cells server, number, type and words, the status of a run, standard error, and what a reader finds in its file.
pub fn read_back(cells: &mut Cells<'_>, said: &mut Said) {
    let alloc = cells.alloc();
    let server = Principal::parse(alloc, cells.word());
    let sought = read_sought(cells);
    let line = cells.word();
    let words = words_of(cells, line, '|');
    let mut devices = Devices::new(alloc, moment(), Vec::new(alloc), Vec::new(alloc));
    let status = run(alloc, words.as_slice(), &mut devices);
    said.number(status as u64);
    said.octets(devices.err.written());
    let file = devices.out.written();
    match server {
        Ok(server) => say_found(
            alloc,
            file,
            line.starts_with("keytab"),
            &server,
            sought,
            said,
        ),
        Err(_) => cells.expect(false),
    }
}
