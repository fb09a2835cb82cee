//! How the run of the server ends, and the line that says so.

ghost use Rattle.std.specs.Prelude.{◌≡◌, ◌≢◌, ◌≤◌, IsTrue, IfOk, string_bytes};
ghost use Rattle.sec_base.specs.Answers.{Rose};
ghost use Rattle.cli_base.specs.Lines.{Says};
ghost use Rattle.server_options.specs.Lines.{file_of, no_key_line, served_line, status_of};
ghost use Rattle.server_options.specs.Lines.{line_of, unbound_line};

use cli_base::{FileStop, OUT_OF_MEMORY, say, say_made, say_stop};
use sec_base::Sink;
use std::alloc::{AllocError, Global};
use std::marker::Model;

/// The line of words that aren't in the command.
pub const USAGE: &str =
    "usage: gssrpcd ADDRESS --keytab FILE --verifiers FILE --name PRINCIPAL [options]\n";

/// A file of the server: one of its keys, or its journal.
#[derive(Clone, Copy, Debug, PartialEq, Eq)]
pub enum KeyFile {
    Keytab,
    Verifiers,
    Journal,
}

/// How the run ended, before its line was written.
#[derive(Clone, Copy, Debug, PartialEq, Eq)]
pub enum RunEnd {
    /// The words aren't in the command.
    Usage,
    /// This file can't be loaded, and the shelf's count of faults rose; or this journal can't be opened, and the disk's count rose.
    CannotLoad { file: KeyFile },
    /// This file has too many octets, or isn't of its format: a keytab from this place on, verifiers in the line of this number. A journal
    /// isn't of its format where the place is 0, and has more recent authenticators than may be held where it is their greatest number.
    Bad { file: KeyFile, at: usize },
    /// The keytab has no key for the own name.
    NoKey,
    /// The port of this desk, counted from 1, failed, and its count of faults rose.
    PortFault { desk: usize },
    /// There was no memory.
    NoMemory,
    /// All connections were served.
    Served,
}

/// What a run served, how many entries its log has, and the log's digest where it was kept.
#[derive(Clone, Copy, Debug, PartialEq, Eq)]
pub struct Counts {
    pub connections: u128,
    pub records: u128,
    pub entries: u64,
    pub digest: Option<[u8; 20]>,
}

/// What the words of a run name, as its line says it: the files, and the own name's text form. Each is empty where the words aren't in the command or name none.
#[derive(Drop)]
pub struct Names<'a> {
    pub keytab: &'a str,
    pub verifiers: &'a str,
    pub journal: &'a str,
    pub own: &'a str,
}

impl<'a> Model for Names<'a> {
    ghost use Rattle.server_options.specs.Lines.{Named};

    ghost Value = { Named };

    ghost view = { λ n. record {
      keytab = n.keytab.now;
      verifiers = n.verifiers.now;
      journal = n.journal.now;
      own = n.own.now;
    } };
}

impl<'a> Names<'a> {
    /// The name of a file.
    fn of(&self, file: KeyFile) -> &'a str
        ensures { result.now ≡ file_of self.now file }
    {
        match file {
            KeyFile::Keytab => self.keytab,
            KeyFile::Verifiers => self.verifiers,
            KeyFile::Journal => self.journal,
        }
    }
}

/// Says that the keytab has no key for this name.
fn say_unkeyed<O: Sink>(alloc: Global, err: &mut O, own: &str) -> u8
    ensures status { result ≢ 6 → result ≢ 8 → result ≡ 4 }
    ensures fault { result ≡ 6 → Rose (O.faults err.old) (O.faults err.new) }
    ensures said { IsTrue (O.tells err.old)
        → Says (O.written err.old) (O.written err.new) result (no_key_line own.now) }
{
    say_made(err, 4, format!(in alloc; "no key for {own}\n"))
}

/// Says that the control address can't be listened at.
pub fn say_unbound<O: Sink>(alloc: Global, err: &mut O, path: &str) -> u8
    ensures status { result ≢ 6 → result ≢ 8 → result ≡ 5 }
    ensures fault { result ≡ 6 → Rose (O.faults err.old) (O.faults err.new) }
    ensures said { IsTrue (O.tells err.old)
        → Says (O.written err.old) (O.written err.new) result (unbound_line path.now) }
{
    say_made(err, 5, format!(in alloc; "cannot listen at {path}\n"))
}

/// Writes the line of an end, and answers its status; 8 also where there was no memory for the line, and 6 where it can't be written.
pub fn say_end<O: Sink>(
    alloc: Global,
    err: &mut O,
    names: &Names<'_>,
    counts: &Counts,
    end: RunEnd,
) -> u8
    ensures status { result ≢ 6 → result ≢ 8 → result ≡ status_of end }
    ensures fault { result ≡ 6 → Rose (O.faults err.old) (O.faults err.new) }
    ensures said { IsTrue (O.tells err.old) → Says (O.written err.old) (O.written err.new) result
        (line_of names.now counts.now end) }
{
    match end {
        RunEnd::Usage => say(err, 2, USAGE),
        RunEnd::CannotLoad { file } => say_stop(alloc, err, names.of(file), FileStop::CannotLoad),
        RunEnd::Bad { file, at } => say_stop(alloc, err, names.of(file), FileStop::Bad { at }),
        RunEnd::NoKey => say_unkeyed(alloc, err, names.own),
        RunEnd::PortFault { desk } => {
            say_made(err, 5, format!(in alloc; "port fault at desk {desk}\n"))
        }
        RunEnd::NoMemory => say(err, 8, OUT_OF_MEMORY),
        RunEnd::Served => say_served(alloc, err, counts),
    }
}

/// Says what was served.
fn say_served<O: Sink>(alloc: Global, err: &mut O, counts: &Counts) -> u8
    ensures status { result ≢ 6 → result ≢ 8 → result ≡ 0 }
    ensures fault { result ≡ 6 → Rose (O.faults err.old) (O.faults err.new) }
    ensures said { IsTrue (O.tells err.old)
        → Says (O.written err.old) (O.written err.new) result (served_line counts.now) }
{
    say_made(err, 0, served_text(alloc, counts))
}

/// The line of a run that served all.
fn served_text(alloc: Global, counts: &Counts) -> Result<String, AllocError>
    ensures { IfOk result (λ text. string_bytes text ≡ served_line counts.now) }
{
    let Counts {
        connections,
        records,
        entries,
        digest,
    } = *counts;
    match digest {
        None => format!(in alloc;
            "served {connections} connections {records} records {entries} entries\n"
        ),
        Some(digest) => {
            let digits = hex::encode(alloc, &digest)?;
            format!(in alloc;
                "served {connections} connections {records} records {entries} entries digest {digits}\n"
            )
        }
    }
}
