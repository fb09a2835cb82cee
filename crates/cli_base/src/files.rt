//! The files that words name.

ghost use Rattle.std.specs.Prelude.{◌≡◌, ◌≢◌, ◌≤◌, IsTrue, IsErrOf};
ghost use Rattle.sec_base.specs.Answers.{Rose};
ghost use Rattle.cli_base.specs.Files.{file_in, LoadsFile, AsksFile, stop_by, stop_status};
ghost use Rattle.cli_base.specs.Files.{stop_line};
ghost use Rattle.cli_base.specs.Lines.{Says};

use crate::lines::{OUT_OF_MEMORY, say, say_made};
use krb_files::{FileRefusal, FileWhy};
use sec_base::{LoadRefusal, Octets, Shelf, Sink};
use std::alloc::Global;

/// The most octets of a file.
const MOST: usize = 1_048_576;

/// Why a file can't be used.
#[derive(Clone, Copy, Debug, PartialEq, Eq)]
pub enum FileStop {
    /// It can't be loaded; the shelf's count of faults rose.
    CannotLoad,
    /// It has more octets than a file may have, or isn't of its format, from this place on.
    Bad { at: usize },
    /// There was no memory for it.
    NoMemory,
}

/// The octets of the file of this name.
pub fn load<F: Shelf>(alloc: Global, shelf: &mut F, name: &str) -> Result<Octets, FileStop>
    ensures told { IsTrue (F.tells shelf.old)
        → LoadsFile (file_in (F.files shelf.old) name.now) result }
    ensures asked { IsTrue (F.tells shelf.old)
        → AsksFile (F.asked shelf.old) (F.asked shelf.new) name.now result }
    ensures fault { IsErrOf result FileStop.CannotLoad
        → Rose (F.faults shelf.old) (F.faults shelf.new) }
    ensures files { F.files shelf.new ≡ F.files shelf.old }
    ensures tells { F.tells shelf.new ≡ F.tells shelf.old }
    ensures faults { F.faults shelf.old ≤ F.faults shelf.new }
{
    match shelf.load(alloc, name, MOST) {
        Ok(octets) => Ok(octets),
        Err(LoadRefusal::Fault) => Err(FileStop::CannotLoad),
        Err(LoadRefusal::TooLong) => Err(FileStop::Bad { at: MOST }),
        Err(LoadRefusal::NoMemory) => Err(FileStop::NoMemory),
    }
}

/// What the refusal of a reader of files comes to.
pub fn stop_of(refusal: FileRefusal) -> FileStop
    ensures { result ≡ stop_by refusal }
{
    match refusal.why {
        FileWhy::NoMemory => FileStop::NoMemory,
        _ => FileStop::Bad { at: refusal.at },
    }
}

/// Says why the file of this name can't be used: `cannot load NAME` and status 3, `bad NAME at N` and status 4, or want of memory and
/// status 8, which also comes where there was none for the line.
pub fn say_stop<O: Sink>(alloc: Global, sink: &mut O, name: &str, stop: FileStop) -> u8
    ensures status { result ≢ 6 → result ≢ 8 → result ≡ stop_status stop }
    ensures fault { result ≡ 6 → Rose (O.faults sink.old) (O.faults sink.new) }
    ensures said { IsTrue (O.tells sink.old)
        → Says (O.written sink.old) (O.written sink.new) result (stop_line name.now stop) }
    ensures tells { O.tells sink.new ≡ O.tells sink.old }
    ensures faults { O.faults sink.old ≤ O.faults sink.new }
{
    match stop {
        FileStop::CannotLoad => say_made(sink, 3, format!(in alloc; "cannot load {name}\n")),
        FileStop::Bad { at } => say_made(sink, 4, format!(in alloc; "bad {name} at {at}\n")),
        FileStop::NoMemory => say(sink, 8, OUT_OF_MEMORY),
    }
}
