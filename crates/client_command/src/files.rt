//! The files of a run.

ghost use Rattle.std.specs.Prelude.{◌≡◌, ◌≤◌, IsTrue, IfErr, Some, Err, true, false};
ghost use Rattle.sec_base.specs.Answers.{Gives, Rose};
ghost use Rattle.krb_files.specs.Ccache.{ccache_of};
ghost use Rattle.cli_base.specs.Files.{file_in};
ghost use Rattle.client_command.specs.Credentials.{end_by, cache_by, cache_in, cache_from};
ghost use Rattle.client_command.specs.Credentials.{less_feed, password_by, password_in};
ghost use Rattle.client_command.specs.Credentials.{password_from, is_unloaded, Finds, IsStopOf};
ghost use Rattle.client_command.specs.Credentials.{AsksOne};
ghost use Rattle.client_command.specs.Loading.{ReadFrom, ReadNamed};

use cli_base::{FileStop, load, stop_of};
use client_options::{RunEnd, WordFile};
use krb_files::{Ccache, read_ccache};
use sec_base::{NoMemory, Octets, Shelf, Text};
use std::alloc::Global;
use std::str::from_utf8;

/// How the run ends where this file can't be used.
fn end_by(file: WordFile, stop: FileStop) -> RunEnd
    ensures { result ≡ end_by file stop }
{
    match stop {
        FileStop::CannotLoad => RunEnd::CannotLoad(file),
        FileStop::Bad { at } => RunEnd::Bad { file, at },
        FileStop::NoMemory => RunEnd::NoMemory,
    }
}

/// The cache in the octets of its file.
fn cache_by(alloc: Global, octets: &[u8]) -> Result<Ccache, RunEnd>
    ensures value { Gives RunEnd.NoMemory (λ c. c) result (cache_by (ccache_of octets.now)) }
    ensures loaded { IfErr result (λ end. is_unloaded end ≡ false) }
    ensures stop { IfErr result (IsStopOf WordFile.Ccache) }
{
    match read_ccache(alloc, octets) {
        Ok(cache) => Ok(cache),
        Err(refusal) => Err(end_by(WordFile::Ccache, stop_of(refusal))),
    }
}

/// The cache in what its file was loaded as.
fn cache_of(alloc: Global, loaded: Result<Octets, FileStop>) -> Result<Ccache, RunEnd>
    ensures value { Gives RunEnd.NoMemory (λ c. c) result (cache_in loaded) }
    ensures unloaded { IfErr result
        (λ end. is_unloaded end ≡ true → loaded ≡ Err FileStop.CannotLoad) }
    ensures stop { IfErr result (IsStopOf WordFile.Ccache) }
{
    match loaded {
        Ok(octets) => cache_by(alloc, octets.as_slice()),
        Err(stop) => Err(end_by(WordFile::Ccache, stop)),
    }
}

/// The cache in the file of this name.
fn cache_in<F: Shelf>(alloc: Global, shelf: &mut F, name: &str) -> Result<Ccache, RunEnd>
    ensures read { ReadFrom F.Shelf shelf.old shelf.new name.now cache_in result }
    ensures found { IsTrue (F.tells shelf.old)
        → Finds (cache_in (file_in (F.files shelf.old) name.now)) result }
    ensures asked { IsTrue (F.tells shelf.old)
        → AsksOne (F.asked shelf.old) (F.asked shelf.new) (Some name.now) result }
    ensures fault { IfErr result
        (λ end. is_unloaded end ≡ true → Rose (F.faults shelf.old) (F.faults shelf.new)) }
    ensures stop { IfErr result (IsStopOf WordFile.Ccache) }
    ensures files { F.files shelf.new ≡ F.files shelf.old }
    ensures tells { F.tells shelf.new ≡ F.tells shelf.old }
    ensures faults { F.faults shelf.old ≤ F.faults shelf.new }
{
    cache_of(alloc, load(alloc, shelf, name))
}

/// The credential cache, where the words name one.
pub fn cache_given<F: Shelf>(
    alloc: Global,
    shelf: &mut F,
    name: &Option<Text>,
) -> Result<Option<Ccache>, RunEnd>
    ensures read { ReadNamed F.Shelf shelf.old shelf.new name.now cache_in result }
    ensures found { IsTrue (F.tells shelf.old)
        → Finds (cache_from (F.files shelf.old) name.now) result }
    ensures asked { IsTrue (F.tells shelf.old)
        → AsksOne (F.asked shelf.old) (F.asked shelf.new) name.now result }
    ensures fault { IfErr result
        (λ end. is_unloaded end ≡ true → Rose (F.faults shelf.old) (F.faults shelf.new)) }
    ensures stop { IfErr result (IsStopOf WordFile.Ccache) }
    ensures files { F.files shelf.new ≡ F.files shelf.old }
    ensures tells { F.tells shelf.new ≡ F.tells shelf.old }
    ensures faults { F.faults shelf.old ≤ F.faults shelf.new }
{
    match name {
        None => Ok(None),
        Some(name) => match cache_in(alloc, shelf, name.as_str()) {
            Ok(cache) => Ok(Some(cache)),
            Err(end) => Err(end),
        },
    }
}

/// A text less one line feed at its end.
fn less_feed(text: &str) -> &str
    ensures { result.now ≡ less_feed text.now }
{
    match text.strip_suffix('\n') {
        Some(front) => front,
        None => text,
    }
}

/// The password in the octets of its file.
fn password_by(alloc: Global, octets: &[u8]) -> Result<Text, RunEnd>
    ensures value { Gives RunEnd.NoMemory (λ t. t) result (password_by octets.now) }
    ensures loaded { IfErr result (λ end. is_unloaded end ≡ false) }
    ensures stop { IfErr result (IsStopOf WordFile.Password) }
{
    match from_utf8(octets) {
        Ok(text) => match Text::of(alloc, less_feed(text)) {
            Ok(password) => Ok(password),
            Err(NoMemory) => Err(RunEnd::NoMemory),
        },
        Err(fault) => Err(RunEnd::Bad {
            file: WordFile::Password,
            at: fault.valid_up_to(),
        }),
    }
}

/// The password in what its file was loaded as.
fn password_of(alloc: Global, loaded: Result<Octets, FileStop>) -> Result<Text, RunEnd>
    ensures value { Gives RunEnd.NoMemory (λ t. t) result (password_in loaded) }
    ensures unloaded { IfErr result
        (λ end. is_unloaded end ≡ true → loaded ≡ Err FileStop.CannotLoad) }
    ensures stop { IfErr result (IsStopOf WordFile.Password) }
{
    match loaded {
        Ok(octets) => password_by(alloc, octets.as_slice()),
        Err(stop) => Err(end_by(WordFile::Password, stop)),
    }
}

/// The password in the file of this name.
fn password_in<F: Shelf>(alloc: Global, shelf: &mut F, name: &str) -> Result<Text, RunEnd>
    ensures read { ReadFrom F.Shelf shelf.old shelf.new name.now password_in result }
    ensures found { IsTrue (F.tells shelf.old)
        → Finds (password_in (file_in (F.files shelf.old) name.now)) result }
    ensures asked { IsTrue (F.tells shelf.old)
        → AsksOne (F.asked shelf.old) (F.asked shelf.new) (Some name.now) result }
    ensures fault { IfErr result
        (λ end. is_unloaded end ≡ true → Rose (F.faults shelf.old) (F.faults shelf.new)) }
    ensures stop { IfErr result (IsStopOf WordFile.Password) }
    ensures files { F.files shelf.new ≡ F.files shelf.old }
    ensures faults { F.faults shelf.old ≤ F.faults shelf.new }
{
    password_of(alloc, load(alloc, shelf, name))
}

/// The password, where the words name its file.
pub fn password_given<F: Shelf>(
    alloc: Global,
    shelf: &mut F,
    name: &Option<Text>,
) -> Result<Option<Text>, RunEnd>
    ensures read { ReadNamed F.Shelf shelf.old shelf.new name.now password_in result }
    ensures found { IsTrue (F.tells shelf.old)
        → Finds (password_from (F.files shelf.old) name.now) result }
    ensures asked { IsTrue (F.tells shelf.old)
        → AsksOne (F.asked shelf.old) (F.asked shelf.new) name.now result }
    ensures fault { IfErr result
        (λ end. is_unloaded end ≡ true → Rose (F.faults shelf.old) (F.faults shelf.new)) }
    ensures stop { IfErr result (IsStopOf WordFile.Password) }
    ensures files { F.files shelf.new ≡ F.files shelf.old }
    ensures faults { F.faults shelf.old ≤ F.faults shelf.new }
{
    match name {
        None => Ok(None),
        Some(name) => match password_in(alloc, shelf, name.as_str()) {
            Ok(password) => Ok(Some(password)),
            Err(end) => Err(end),
        },
    }
}
