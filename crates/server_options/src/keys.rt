//! The keys of a run.

ghost use Rattle.std.specs.Prelude.{◌≡◌, false, IfErr, Ok};
ghost use Rattle.sec_base.specs.Answers.{Gives};
ghost use Rattle.krb_files.specs.Keytab.{keytab_of};
ghost use Rattle.scram_mech.specs.Verifiers.{verifiers_of};
ghost use Rattle.server_options.specs.Lines.{is_begun};
ghost use Rattle.server_options.specs.Keys.{end_by, verifier_stop, keytab_in, keytab_by};
ghost use Rattle.server_options.specs.Keys.{verifiers_in, verifiers_by, keys_with};
ghost use Rattle.server_options.specs.Keys.{ReadFrom, KeysFrom};

use crate::ending::{KeyFile, RunEnd};
use crate::options::Files;
use cli_base::{FileStop, load, stop_of};
use gss_base::Principal;
use krb_files::{Keytab, read_keytab};
use scram_mech::{VerifierRefusal, Verifiers, read_verifiers};
use sec_base::Shelf;
use std::alloc::Global;

/// The keys of a server.
#[derive(Drop)]
pub struct Keys {
    /// Those that open tickets.
    pub keytab: Keytab,
    /// Those of the users of SCRAM.
    pub verifiers: Verifiers,
}

/// How the run ends where this file can't be used.
fn end_by(file: KeyFile, stop: FileStop) -> RunEnd
    ensures value { result ≡ end_by file stop }
    ensures unbegun { is_begun result ≡ false }
{
    match stop {
        FileStop::CannotLoad => RunEnd::CannotLoad { file },
        FileStop::Bad { at } => RunEnd::Bad { file, at },
        FileStop::NoMemory => RunEnd::NoMemory,
    }
}

/// What the refusal of verifiers comes to: the file is bad at the line of that number.
fn verifier_stop(refusal: VerifierRefusal) -> FileStop
    ensures { result ≡ verifier_stop refusal }
{
    match refusal {
        VerifierRefusal::Line { number } => FileStop::Bad { at: number },
        VerifierRefusal::Twice { number } => FileStop::Bad { at: number },
        VerifierRefusal::NoMemory => FileStop::NoMemory,
    }
}

/// The keytab in the octets of a file.
fn keytab_in(alloc: Global, octets: &[u8]) -> Result<Keytab, RunEnd>
    ensures unbegun { IfErr result (λ end. is_begun end ≡ false) }
    ensures value { Gives RunEnd.NoMemory (λ keytab. keytab) result
        (keytab_by (keytab_of octets.now)) }
{
    match read_keytab(alloc, octets) {
        Ok(keytab) => Ok(keytab),
        Err(refusal) => Err(end_by(KeyFile::Keytab, stop_of(refusal))),
    }
}

/// The verifiers in the octets of a file.
fn verifiers_in(alloc: Global, octets: &[u8]) -> Result<Verifiers, RunEnd>
    ensures unbegun { IfErr result (λ end. is_begun end ≡ false) }
    ensures value { Gives RunEnd.NoMemory (λ lines. lines) result
        (verifiers_by (verifiers_of octets.now)) }
{
    match read_verifiers(alloc, octets) {
        Ok(verifiers) => Ok(verifiers),
        Err(refusal) => Err(end_by(KeyFile::Verifiers, verifier_stop(refusal))),
    }
}

/// The keytab of the file of this name.
fn keytab_from<F: Shelf>(alloc: Global, shelf: &mut F, file: &str) -> Result<Keytab, RunEnd>
    ensures unbegun { IfErr result (λ end. is_begun end ≡ false) }
    ensures value { ReadFrom F.Shelf shelf.old shelf.new file.now keytab_in result }
    ensures files { F.files shelf.new ≡ F.files shelf.old }
    ensures tells { F.tells shelf.new ≡ F.tells shelf.old }
{
    match load(alloc, shelf, file) {
        Ok(octets) => keytab_in(alloc, octets.as_slice()),
        Err(stop) => Err(end_by(KeyFile::Keytab, stop)),
    }
}

/// The verifiers of the file of this name.
fn verifiers_from<F: Shelf>(alloc: Global, shelf: &mut F, file: &str) -> Result<Verifiers, RunEnd>
    ensures unbegun { IfErr result (λ end. is_begun end ≡ false) }
    ensures value { ReadFrom F.Shelf shelf.old shelf.new file.now verifiers_in result }
{
    match load(alloc, shelf, file) {
        Ok(octets) => verifiers_in(alloc, octets.as_slice()),
        Err(stop) => Err(end_by(KeyFile::Verifiers, stop)),
    }
}

/// The keys, where the keytab has one for the own name.
fn keys_with(keytab: Keytab, verifiers: Verifiers, name: &Principal) -> Result<Keys, RunEnd>
    ensures unbegun { IfErr result (λ end. is_begun end ≡ false) }
    ensures value { result ≡ keys_with name.now keytab (Ok verifiers) }
{
    if keytab.serves(name) {
        Ok(Keys { keytab, verifiers })
    } else {
        Err(RunEnd::NoKey)
    }
}

/// The keys of a run, from these files: each is read before the next is loaded, and the key for the own name is looked for after both.
pub fn keys_from<F: Shelf>(
    alloc: Global,
    shelf: &mut F,
    files: &Files,
    name: &Principal,
) -> Result<Keys, RunEnd>
    ensures unbegun { IfErr result (λ end. is_begun end ≡ false) }
    ensures value { KeysFrom F.Shelf shelf.old shelf.new files.now name.now result }
{
    match keytab_from(alloc, shelf, files.keytab.as_str()) {
        Ok(keytab) => match verifiers_from(alloc, shelf, files.verifiers.as_str()) {
            Ok(verifiers) => keys_with(keytab, verifiers, name),
            Err(end) => Err(end),
        },
        Err(end) => Err(end),
    }
}
