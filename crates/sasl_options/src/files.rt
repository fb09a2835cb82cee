//! The file of a run.

ghost use Rattle.std.specs.Prelude.{◌≡◌, IfErr, false};
ghost use Rattle.sec_base.specs.Answers.{Gives};
ghost use Rattle.krb_files.specs.Ccache.{ccache_of};
ghost use Rattle.krb_files.specs.Keytab.{keytab_of};
ghost use Rattle.sasl_options.specs.Endings.{is_begun};
ghost use Rattle.sasl_options.specs.Files.{end_by, keytab_for, keytab_in, granted_by};
ghost use Rattle.sasl_options.specs.Files.{credential_in, ReadFrom};

use crate::ending::RunEnd;
use cli_base::{FileStop, load, stop_of};
use gss_base::Principal;
use krb_files::{Credential, Keytab, read_ccache, read_keytab};
use sec_base::{NoMemory, Shelf};
use std::alloc::Global;

/// How the run ends where its file can't be used.
fn end_by(stop: FileStop) -> RunEnd
    ensures value { result ≡ end_by stop }
    ensures unbegun { is_begun result ≡ false }
{
    match stop {
        FileStop::CannotLoad => RunEnd::CannotLoad,
        FileStop::Bad { at } => RunEnd::Bad { at },
        FileStop::NoMemory => RunEnd::NoMemory,
    }
}

/// The keytab in the octets of its file, where it has a key for the own name.
fn keytab_for(alloc: Global, name: &Principal, octets: &[u8]) -> Result<Keytab, RunEnd>
    ensures unbegun { IfErr result (λ end. is_begun end ≡ false) }
    ensures value { Gives RunEnd.NoMemory (λ keytab. keytab) result
        (keytab_for name.now (keytab_of octets.now)) }
{
    match read_keytab(alloc, octets) {
        Ok(keytab) => {
            if keytab.serves(name) {
                Ok(keytab)
            } else {
                drop(keytab);
                Err(RunEnd::NoKey)
            }
        }
        Err(refusal) => Err(end_by(stop_of(refusal))),
    }
}

/// The keytab of the file of this name, where it has a key for the own name.
pub fn keytab_given<F: Shelf>(
    alloc: Global,
    shelf: &mut F,
    file: &str,
    name: &Principal,
) -> Result<Keytab, RunEnd>
    ensures unbegun { IfErr result (λ end. is_begun end ≡ false) }
    ensures value { ReadFrom F.Shelf shelf.old shelf.new file.now (keytab_in name.now) result }
{
    match load(alloc, shelf, file) {
        Ok(octets) => keytab_for(alloc, name, octets.as_slice()),
        Err(stop) => Err(end_by(stop)),
    }
}

/// The credential for the server in the octets of a credential cache.
fn granted_by(alloc: Global, server: &Principal, octets: &[u8]) -> Result<Credential, RunEnd>
    ensures unbegun { IfErr result (λ end. is_begun end ≡ false) }
    ensures value { Gives RunEnd.NoMemory (λ credential. credential) result
        (granted_by server.now (ccache_of octets.now)) }
{
    match read_ccache(alloc, octets) {
        Ok(cache) => match cache.find(server) {
            Some(credential) => match credential.copied(alloc) {
                Ok(credential) => Ok(credential),
                Err(NoMemory) => Err(RunEnd::NoMemory),
            },
            None => Err(RunEnd::NoCredential),
        },
        Err(refusal) => Err(end_by(stop_of(refusal))),
    }
}

/// The credential for the server in the credential cache of this name.
pub fn credential_given<F: Shelf>(
    alloc: Global,
    shelf: &mut F,
    file: &str,
    server: &Principal,
) -> Result<Credential, RunEnd>
    ensures unbegun { IfErr result (λ end. is_begun end ≡ false) }
    ensures value { ReadFrom F.Shelf shelf.old shelf.new file.now (credential_in server.now)
        result }
{
    match load(alloc, shelf, file) {
        Ok(octets) => granted_by(alloc, server, octets.as_slice()),
        Err(stop) => Err(end_by(stop)),
    }
}
