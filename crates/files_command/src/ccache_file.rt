//! Credential caches of one ticket.

ghost use Rattle.std.specs.Prelude.{◌≡◌, ◌≤◌, ◌++◌, length, Ok, IfOk, OnOk};
ghost use Rattle.krb_files.specs.Ccache.{ccache_of};
ghost use Rattle.krb_files.specs.CcacheGrammar.{SpellsCcache};
ghost use Rattle.files_command.specs.Fields.{IsTextName, IsSizedKey};
ghost use Rattle.files_command.specs.CcacheFile.{cache_of, cache_name, times_octets, ticket_octets};
ghost use Rattle.files_command.specs.CcacheFile.{credential_octets, ccache_file, IsWritable};

use crate::fields::{put, put_counted, put_key, put_number, put_principal};
use gss_base::Principal;
use krb_files::Credential;
use sec_base::{NoMemory, Octets};
use std::alloc::Global;

/// When a ticket's client was known, and until when it serves, in seconds since 1970.
#[derive(Clone, Copy, Debug, PartialEq, Eq)]
pub struct Times {
    pub authtime: u32,
    pub endtime: u32,
}

/// Adds a principal behind the type of its name.
#[tactic(auto, unfolding(crate::specs::CcacheFile::cache_name))]
fn put_name(out: &mut Vec<u8>, name: &Principal) -> Result<(), NoMemory>
    ensures written { OnOk result (out.new.items ≡ out.old.items ++ cache_name name.now) }
    ensures texts { OnOk result (IsTextName name.now) }
{
    put_number(out, 4, 1)?;
    put_principal(out, 4, name)
}

/// Adds the times and what stands with them.
#[tactic(auto, unfolding(crate::specs::CcacheFile::times_octets))]
fn put_times(out: &mut Vec<u8>, times: Times) -> Result<(), NoMemory>
    ensures { OnOk result (out.new.items ≡ out.old.items ++ times_octets times) }
{
    put_number(out, 4, times.authtime)?;
    put_number(out, 4, times.authtime)?;
    put_number(out, 4, times.endtime)?;
    put_number(out, 4, 0)?;
    put_number(out, 1, 0)?;
    put_number(out, 4, 0)
}

/// Adds what stands behind the key.
#[tactic(auto, unfolding(crate::specs::CcacheFile::ticket_octets))]
fn put_ticket(out: &mut Vec<u8>, times: Times, ticket: &[u8]) -> Result<(), NoMemory>
    requires { length ticket.now ≤ 60000 }
    ensures { OnOk result (out.new.items ≡ out.old.items ++ ticket_octets times ticket.now) }
{
    put_times(out, times)?;
    put_number(out, 4, 0)?;
    put_number(out, 4, 0)?;
    put_counted(out, 4, ticket)?;
    put_counted(out, 4, &[])
}

/// Adds a credential.
#[tactic(auto, unfolding(crate::specs::CcacheFile::credential_octets))]
fn put_credential(out: &mut Vec<u8>, times: Times, credential: &Credential) -> Result<(), NoMemory>
    ensures written { OnOk result
        (out.new.items ≡ out.old.items ++ credential_octets times credential.now) }
    ensures writable { OnOk result (IsWritable credential.now) }
{
    put_name(out, &credential.client)?;
    put_name(out, &credential.server)?;
    put_key(out, 4, &credential.session)?;
    put_ticket(out, times, credential.ticket.as_slice())
}

/// The octets of a cache of this credential.
/// It stands apart, so that its definition is unfolded here alone, and the other clauses are proved from what is said here.
#[tactic(auto, unfolding(crate::specs::CcacheFile::ccache_file))]
fn ccache_octets(alloc: Global, times: Times, credential: &Credential) -> Result<Octets, NoMemory>
    ensures written { IfOk result (λ o. o ≡ ccache_file times credential.now) }
    ensures writable { OnOk result (IsWritable credential.now) }
{
    let mut file = Vec::new(alloc);
    put(&mut file, &[5, 4])?;
    put_counted(&mut file, 2, &[])?;
    put_name(&mut file, &credential.client)?;
    put_credential(&mut file, times, credential)?;
    Ok(Octets::from_vec(file))
}

/// A credential cache of the ticket's client that holds this credential and no other. A reader finds it there.
pub fn write_ccache(
    alloc: Global,
    times: Times,
    credential: &Credential,
) -> Result<Octets, NoMemory>
    ensures written { IfOk result (λ o. o ≡ ccache_file times credential.now) }
    ensures spelled { IfOk result (λ o. SpellsCcache (cache_of times credential.now) o) }
    ensures found { IfOk result (λ o. ccache_of o ≡ Ok (cache_of times credential.now)) }
{
    ccache_octets(alloc, times, credential)
}
