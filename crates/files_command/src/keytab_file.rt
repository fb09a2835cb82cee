//! Keytabs of one key.

ghost use Rattle.std.specs.Prelude.{◌≡◌, Ok, [], ◌∷◌, IfOk, OnOk};
ghost use Rattle.krb_files.specs.Keytab.{keytab_of};
ghost use Rattle.krb_files.specs.KeytabGrammar.{SpellsKeytab};
ghost use Rattle.files_command.specs.KeytabFile.{IsServiceKey, entry_of, key_record, keytab_file};

use crate::fields::{put, put_counted, put_key, put_number, put_principal};
use gss_base::Principal;
use krb_derive::Key;
use sec_base::{NoMemory, Octets};
use std::alloc::Global;

/// A key of a server, and its number.
#[derive(Drop)]
pub struct ServiceKey {
    pub server: Principal,
    pub kvno: u32,
    pub key: Key,
}

/// The record of a key.
#[tactic(auto, unfolding(crate::specs::KeytabFile::key_record))]
fn write_record(alloc: Global, service: &ServiceKey) -> Result<Vec<u8>, NoMemory>
    ensures written { IfOk result (λ o. o.items ≡ key_record service.now) }
    ensures is { OnOk result (IsServiceKey service.now) }
{
    let mut record = Vec::new(alloc);
    put_principal(&mut record, 2, &service.server)?;
    put_number(&mut record, 4, 1)?;
    put_number(&mut record, 4, 0)?;
    put_number(&mut record, 1, service.kvno % 256)?;
    put_key(&mut record, 2, &service.key)?;
    put_number(&mut record, 4, service.kvno)?;
    Ok(record)
}

/// The octets of a keytab of this key.
/// It stands apart, so that its definition is unfolded here alone, and the other clauses are proved from what is said here.
#[tactic(auto, unfolding(crate::specs::KeytabFile::keytab_file))]
fn keytab_octets(alloc: Global, service: &ServiceKey) -> Result<Octets, NoMemory>
    ensures written { IfOk result (λ o. o ≡ keytab_file service.now) }
    ensures is { OnOk result (IsServiceKey service.now) }
{
    let record = write_record(alloc, service)?;
    let mut file = Vec::new(alloc);
    put(&mut file, &[5, 2])?;
    put_counted(&mut file, 4, record.as_slice())?;
    Ok(Octets::from_vec(file))
}

/// A keytab that holds this key and no other. A reader finds it there.
pub fn write_keytab(alloc: Global, service: &ServiceKey) -> Result<Octets, NoMemory>
    ensures written { IfOk result (λ o. o ≡ keytab_file service.now) }
    ensures spelled { IfOk result (λ o. SpellsKeytab (entry_of service.now ∷ []) o) }
    ensures found { IfOk result (λ o. keytab_of o ≡ Ok (entry_of service.now ∷ [])) }
{
    keytab_octets(alloc, service)
}
