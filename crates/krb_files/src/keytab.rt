//! Keytabs.

ghost use Rattle.std.specs.Prelude.{◌≡◌, Some};
ghost use Rattle.krb_files.specs.Fields.{Reads, Answers};
ghost use Rattle.krb_files.specs.Pieces.{all_of};
ghost use Rattle.krb_files.specs.Grammar.{ReadsWhole};
ghost use Rattle.krb_files.specs.KeytabGrammar.{SpellsKeytab};
ghost use Rattle.krb_files.specs.Keytab.{has_type, is_for, entry_at, sized_at, piece_at, keytab_of};
ghost use Rattle.krb_files.specs.Keytab.{key_numbered, greater, greatest_number, found, is_served};

use crate::FileRefusal;
use crate::fields::Fields;
use crate::keys::read_key;
use crate::names::read_principal;
use crate::pieces::Next;
use gss_base::Principal;
use krb_derive::{Etype, Key};
use std::alloc::Global;
use std::marker::Model;

/// One record of a keytab: whose key it is, its number, and the key where its type is known.
#[derive(Drop)]
pub struct Entry {
    name: Principal,
    number: u32,
    key: Option<Key>,
}

/// The keys of a server, by principal, number and type. Contracts see the list of its records.
#[derive(Drop)]
pub struct Keytab {
    entries: Vec<Entry>,
}

impl Model for Keytab {
    ghost use Rattle.std.specs.Prelude.{List};
    ghost use Rattle.krb_files.specs.declared.keytab.Entry.{Entry};

    ghost Value = { List Entry };

    ghost view = { λ k. k.entries.items };
}

/// What a record holds.
#[tactic(auto, unfolding(crate::specs::Keytab::entry_at))]
fn read_entry(alloc: Global, fields: &mut Fields) -> Result<Entry, FileRefusal>
    ensures { Answers (λ e. e) result (entry_at fields.old) }
{
    let at = fields.place();
    let name = read_principal(alloc, fields, 2, at)?;
    let _kind = fields.number(4)?;
    let _time = fields.number(4)?;
    let low = fields.number(1)?;
    let key = read_key(fields, 2)?;
    Ok(Entry {
        name,
        number: fields.version(low),
        key,
    })
}

/// What stands behind a length.
#[tactic(auto, unfolding(crate::specs::Keytab::sized_at))]
fn sized(alloc: Global, fields: &mut Fields, size: u32) -> Result<Next<Entry>, FileRefusal>
    ensures { Reads (λ n. n) fields.new result (sized_at size fields.old) }
{
    if size == 0 {
        return Ok(Next::End);
    }
    if size < 0x8000_0000 {
        let mut record = fields.record(size as usize)?;
        let entry = read_entry(alloc, &mut record)?;
        return Ok(Next::Item(entry));
    }
    fields.pass(0x1_0000_0000 - size as usize)?;
    Ok(Next::Other)
}

/// What stands next.
#[tactic(auto, unfolding(crate::specs::Keytab::piece_at))]
fn piece(alloc: Global, fields: &mut Fields) -> Result<Next<Entry>, FileRefusal>
    ensures { Reads (λ n. n) fields.new result (piece_at fields.old) }
{
    if fields.left() == 0 {
        return Ok(Next::End);
    }
    let size = fields.number(4)?;
    sized(alloc, fields, size)
}

/// All records.
fn entries(alloc: Global, fields: &mut Fields) -> Result<Vec<Entry>, FileRefusal>
    ensures { Answers (λ v. v.items) result (all_of piece_at fields.old) }
{
    let mut entries = Vec::new(alloc);
    let count = fields.left();
    for _ in 0..count {
        match piece(alloc, fields)? {
            Next::End => return Ok(entries),
            Next::Other => {}
            Next::Item(entry) => entries.push(entry)?,
        }
    }
    Ok(entries)
}

/// What `read_keytab` answers.
/// It stands apart, so that its definition is unfolded here alone, and the other clauses are proved from what is said here.
#[tactic(auto, unfolding(crate::specs::Keytab::keytab_of))]
fn keytab_in(alloc: Global, bytes: &[u8]) -> Result<Keytab, FileRefusal>
    ensures { Answers (λ k. k) result (keytab_of bytes.now) }
{
    let mut fields = Fields::behind_magic(bytes, 2)?;
    let entries = entries(alloc, &mut fields)?;
    Ok(Keytab { entries })
}

/// The keytab in the octets of a file.
pub fn read_keytab(alloc: Global, bytes: &[u8]) -> Result<Keytab, FileRefusal>
    ensures exact { Answers (λ k. k) result (keytab_of bytes.now) }
    ensures spelled { ReadsWhole (λ k. k) SpellsKeytab bytes.now result }
{
    keytab_in(alloc, bytes)
}

/// Whether a key is of this type.
fn is_of_type(key: &Option<Key>, etype: Etype) -> bool
    ensures { result ≡ has_type etype key.now }
{
    match key {
        Some(key) => key.etype() == etype,
        None => false,
    }
}

/// Whether a record is of this principal and of this type.
fn is_for_server(entry: &Entry, server: &Principal, etype: Etype) -> bool
    ensures { result ≡ is_for server.now etype entry.now }
{
    entry.name == *server && is_of_type(&entry.key, etype)
}

/// The key of the first record of this principal, type and number.
fn numbered(entries: &[Entry], server: &Principal, number: u32, etype: Etype) -> Option<Key>
    ensures { result ≡ key_numbered server.now number etype entries.now }
{
    for entry in entries.iter() {
        if is_for_server(entry, server, etype) && entry.number == number {
            return entry.key;
        }
    }
    None
}

/// The greater of a number and what there was.
fn greater_of(before: Option<u32>, number: u32) -> Option<u32>
    ensures { result ≡ greater before (Some number) }
{
    match before {
        Some(before) => Some(before.max(number)),
        None => Some(number),
    }
}

/// The greatest number that this principal and type have.
fn greatest(entries: &[Entry], server: &Principal, etype: Etype) -> Option<u32>
    ensures { result ≡ greatest_number server.now etype entries.now }
{
    let mut greatest = None;
    for entry in entries {
        if is_for_server(entry, server, etype) {
            greatest = greater_of(greatest, entry.number);
        }
    }
    greatest
}

/// Whether a record of a known type is of this principal.
fn has_server(entries: &[Entry], server: &Principal) -> bool
    ensures { result ≡ is_served server.now entries.now }
{
    for entry in entries {
        if entry.name == *server && entry.key.is_some() {
            return true;
        }
    }
    false
}

impl Keytab {
    /// The first record in the file's order of this principal, type and number; without a number, of the greatest number
    /// that the principal and type have.
    pub fn find(&self, server: &Principal, kvno: Option<u32>, etype: Etype) -> Option<Key>
        ensures { result ≡ found self.now server.now kvno etype }
    {
        let entries = self.entries.as_slice();
        match kvno {
            Some(number) => numbered(entries, server, number, etype),
            None => match greatest(entries, server, etype) {
                Some(number) => numbered(entries, server, number, etype),
                None => None,
            },
        }
    }

    /// Whether a record of a known type is of this principal.
    pub fn serves(&self, server: &Principal) -> bool
        ensures { result ≡ is_served server.now self.now }
    {
        has_server(self.entries.as_slice(), server)
    }
}
