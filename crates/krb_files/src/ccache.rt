//! Credential caches.

ghost use Rattle.std.specs.Prelude.{◌≡◌, IfOk, option_copied};
ghost use Rattle.krb_files.specs.Fields.{Reads, Answers};
ghost use Rattle.krb_files.specs.Pieces.{all_of};
ghost use Rattle.krb_files.specs.Grammar.{ReadsWhole};
ghost use Rattle.krb_files.specs.CcacheGrammar.{SpellsCcache};
ghost use Rattle.krb_files.specs.Ccache.{name_at, typed_at, times_typed_at, list_at, end_at};
ghost use Rattle.krb_files.specs.Ccache.{ticket_at, kept_of, credential_at, next_at, ccache_of};
ghost use Rattle.krb_files.specs.Ccache.{latest_from, granted_for};

use crate::FileRefusal;
use crate::fields::Fields;
use crate::keys::read_key;
use crate::names::read_principal;
use crate::pieces::Next;
use gss_base::Principal;
use krb_derive::Key;
use sec_base::{NoMemory, Octets};
use std::alloc::Global;
use std::marker::Model;

/// The most octets of a ticket.
const MOST_TICKET: usize = 60_000;

/// A ticket for a server, of at most 60,000 octets, with the session key of a known type.
#[derive(Drop)]
pub struct Credential {
    pub client: Principal,
    pub server: Principal,
    pub session: Key,
    pub ticket: Octets,
}

impl Model for Credential {
    ghost use Rattle.std.specs.Prelude.{◌≤◌, length};
    ghost use Rattle.krb_files.specs.Granted.{Granted};

    ghost Value = { Granted };

    ghost view = { λ c.
        record { client = c.client; server = c.server; session = c.session; ticket = c.ticket } };

    ghost invariant = { λ c. length c.ticket ≤ 60000 };
}

impl Credential {
    /// A copy of it.
    pub fn copied(&self, alloc: Global) -> Result<Credential, NoMemory>
        ensures { IfOk result (λ copy. copy ≡ self.now) }
    {
        let client = self.client.copied(alloc)?;
        let server = self.server.copied(alloc)?;
        let session = self.session;
        let ticket = Octets::of(alloc, self.ticket.as_slice())?;
        Ok(Credential {
            client,
            server,
            session,
            ticket,
        })
    }
}

/// A credential with its end, in seconds since the start of 1970.
#[derive(Drop)]
struct Entry {
    credential: Credential,
    ends: u32,
}

impl Model for Entry {
    ghost use Rattle.krb_files.specs.Granted.{Kept};

    ghost Value = { Kept };

    ghost view = { λ e. record { granted = e.credential; ends = e.ends } };
}

/// The credentials of one principal. Contracts see a `Cache`.
#[derive(Drop)]
pub struct Ccache {
    principal: Principal,
    credentials: Vec<Entry>,
}

impl Model for Ccache {
    ghost use Rattle.krb_files.specs.Granted.{Cache};

    ghost Value = { Cache };

    ghost view = { λ c. record { owner = c.principal; credentials = c.credentials.items } };
}

/// A principal behind the type of its name.
#[tactic(auto, unfolding(crate::specs::Ccache::name_at))]
fn read_name(alloc: Global, fields: &mut Fields) -> Result<Principal, FileRefusal>
    ensures { Reads (λ p. p) fields.new result (name_at fields.old) }
{
    let at = fields.place();
    let _kind = fields.number(4)?;
    read_principal(alloc, fields, 4, at)
}

/// Passes over an address, or over an entry of authorization data.
#[tactic(auto, unfolding(crate::specs::Ccache::typed_at))]
fn pass_typed(fields: &mut Fields) -> Result<(), FileRefusal>
    ensures { Reads (λ u. u) fields.new result (typed_at fields.old) }
{
    let _kind = fields.number(2)?;
    let _octets = fields.counted(4)?;
    Ok(())
}

/// Passes over so many of them.
fn pass_times_typed(fields: &mut Fields, count: u32) -> Result<(), FileRefusal>
    ensures { Reads (λ u. u) fields.new result (times_typed_at count fields.old) }
{
    for _ in 0..count {
        pass_typed(fields)?;
    }
    Ok(())
}

/// Passes over all of them, behind their count.
#[tactic(auto, unfolding(crate::specs::Ccache::list_at))]
fn pass_list(fields: &mut Fields) -> Result<(), FileRefusal>
    ensures { Reads (λ u. u) fields.new result (list_at fields.old) }
{
    let count = fields.number(4)?;
    pass_times_typed(fields, count)
}

/// The end, among the times and the flags.
#[tactic(auto, unfolding(crate::specs::Ccache::end_at))]
fn read_end(fields: &mut Fields) -> Result<u32, FileRefusal>
    ensures { Reads (λ n. n) fields.new result (end_at fields.old) }
{
    fields.pass(8)?;
    let ends = fields.number(4)?;
    fields.pass(9)?;
    Ok(ends)
}

/// The ticket, among what stands behind the times and the flags.
#[tactic(auto, unfolding(crate::specs::Ccache::ticket_at))]
fn read_ticket<'a>(fields: &mut Fields<'a>) -> Result<&'a [u8], FileRefusal>
    ensures { Reads (λ t. t.now) fields.new result (ticket_at fields.old) }
{
    pass_list(fields)?;
    pass_list(fields)?;
    let ticket = fields.counted(4)?;
    let _second = fields.counted(4)?;
    Ok(ticket)
}

/// The credential, where it is one to keep.
fn kept(
    alloc: Global,
    client: Principal,
    server: Principal,
    key: Option<Key>,
    ends: u32,
    ticket: &[u8],
) -> Result<Next<Entry>, NoMemory>
    ensures { IfOk result (λ n. n ≡ kept_of client server key ends ticket.now) }
{
    let Some(session) = key else {
        return Ok(Next::Other);
    };
    if ticket.len() > MOST_TICKET {
        return Ok(Next::Other);
    }
    let ticket = Octets::of(alloc, ticket)?;
    let credential = Credential {
        client,
        server,
        session,
        ticket,
    };
    Ok(Next::Item(Entry { credential, ends }))
}

/// The next credential.
#[tactic(auto, unfolding(crate::specs::Ccache::credential_at))]
fn read_credential(alloc: Global, fields: &mut Fields) -> Result<Next<Entry>, FileRefusal>
    ensures { Reads (λ n. n) fields.new result (credential_at fields.old) }
{
    let client = read_name(alloc, fields)?;
    let server = read_name(alloc, fields)?;
    let key = read_key(fields, 4)?;
    let ends = read_end(fields)?;
    let ticket = read_ticket(fields)?;
    let next = kept(alloc, client, server, key, ends, ticket)?;
    Ok(next)
}

/// What stands next.
#[tactic(auto, unfolding(crate::specs::Ccache::next_at))]
fn read_next(alloc: Global, fields: &mut Fields) -> Result<Next<Entry>, FileRefusal>
    ensures { Reads (λ n. n) fields.new result (next_at fields.old) }
{
    if fields.left() == 0 {
        return Ok(Next::End);
    }
    read_credential(alloc, fields)
}

/// All credentials that are kept.
fn credentials(alloc: Global, fields: &mut Fields) -> Result<Vec<Entry>, FileRefusal>
    ensures { Answers (λ v. v.items) result (all_of next_at fields.old) }
{
    let mut credentials = Vec::new(alloc);
    let count = fields.left();
    for _ in 0..count {
        match read_next(alloc, fields)? {
            Next::End => return Ok(credentials),
            Next::Other => {}
            Next::Item(credential) => credentials.push(credential)?,
        }
    }
    Ok(credentials)
}

/// What `read_ccache` answers.
/// It stands apart, so that its definition is unfolded here alone, and the other clauses are proved from what is said here.
#[tactic(auto, unfolding(crate::specs::Ccache::ccache_of))]
fn ccache_in(alloc: Global, bytes: &[u8]) -> Result<Ccache, FileRefusal>
    ensures { Answers (λ c. c) result (ccache_of bytes.now) }
{
    let mut fields = Fields::behind_magic(bytes, 4)?;
    let _header = fields.counted(2)?;
    let principal = read_name(alloc, &mut fields)?;
    let credentials = credentials(alloc, &mut fields)?;
    Ok(Ccache {
        principal,
        credentials,
    })
}

/// The credential cache in the octets of a file.
pub fn read_ccache(alloc: Global, bytes: &[u8]) -> Result<Ccache, FileRefusal>
    ensures exact { Answers (λ c. c) result (ccache_of bytes.now) }
    ensures spelled { ReadsWhole (λ c. c) SpellsCcache bytes.now result }
{
    ccache_in(alloc, bytes)
}

/// The entry for this server that ends last.
fn latest_for<'a>(entries: &'a [Entry], server: &Principal) -> Option<&'a Entry>
    ensures { option_copied result ≡ latest_from server.now None entries.now }
{
    let mut found: Option<&Entry> = None;
    for entry in entries {
        if entry.credential.server == *server {
            found = match found {
                Some(best) if entry.ends <= best.ends => Some(best),
                _ => Some(entry),
            };
        }
    }
    found
}

impl Ccache {
    /// The credential for this server that ends last, of those whose key is of a known type and whose ticket has at most 60,000 octets;
    /// of those that end alike, the first in the file's order.
    pub fn find(&self, server: &Principal) -> Option<&Credential>
        ensures { option_copied result ≡ granted_for server.now self.now.credentials }
    {
        match latest_for(self.credentials.as_slice(), server) {
            Some(entry) => Some(&entry.credential),
            None => None,
        }
    }

    /// Whose credentials they are.
    pub fn owner(&self) -> &Principal
        ensures { result.now ≡ self.now.owner }
    {
        &self.principal
    }
}
