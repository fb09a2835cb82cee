//! Principals as both files hold them.

ghost use Rattle.std.specs.Prelude.{◌≡◌, ◌≢◌, ◌≤◌, true, false, MatchOption};
ghost use Rattle.std.specs.Str.{is_utf8};
ghost use Rattle.gss_base.specs.declared.principal.NameRefusal.TheVariants as names;
ghost use Rattle.krb_files.specs.declared.refusal.FileWhy.TheVariants as whys;
ghost use Rattle.krb_files.specs.Fields.{refusal, Reads, Answers};
ghost use Rattle.krb_files.specs.Names.{texts_of, named_at, parts_at, principal_at};

use crate::fields::Fields;
use crate::{FileRefusal, FileWhy};
use gss_base::{NameRefusal, Principal};
use sec_base::{NoMemory, Octets, Text};
use std::alloc::Global;
use std::str;

/// These octets as a text, where they are one.
#[tactic(auto, using(crate::proofs::Texts::texts))]
fn text_of(octets: &[u8]) -> Option<&str>
    ensures { MatchOption result (is_utf8 octets.now ≡ false)
        (λ t. (t.now ≡ octets.now) × (is_utf8 octets.now ≡ true)) }
{
    match str::from_utf8(octets) {
        Ok(text) => Some(text),
        Err(_) => None,
    }
}

/// The refusal of what is no principal.
fn refused_name(at: usize) -> FileRefusal
    ensures { result ≡ refusal whys.Name at }
{
    FileRefusal {
        at,
        why: FileWhy::Name,
    }
}

/// What stands for the refusal of a name that begins at this place.
fn refused_for(at: usize, why: NameRefusal) -> FileRefusal
    ensures name { why ≢ names.NoMemory → result ≡ refusal whys.Name at }
    ensures memory { why ≡ names.NoMemory → result.why ≡ whys.NoMemory }
{
    match why {
        NameRefusal::Form { at: _ } => refused_name(at),
        NameRefusal::PartCount => refused_name(at),
        NameRefusal::Zero { at: _ } => refused_name(at),
        NameRefusal::TooLong => refused_name(at),
        NameRefusal::NoMemory => FileRefusal::from(NoMemory),
    }
}

/// The texts of these octets.
fn texts_in(alloc: Global, at: usize, parts: &[Octets]) -> Result<Vec<Text>, FileRefusal>
    ensures { Answers (λ v. v.items) result (texts_of at parts.now) }
{
    let mut texts = Vec::new(alloc);
    for part in parts {
        let Some(text) = text_of(part.as_slice()) else {
            return Err(refused_name(at));
        };
        let text = Text::of(alloc, text)?;
        texts.push(text)?;
    }
    Ok(texts)
}

/// The principal of this realm and these parts, which begins at this place.
fn named(alloc: Global, at: usize, realm: &[u8], parts: &[Octets]) -> Result<Principal, FileRefusal>
    ensures { Answers (λ p. p) result (named_at at realm.now parts.now) }
{
    let Some(realm) = text_of(realm) else {
        return Err(refused_name(at));
    };
    let texts = texts_in(alloc, at, parts)?;
    match Principal::new(alloc, realm, texts.as_slice()) {
        Ok(principal) => Ok(principal),
        Err(why) => Err(refused_for(at, why)),
    }
}

/// So many components, each behind a number of so many octets that counts its octets.
fn parts(
    alloc: Global,
    fields: &mut Fields,
    size: usize,
    count: u32,
) -> Result<Vec<Octets>, FileRefusal>
    requires { size ≤ 4 }
    ensures { Reads (λ v. v.items) fields.new result (parts_at size count fields.old) }
{
    let mut parts = Vec::new(alloc);
    for _ in 0..count {
        let octets = fields.counted(size)?;
        let part = Octets::of(alloc, octets)?;
        parts.push(part)?;
    }
    Ok(parts)
}

/// The principal that begins at this place, from its count of components on.
#[tactic(auto, unfolding(crate::specs::Names::principal_at))]
pub fn read_principal(
    alloc: Global,
    fields: &mut Fields,
    size: usize,
    at: usize,
) -> Result<Principal, FileRefusal>
    requires { size ≤ 4 }
    ensures { Reads (λ p. p) fields.new result (principal_at size at fields.old) }
{
    let count = fields.number(size)?;
    let realm = fields.counted(size)?;
    let parts = parts(alloc, fields, size, count)?;
    let principal = named(alloc, at, realm, parts.as_slice())?;
    Ok(principal)
}
