//! What is printed of a drill.

ghost use Rattle.std.specs.Prelude.{◌≡◌, ◌++◌, length, IfOk, OnOk, string_bytes};
ghost use Rattle.hex.specs.Hex.{encode_lower};
ghost use Rattle.drill_plan.specs.Lines.{result_count, refused_count, is_post, post_count};
ghost use Rattle.drill_plan.specs.Lines.{settles_later, is_record, record_count};
ghost use Rattle.drill_plan.specs.Lines.{joined, all_results, sessions_text, log_text};
ghost use Rattle.drill_plan.specs.Lines.{digest_of, drill_text, served_line};

use crate::session::DrillSession;
use accept_book::Entry;
use gss_base::MechKind;
use posts_program::numbers::POST;
use sec_base::{NoMemory, Octets};
use sha1::Sha1;
use std::alloc::Global;

/// How many results the sessions have.
fn count_results(sessions: &[DrillSession]) -> u128
    ensures { result ≡ result_count sessions.now }
{
    let mut count = 0u128;
    for one in sessions {
        count += one.results.len() as u128;
    }
    count
}

/// How many sessions were refused.
fn count_refused(sessions: &[DrillSession]) -> u64
    ensures { result ≡ refused_count sessions.now }
{
    let mut count = 0u64;
    for one in sessions {
        if one.ended.is_some() {
            count += 1;
        }
    }
    count
}

/// Whether an entry is that of a post.
fn is_post(entry: &Entry) -> bool
    ensures { result ≡ is_post entry.now }
{
    match entry {
        Entry::Call { procedure, .. } => *procedure == POST,
        _ => false,
    }
}

/// How many posts a log has.
fn count_posts(entries: &[Entry]) -> u64
    ensures { result ≡ post_count entries.now }
{
    let mut count = 0u64;
    for entry in entries {
        if is_post(entry) {
            count += 1;
        }
    }
    count
}

/// Whether a context of the mechanism is settled by a later record than the one that opens it.
fn settles_later(mech: MechKind) -> bool
    ensures { result ≡ settles_later mech }
{
    match mech {
        MechKind::Kerberos => false,
        MechKind::Scram => true,
    }
}

/// Whether an entry is the first one that a record of a drill put into the log.
fn is_record(entry: &Entry) -> bool
    ensures { result ≡ is_record entry.now }
{
    match entry {
        Entry::Auth { .. } => false,
        Entry::Settled { mech, .. } => settles_later(*mech),
        _ => true,
    }
}

/// How many records a drill's log tells of.
fn count_records(entries: &[Entry]) -> u64
    ensures { result ≡ record_count entries.now }
{
    let mut count = 0u64;
    for entry in entries {
        if is_record(entry) {
            count += 1;
        }
    }
    count
}

/// Adds the octets of results, in order.
fn push_results(out: &mut Vec<u8>, results: &[Octets]) -> Result<(), NoMemory>
    ensures { OnOk result (out.new.items ≡ out.old.items ++ joined results.now) }
{
    for octets in results {
        out.extend_from_slice(octets.as_slice())?;
    }
    Ok(())
}

/// The octets of the results of all sessions, in order.
fn all_results(alloc: Global, sessions: &[DrillSession]) -> Result<Vec<u8>, NoMemory>
    ensures { IfOk result (λ o. o.items ≡ all_results sessions.now) }
{
    let mut out = Vec::new(alloc);
    for one in sessions {
        push_results(&mut out, one.results.as_slice())?;
    }
    Ok(out)
}

/// Octets in lower-case hexadecimal.
fn hexadecimal(alloc: Global, octets: &[u8]) -> Result<String, NoMemory>
    ensures { IfOk result (λ text. string_bytes text ≡ encode_lower octets.now) }
{
    let text = hex::encode(alloc, octets)?;
    Ok(text)
}

/// The lines of so many sessions, results and refused sessions.
fn sessions_text(
    alloc: Global,
    sessions: usize,
    calls: u128,
    refused: u64,
) -> Result<String, NoMemory>
    ensures { IfOk result (λ text. string_bytes text ≡ sessions_text sessions calls refused) }
{
    let text = format!(in alloc; "sessions {sessions}\ncalls {calls}\nrefused {refused}\n")?;
    Ok(text)
}

/// The lines of so many posts and entries, and of this digest.
fn log_text(alloc: Global, posts: u64, entries: usize, digest: &str) -> Result<String, NoMemory>
    ensures { IfOk result (λ text. string_bytes text ≡ log_text posts entries digest.now) }
{
    let text = format!(in alloc; "posts {posts}\nentries {entries}\ndigest {digest}\n")?;
    Ok(text)
}

/// The SHA-1 of all results, in hexadecimal.
fn digest_of(alloc: Global, sessions: &[DrillSession]) -> Result<String, NoMemory>
    ensures { IfOk result (λ text. string_bytes text ≡ digest_of sessions.now) }
{
    let octets = all_results(alloc, sessions)?;
    hexadecimal(alloc, &Sha1::digest(octets.as_slice()))
}

/// The lines of a drill with these sessions and this log.
pub fn summary(alloc: Global, sessions: &[DrillSession], log: &[Entry]) -> Result<String, NoMemory>
    ensures { IfOk result (λ text. string_bytes text ≡ drill_text sessions.now log.now) }
{
    let (calls, refused) = (count_results(sessions), count_refused(sessions));
    let mut text = sessions_text(alloc, sessions.len(), calls, refused)?;
    let digest = digest_of(alloc, sessions)?;
    let more = log_text(alloc, count_posts(log), log.len(), digest.as_str())?;
    text.push_str(more.as_str())?;
    Ok(text)
}

/// The server's line of a drill with so many sessions and this log.
pub fn served(alloc: Global, sessions: usize, log: &[Entry]) -> Result<String, NoMemory>
    ensures { IfOk result (λ text. string_bytes text ≡ served_line sessions log.now) }
{
    let (records, entries) = (count_records(log), log.len());
    let text = format!(in alloc;
        "served {sessions} connections {records} records {entries} entries\n"
    )?;
    Ok(text)
}
