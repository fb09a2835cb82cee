//! The log of an acceptor.
ghost use Rattle.std.specs.Prelude.{◌≡◌, ℕ, ◌+◌, ◌<◌, ◌≤◌, ◌^◌, List, [], ◌∷◌, ◌++◌, IfOk, length};
ghost use Rattle.std.specs.Prelude.{IfSome, is_some, reverse, true, false, vec_capacity, take};
ghost use Rattle.std.specs.Prelude.{None, Some, if◌then◌else◌};
ghost use Rattle.std.specs.Option.{option_map};
ghost use Rattle.sha1.specs.Sha1.{sha1};
ghost use Rattle.accept_core.specs.Chains.{digest_of, text_of};
ghost use Rattle.accept_core.specs.Logs.{no_log, greatest_log, kept_digest, Begins};
ghost use Rattle.accept_core.specs.Entering.{given, gained};

use crate::chain::chained;
use crate::entry::{EndCause, Entry, Limits, Receipt, Receipts};
use crate::erased::Erased;
use sec_base::NoMemory;
use std::alloc::Global;
use std::marker::Model;

/// The entries of a log, by their places from 0 on, and the limits under which it was kept.
///
/// In memory are their number and the newest four, and by its `Keeping` all of them and their digest;
/// else they exist in the proofs alone.
#[derive(Drop)]
pub struct Log {
    all: Erased,
    count: u64,
    digest: Option<[u8; 20]>,
    last: [Entry; 4],
    kept: Option<Vec<Entry>>,
    width: u32,
    limit: u64,
    contexts: u64,
    marks: u64,
}

impl Model for Log {
    ghost use Rattle.std.specs.Prelude.{is_some};
    ghost use Rattle.accept_core.specs.Logs.{LogOf, IsLog};

    ghost Value = { LogOf };

    ghost view = { λ l. record {
      entries = l.all.entries;
      keeping = record { entries = is_some l.kept; digest = is_some l.digest };
      width = l.width;
      limit = l.limit;
      contexts = l.contexts;
      marks = l.marks;
    } };

    ghost invariant = { λ l. IsLog l.limit l.count l.digest l.last l.kept l.all.entries };
}

fn no_entry() -> Entry
    ensures { result ≡ Entry.Ended 0 EndCause.Lapsed }
{
    Entry::Ended {
        id: 0,
        cause: EndCause::Lapsed,
    }
}

// The newest four, once there is one more.
fn newest(entry: Entry, last: &[Entry; 4]) -> [Entry; 4]
    ensures { result ≡ entry ∷ take 3 last.now }
{
    [entry, last[0], last[1], last[2]]
}

// The digest once there is one entry more, where it is kept.
fn digest_after(digest: &Option<[u8; 20]>, entry: &Entry) -> Option<[u8; 20]>
    ensures { result ≡ option_map (λ before. sha1 (text_of before entry.now)) digest.now }
{
    match digest {
        None => None,
        Some(before) => Some(chained(before, entry)),
    }
}

// The digest of no entry, where it is kept.
fn first_digest(keeps: bool) -> Option<[u8; 20]>
    ensures { result ≡ (if keeps then Some (digest_of []) else None) }
{
    if keeps { Some([0; 20]) } else { None }
}

// The entries of a history from a place on, each with its place, by its newest four; there are at
// most four.
fn receipts_of(last: &[Entry; 4], from: u64, end: u64) -> Receipts
    requires from { from ≤ end }
    requires few { end ≤ from + 4 }
    ensures { (history : List Entry) → Begins 4 history last.now → length history ≡ end
        → given result ≡ gained from history }
{
    let mut list = [blank(), blank(), blank(), blank()];
    let mut count = 0u8;
    for place in from..end {
        list[count as usize] = Receipt {
            place,
            entry: last[(end - 1 - place) as usize],
        };
        count += 1;
    }
    Receipts { count, list }
}

/// A receipt of nothing, for the places of a list behind its count.
pub fn blank() -> Receipt
    ensures { result ≡ record { place = 0; entry = Entry.Ended 0 EndCause.Lapsed } }
{
    Receipt {
        place: 0,
        entry: no_entry(),
    }
}

// Room for so many entries, where they are kept.
fn room(alloc: Global, count: usize, keeps: bool) -> Result<Option<Vec<Entry>>, NoMemory>
    ensures some { IfOk result (λ kept. is_some kept ≡ keeps) }
    ensures none { IfOk result (λ kept. IfSome kept (λ v. v.items ≡ [])) }
    ensures room { IfOk result (λ kept. IfSome kept (λ v. count ≤ vec_capacity v)) }
{
    if keeps {
        let entries = Vec::with_capacity(alloc, count)?;
        Ok(Some(entries))
    } else {
        Ok(None)
    }
}

impl Log {
    /// A log without entries, whose limits are all 0, and which has nothing in memory.
    pub fn empty() -> Log
        ensures { result ≡ no_log }
    {
        Log {
            all: Erased::new(),
            count: 0,
            digest: None,
            last: [no_entry(), no_entry(), no_entry(), no_entry()],
            kept: None,
            width: 0,
            limit: 0,
            contexts: 0,
            marks: 0,
        }
    }

    /// A log without entries. One that keeps them has memory for as many as its limit.
    pub(crate) fn open(alloc: Global, limits: &Limits) -> Result<Log, NoMemory>
        requires { limits.now.log ≤ greatest_log }
        ensures { IfOk result (λ log. log ≡ record {
          entries = [];
          keeping = limits.now.keeping;
          width = limits.now.width;
          limit = limits.now.log;
          contexts = limits.now.contexts;
          marks = limits.now.marks;
        }) }
    {
        let kept = room(alloc, limits.log, limits.keeping.entries)?;
        Ok(Log {
            all: Erased::new(),
            count: 0,
            digest: first_digest(limits.keeping.digest),
            last: [no_entry(), no_entry(), no_entry(), no_entry()],
            kept,
            width: limits.width,
            limit: limits.log as u64,
            contexts: limits.contexts as u64,
            marks: limits.marks as u64,
        })
    }

    /// Adds an entry at the end.
    pub(crate) fn add(&mut self, entry: Entry)
        requires { length self.old.entries < self.old.limit }
        ensures { self.new ≡ record self.old { entries = self.old.entries ++ entry ∷ [] } }
    {
        self.all = self.all.then(&entry);
        self.count += 1;
        self.digest = digest_after(&self.digest, &entry);
        self.last = newest(entry, &self.last);
        match &mut self.kept {
            None => {}
            Some(entries) => entries.push_reserved(entry),
        }
    }

    /// All entries, by their places, where they are kept.
    pub fn entries(&self) -> Option<&[Entry]>
        ensures some { is_some result ≡ self.now.keeping.entries }
        ensures entries { IfSome result (λ entries. entries.now ≡ self.now.entries) }
    {
        match &self.kept {
            None => None,
            Some(entries) => Some(entries.as_slice()),
        }
    }

    /// How many entries the log has.
    pub fn len(&self) -> u64
        ensures count { result ≡ length self.now.entries }
        ensures limit { result ≤ self.now.limit }
    {
        self.count
    }

    /// The digest of all entries, where it is kept: each is hashed behind the digest of those before it.
    pub fn digest(&self) -> Option<[u8; 20]>
        ensures { result ≡ kept_digest self.now }
    {
        let digest = &self.digest;
        *digest
    }

    /// The entries from a place on, each with its place; there are at most four.
    pub(crate) fn since(&self, from: u64) -> Receipts
        requires from { from ≤ length self.now.entries }
        requires few { length self.now.entries ≤ from + 4 }
        ensures { given result ≡ gained from (reverse self.now.entries) }
    {
        receipts_of(&self.last, from, self.count)
    }

    /// The width of the windows.
    pub fn width(&self) -> u32
        ensures { result ≡ self.now.width }
    {
        self.width
    }

    /// How many entries the log may have.
    pub fn limit(&self) -> u64
        ensures { result ≡ self.now.limit }
    {
        self.limit
    }

    /// How many contexts might live at once.
    pub fn contexts(&self) -> u64
        ensures { result ≡ self.now.contexts }
    {
        self.contexts
    }

    /// How many marks might be held at once.
    pub fn marks(&self) -> u64
        ensures { result ≡ self.now.marks }
    {
        self.marks
    }
}
