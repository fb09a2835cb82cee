//! A journal is opened.
ghost use Rattle.std.specs.Prelude.{◌^◌, ◌≡◌, ◌≤◌, ◌+◌, ◌-◌, ◌*◌, ◌++◌, ◌∷◌, [], ℕ, true, false};
ghost use Rattle.std.specs.Prelude.{IsTrue, IsErr, IsErrOf, OnOk, IfOk, IfSome, List, length};
ghost use Rattle.std.specs.Prelude.{take, drop, max, Some, None, if◌then◌else◌, nat_le};
ghost use Rattle.sec_base.specs.Answers.{Rose};
ghost use Rattle.replay_journal.specs.Disks.{LeavesOnly, Only};
ghost use Rattle.replay_journal.specs.Files.{head, begins, counted, mark_in, greatest_in};
ghost use Rattle.replay_journal.specs.Files.{moment_at, is_moment, is_genuine, all_genuine};
ghost use Rattle.replay_journal.specs.Files.{greatest_of, is_bad, Rests};
ghost use Rattle.replay_journal.specs.Journals.{AllNear, Filled, recent_marks};
ghost use Rattle.replay_cache.specs.Taking.{Holds, skew};

use crate::body::{OPEN, SHUT};
use crate::disk::{Disk, DiskFault};
use gss_base::Mark;
use replay_cache::{Cache, CacheVerdict, SKEW};
use sec_base::Moment;
use std::alloc::Global;

/// Why a journal wasn't opened.
#[derive(Clone, Copy, Debug, PartialEq, Eq)]
pub enum JournalRefusal {
    /// The disk failed.
    DiskFault,
    /// The file is no journal, or a moment in a record that counts isn't one.
    BadJournal,
    /// More records are recent than the capacity.
    TooMany,
    /// There was no memory.
    NoMemory,
}

/// A disk whose journal wasn't opened.
#[derive(Drop)]
pub struct Unopened<K> {
    pub disk: K,
    pub why: JournalRefusal,
}

/// An empty journal: the octets that each begins with, and a closed gate.
pub const EMPTY: [u8; 9] = [0x47, 0x53, 0x53, 0x53, 0x4a, 0x4e, 0x4c, 0x31, SHUT];

/// All octets of the disk, of which it is first made sure that they stay.
pub fn read_all<K: Disk>(alloc: Global, disk: &mut K) -> Result<Vec<u8>, JournalRefusal>
    ensures why { IsErrOf result JournalRefusal.BadJournal → ⊥ }
    ensures few { IsErrOf result JournalRefusal.TooMany → ⊥ }
    ensures told { IsTrue (K.tells disk.old) → IfOk result (λ file. file.items
        ≡ K.contents disk.old) }
    ensures tells { K.tells disk.new ≡ K.tells disk.old }
    ensures same { K.contents disk.new ≡ K.contents disk.old }
    ensures durable { IsTrue (K.tells disk.old)
        → OnOk result (Only (K.contents disk.new) (K.may_leave disk.new)) }
    ensures images { IsTrue (K.tells disk.old) → Only (K.contents disk.old) (K.may_leave disk.old)
        → LeavesOnly K.moment K.left_since disk.old disk.new (λ c. c ≡ K.contents disk.old) }
    ensures fault { IsErrOf result JournalRefusal.DiskFault
        → Rose (K.faults disk.old) (K.faults disk.new) }
    ensures faults { K.faults disk.old ≤ K.faults disk.new }
{
    let Ok(()) = disk.sync() else {
        return Err(JournalRefusal::DiskFault);
    };
    let Ok(count) = disk.len() else {
        return Err(JournalRefusal::DiskFault);
    };
    let mut file = Vec::new(alloc);
    if file.resize(count as usize, 0).is_err() {
        return Err(JournalRefusal::NoMemory);
    }
    match disk.read_at(0, &mut file) {
        Ok(()) => Ok(file),
        Err(_) => Err(JournalRefusal::DiskFault),
    }
}

/// Makes a short file an empty journal.
pub fn make_anew<K: Disk>(disk: &mut K) -> Result<(), DiskFault>
    requires { IsTrue (K.tells disk.old) → length (K.contents disk.old) ≤ 9 }
    ensures told { IsTrue (K.tells disk.old) → OnOk result (K.contents disk.new ≡ head ++ 0 ∷ []) }
    ensures tells { K.tells disk.new ≡ K.tells disk.old }
    ensures durable { IsTrue (K.tells disk.old)
        → OnOk result (Only (K.contents disk.new) (K.may_leave disk.new)) }
    ensures images { IsTrue (K.tells disk.old) → Only (K.contents disk.old) (K.may_leave disk.old)
        → LeavesOnly K.moment K.left_since disk.old disk.new (λ c. length c ≤ 9) }
    ensures fault { IsErr result → Rose (K.faults disk.old) (K.faults disk.new) }
    ensures faults { K.faults disk.old ≤ K.faults disk.new }
{
    disk.write_at(0, &EMPTY)?;
    disk.sync()?;
    Ok(())
}

/// The file as it stands, which is made anew where it is short.
pub fn ready<K: Disk>(alloc: Global, disk: &mut K) -> Result<Vec<u8>, JournalRefusal>
    ensures told { IsTrue (K.tells disk.old) → IfOk result (λ file. file.items
        ≡ K.contents disk.new) }
    ensures anew { IsTrue (K.tells disk.old) → IfOk result (λ file. file.items
        ≡ (if nat_le (length (K.contents disk.old)) 9 then head
        ++ 0 ∷ [] else K.contents disk.old)) }
    ensures images { IsTrue (K.tells disk.old) → Only (K.contents disk.old) (K.may_leave disk.old)
        → LeavesOnly K.moment K.left_since disk.old disk.new (λ c. counted c
        ≡ counted (K.contents disk.old)) }
    ensures why { IsErrOf result JournalRefusal.BadJournal → ⊥ }
    ensures few { IsErrOf result JournalRefusal.TooMany → ⊥ }
    ensures long { IfOk result (λ file. 9 ≤ length file.items) }
    ensures tells { K.tells disk.new ≡ K.tells disk.old }
    ensures durable { IsTrue (K.tells disk.old)
        → OnOk result (Only (K.contents disk.new) (K.may_leave disk.new)) }
    ensures fault { IsErrOf result JournalRefusal.DiskFault
        → Rose (K.faults disk.old) (K.faults disk.new) }
    ensures faults { K.faults disk.old ≤ K.faults disk.new }
{
    let file = read_all(alloc, disk)?;
    if file.len() > 9 {
        return Ok(file);
    }
    if file.as_slice() == EMPTY.as_slice() {
        return Ok(file);
    }
    match make_anew(disk) {
        Ok(()) => empty_file(alloc),
        Err(_) => Err(JournalRefusal::DiskFault),
    }
}

/// Whether a file begins as a journal does, and has a gate.
pub fn begins_as_journal(file: &[u8]) -> bool
    requires { 9 ≤ length file.now }
    ensures { result ≡ begins file.now }
{
    file[..8] == EMPTY[..8]
}

fn empty_file(alloc: Global) -> Result<Vec<u8>, JournalRefusal>
    ensures file { IfOk result (λ file. file.items ≡ head ++ 0 ∷ []) }
    ensures memory { IsErr result → IsErrOf result JournalRefusal.NoMemory }
{
    match Vec::from_slice(alloc, &EMPTY) {
        Ok(file) => Ok(file),
        Err(_) => Err(JournalRefusal::NoMemory),
    }
}

/// Closes the gate behind the records where it is open, which no crash leaves: then no record
/// can count behind it.
pub fn shut_cut<K: Disk>(disk: &mut K, file: &[u8], count: usize) -> Result<(), DiskFault>
    requires file { IsTrue (K.tells disk.old) → file.now ≡ K.contents disk.old }
    requires durable { IsTrue (K.tells disk.old)
        → Only (K.contents disk.old) (K.may_leave disk.old) }
    requires begins { take 8 file.now ≡ head }
    requires long { 9 ≤ length file.now }
    requires count { count ≡ length (counted file.now) }
    requires small { 45 * count + 8 ≤ length file.now }
    ensures rests { IsTrue (K.tells disk.old)
        → OnOk result (Rests (counted file.now) (K.contents disk.new)) }
    ensures tells { K.tells disk.new ≡ K.tells disk.old }
    ensures durable { IsTrue (K.tells disk.old)
        → OnOk result (Only (K.contents disk.new) (K.may_leave disk.new)) }
    ensures images { IsTrue (K.tells disk.old)
        → LeavesOnly K.moment K.left_since disk.old disk.new (λ c. counted c ≡ counted file.now) }
    ensures fault { IsErr result → Rose (K.faults disk.old) (K.faults disk.new) }
    ensures faults { K.faults disk.old ≤ K.faults disk.new }
{
    let gate = 8 + 45 * count;
    if gate < file.len() && file[gate] == OPEN {
        disk.write_at(gate as u64, &[SHUT])?;
        disk.sync()?;
        return Ok(());
    }
    Ok(())
}

// Whether a gate that is open stands here, with a whole body and a gate behind it.
pub fn starts_open(rest: &[u8]) -> bool
    ensures { result ≡ Rattle.replay_journal.specs.Files.starts_open rest.now }
{
    rest.len() > 45 && rest[0] == OPEN
}

// The moment in twelve octets.
fn moment_in(octets: &[u8]) -> Option<Moment>
    requires { length octets.now ≡ 12 }
    ensures { result ≡ (if is_moment octets.now then Some (moment_at octets.now) else None) }
{
    match octets {
        [a, b, c, d, e, f, g, h, i, j, k, l] => Moment::new(
            u64::from_be_bytes([*a, *b, *c, *d, *e, *f, *g, *h]),
            u32::from_be_bytes([*i, *j, *k, *l]),
        ),
        _ => None,
    }
}

/// How many records count, and the greatest moment of them and `start`; None where one of them
/// isn't genuine.
pub fn scan(file: &[u8], start: Moment) -> Option<(usize, Moment)>
    requires { 8 ≤ length file.now }
    ensures count { IfSome result (λ found. found.0 ≡ length (counted file.now)) }
    ensures near { IfSome result (λ found. AllNear found.1 (counted file.now)) }
    ensures greatest { IfSome result (λ found. found.1 ≡ greatest_of start (counted file.now)) }
    ensures start { IfSome result (λ found. start ≤ found.1) }
    ensures genuine { IfSome result (λ found. all_genuine (counted file.now) ≡ true) }
    ensures bad { result ≡ None → all_genuine (counted file.now) ≡ false }
    ensures small { IfSome result (λ found. 45 * found.0 + 8 ≤ length file.now) }
{
    let mut count = 0;
    let mut greatest = start;
    let mut rest = &file[8..];
    while starts_open(rest) {
        match greater_moment(rest, greatest) {
            None => return None,
            Some(then) => greatest = then,
        }
        count += 1;
        rest = &rest[45..];
    }
    Some((count, greatest))
}

// The greatest moment with that of the record that stands here; None where it isn't genuine.
fn greater_moment(rest: &[u8], greatest: Moment) -> Option<Moment>
    requires { 45 ≤ length rest.now }
    ensures { result ≡ (if is_genuine (take 44 (drop 1 rest.now))
        then Some (max greatest (greatest_in (take 44 (drop 1 rest.now)))) else None) }
{
    let mark = mark_at(rest)?;
    let then = moment_in(&rest[33..45])?;
    if mark.at.total() > then.total() + SKEW {
        return None;
    }
    if greatest.total() < then.total() {
        Some(then)
    } else {
        Some(greatest)
    }
}

/// Puts the marks of the records into a cache that has seen the greatest moment, each with its
/// number; false where there is no room.
pub fn fill(file: &[u8], greatest: Moment, cache: &mut Cache) -> bool
    requires long { 8 ≤ length file.now }
    requires greatest { cache.old.greatest ≡ greatest }
    requires near { AllNear greatest (counted file.now) }
    requires genuine { all_genuine (counted file.now) ≡ true }
    requires empty { Holds cache.old [] }
    ensures filled { IsTrue result → Filled cache.new (counted file.now) }
    ensures full { result ≡ false
        → cache.old.capacity + 1 ≤ length (recent_marks greatest 0 [] (counted file.now)) }
    ensures same { cache.new.greatest ≡ greatest }
    ensures capacity { cache.new.capacity ≡ cache.old.capacity }
{
    let mut rest = &file[8..];
    let mut number = 0;
    while starts_open(rest) {
        if !take_record(rest, greatest, cache, number) {
            return false;
        }
        number += 1;
        rest = &rest[45..];
    }
    true
}

// Puts the mark of the record that stands here into the cache; false where there is no room.
fn take_record(rest: &[u8], greatest: Moment, cache: &mut Cache, number: u64) -> bool
    requires long { 45 ≤ length rest.now }
    requires greatest { cache.old.greatest ≡ greatest }
    requires near { (mark_in (take 44 (drop 1 rest.now))).at ≤ greatest + skew }
    requires genuine { is_genuine (take 44 (drop 1 rest.now)) ≡ true }
    ensures greatest { cache.new.greatest ≡ greatest }
    ensures capacity { cache.new.capacity ≡ cache.old.capacity }
    ensures taken { IsTrue result → (records : List (List ℕ)) → length records ≡ number
        → Filled cache.old records → Filled cache.new (records ++ take 44 (drop 1 rest.now) ∷ []) }
    ensures full { result ≡ false → (records : List (List ℕ)) → length records ≡ number
        → Filled cache.old records
        → cache.old.capacity + 1 ≤ length (recent_marks greatest 0 [] (records
        ++ take 44 (drop 1 rest.now) ∷ [])) }
{
    let Some(mark) = mark_at(rest) else {
        return false;
    };
    match cache.admit(greatest, mark, number) {
        CacheVerdict::Full => false,
        _ => true,
    }
}

// The mark of the record that stands here.
fn mark_at(rest: &[u8]) -> Option<Mark>
    requires { 45 ≤ length rest.now }
    ensures { result ≡ (if is_moment (drop 20 (take 44 (drop 1 rest.now)))
        then Some (mark_in (take 44 (drop 1 rest.now))) else None) }
{
    let at = moment_in(&rest[21..33])?;
    let mut who = [0; 20];
    who.copy_from_slice(&rest[1..21]);
    Some(Mark { who, at })
}

/// What was read of a disk: its octets, how many records count, and the greatest moment of them
/// and the start.
#[derive(Drop)]
pub struct Found {
    pub file: Vec<u8>,
    pub count: usize,
    pub greatest: Moment,
}

/// Reads the file of a journal, makes it anew where it is short, and closes a gate that is open
/// behind its records.
pub fn read_in<K: Disk>(alloc: Global, disk: &mut K, start: Moment) -> Result<Found, JournalRefusal>
    ensures long { IfOk result (λ found. 8 ≤ length found.file.items) }
    ensures small { IfOk result (λ found. found.count ≤ 2 ^ 59) }
    ensures near { IfOk result (λ found. AllNear found.greatest (counted found.file.items)) }
    ensures genuine { IfOk result (λ found. all_genuine (counted found.file.items) ≡ true) }
    ensures counts { IfOk result (λ found. found.count ≡ length (counted found.file.items)) }
    ensures greatest { IfOk result (λ found. found.greatest ≡ greatest_of start
        (counted found.file.items)) }
    ensures start { IfOk result (λ found. start ≤ found.greatest) }
    ensures read { IsTrue (K.tells disk.old) → IfOk result
        (λ found. counted found.file.items ≡ counted (K.contents disk.old)) }
    ensures rests { IsTrue (K.tells disk.old) → IfOk result
        (λ found. Rests (counted found.file.items) (K.contents disk.new)) }
    ensures durable { IsTrue (K.tells disk.old)
        → OnOk result (Only (K.contents disk.new) (K.may_leave disk.new)) }
    ensures good { IsTrue (K.tells disk.old) → OnOk result (is_bad (K.contents disk.old) ≡ false) }
    ensures bad { IsTrue (K.tells disk.old) → IsErrOf result JournalRefusal.BadJournal
        → is_bad (K.contents disk.old) ≡ true }
    ensures few { IsErrOf result JournalRefusal.TooMany → ⊥ }
    ensures images { IsTrue (K.tells disk.old) → Only (K.contents disk.old) (K.may_leave disk.old)
        → LeavesOnly K.moment K.left_since disk.old disk.new (λ c. counted c
        ≡ counted (K.contents disk.old)) }
    ensures tells { K.tells disk.new ≡ K.tells disk.old }
    ensures fault { IsErrOf result JournalRefusal.DiskFault
        → Rose (K.faults disk.old) (K.faults disk.new) }
    ensures faults { K.faults disk.old ≤ K.faults disk.new }
{
    let file = ready(alloc, disk)?;
    if !begins_as_journal(&file) {
        return Err(JournalRefusal::BadJournal);
    }
    let Some((count, greatest)) = scan(&file, start) else {
        return Err(JournalRefusal::BadJournal);
    };
    let Ok(()) = shut_cut(disk, &file, count) else {
        return Err(JournalRefusal::DiskFault);
    };
    Ok(Found {
        file,
        count,
        greatest,
    })
}
