//! A file is made anew.
ghost use Rattle.std.specs.Prelude.{◌≡◌, ◌≤◌, ◌<◌, ◌+◌, ◌-◌, ◌*◌, ◌++◌, ◌∷◌, [], ℕ, IsTrue};
ghost use Rattle.std.specs.Prelude.{IsErr, IsErrOf, OnOk, IfOk, length, take, drop, filter};
ghost use Rattle.sec_base.specs.Answers.{Rose};
ghost use Rattle.replay_cache.specs.Taking.{skew};
ghost use Rattle.replay_journal.specs.Disks.{LeavesOnly, Only};
ghost use Rattle.replay_journal.specs.Files.{counted, front, blocks, body_of, no_mark, mark_in};
ghost use Rattle.replay_journal.specs.Files.{greatest_in, moment_at, renewed, is_recent_body};
ghost use Rattle.replay_journal.specs.Files.{Rests};
ghost use Rattle.replay_journal.specs.Journals.{AllNear, HasBase, IsRenewed, most, records_of};

use crate::body::{OPEN, SHUT, write_body};
use crate::disk::Disk;
use crate::opening::{EMPTY, JournalRefusal, read_all, starts_open};
use gss_base::Mark;
use replay_cache::SKEW;
use sec_base::Moment;
use std::alloc::{AllocError, Global};

/// How many records a file has at most: twice what a cache has room for, so that making it anew
/// is rare.
pub const MOST: usize = 2_000_000;

/// Puts a file of the recent records in the place of the file that is there. TooMany means that
/// a file takes no more records than are recent.
pub fn renew<K: Disk>(
    alloc: Global,
    disk: &mut K,
    greatest: Moment,
) -> Result<usize, JournalRefusal>
    requires stands { IsTrue (K.tells disk.old)
        → Rests (records_of K.Disk disk.old) (K.contents disk.old)
        × Only (K.contents disk.old) (K.may_leave disk.old) }
    requires near { IsTrue (K.tells disk.old) → AllNear greatest (records_of K.Disk disk.old) }
    ensures images { IsTrue (K.tells disk.old) → LeavesOnly K.moment K.left_since disk.old disk.new
        (HasBase (Unit {0}) greatest (records_of K.Disk disk.old)) }
    ensures done { IsTrue (K.tells disk.old)
        → IfOk result (IsRenewed K.Disk disk.old disk.new greatest) }
    ensures room { IfOk result (λ count. count < 2000000) }
    ensures full { IsTrue (K.tells disk.old) → IsErrOf result JournalRefusal.TooMany
        → most ≤ length (renewed greatest (records_of K.Disk disk.old)) }
    ensures known { IsErrOf result JournalRefusal.BadJournal → ⊥ }
    ensures same { IsTrue (K.tells disk.old) → IsErr result
        → (IsErrOf result JournalRefusal.DiskFault → ⊥)
        → (K.contents disk.new ≡ K.contents disk.old)
        × Only (K.contents disk.new) (K.may_leave disk.new) }
    ensures tells { K.tells disk.new ≡ K.tells disk.old }
    ensures fault { IsErrOf result JournalRefusal.DiskFault
        → Rose (K.faults disk.old) (K.faults disk.new) }
    ensures faults { K.faults disk.old ≤ K.faults disk.new }
{
    let file = read_all(alloc, disk)?;
    let made = match recent_file(alloc, &file, greatest) {
        Ok(made) => made,
        Err(_) => return Err(JournalRefusal::NoMemory),
    };
    if made.count >= MOST {
        return Err(JournalRefusal::TooMany);
    }
    match disk.replace(&made.octets) {
        Ok(()) => Ok(made.count),
        Err(_) => Err(JournalRefusal::DiskFault),
    }
}

/// The octets of a file that is made anew, and how many records it has.
#[derive(Drop)]
pub struct Renewal {
    pub octets: Vec<u8>,
    pub count: usize,
}

/// The file of the recent records of a file, behind a record that tells the greatest moment.
pub fn recent_file(alloc: Global, file: &[u8], greatest: Moment) -> Result<Renewal, AllocError>
    ensures octets { IfOk result (λ made. made.octets.items
        ≡ front (renewed greatest (counted file.now)) ++ 0 ∷ []) }
    ensures count { IfOk result (λ made. made.count ≡ length (renewed greatest
        (counted file.now))) }
    ensures tells { greatest_in (body_of no_mark greatest) ≡ greatest }
    ensures nobody { mark_in (body_of no_mark greatest) ≡ no_mark }
    ensures sized { length (body_of no_mark greatest) ≡ 44 }
{
    let mut octets = Vec::from_slice(alloc, &EMPTY[..8])?;
    octets.push(OPEN)?;
    let nobody = Mark {
        who: [0; 20],
        at: Moment::start(),
    };
    octets.extend_from_slice(&write_body(nobody, greatest)[..44])?;
    let mut count = 1;
    let mut rest = &file[file.len().min(8)..];
    while starts_open(rest) {
        count += copy_recent(rest, greatest, &mut octets)?;
        rest = &rest[45..];
    }
    octets.push(SHUT)?;
    Ok(Renewal { octets, count })
}

// Adds the record that stands here where it is recent, and says how many that are.
fn copy_recent(rest: &[u8], greatest: Moment, octets: &mut Vec<u8>) -> Result<usize, AllocError>
    requires long { 45 ≤ length rest.now }
    requires stands { IsTrue (Rattle.replay_journal.specs.Files.starts_open rest.now) }
    ensures octets { OnOk result (octets.new.items ≡ octets.old.items
        ++ blocks (filter (is_recent_body greatest) (take 44 (drop 1 rest.now) ∷ []))) }
    ensures count { IfOk result (λ count. count
        ≡ length (filter (is_recent_body greatest) (take 44 (drop 1 rest.now) ∷ []))) }
    ensures one { IfOk result (λ count. count ≤ 1) }
{
    if age(&rest[21..33], greatest) > SKEW {
        return Ok(0);
    }
    octets.extend_from_slice(&rest[..45])?;
    Ok(1)
}

// How long before the greatest moment twelve octets of a moment lie.
fn age(octets: &[u8], greatest: Moment) -> u64
    requires { length octets.now ≡ 12 }
    ensures { result ≡ greatest - moment_at octets.now }
{
    match octets {
        [a, b, c, d, e, f, g, h, i, j, k, l] => {
            let secs = u64::from_be_bytes([*a, *b, *c, *d, *e, *f, *g, *h]);
            let micros = u32::from_be_bytes([*i, *j, *k, *l]);
            let at = secs.saturating_mul(1_000_000).saturating_add(micros as u64);
            greatest.total().saturating_sub(at)
        }
        _ => 0,
    }
}
