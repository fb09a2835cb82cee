//! A journal over a disk.
ghost use Rattle.std.specs.Prelude.{◌≡◌, ◌≢◌, ◌⊎◌, ◌≤◌, ◌<◌, ◌++◌, ◌∷◌, [], true, false, None};
ghost use Rattle.std.specs.Prelude.{IsTrue, IsErr, IsOk, IfOk, IfErr, IsErrOf, OnOk, List, ◌+◌};
ghost use Rattle.std.specs.Prelude.{◌*◌, ◌^◌, ℕ, length, map, vec_len};
ghost use Rattle.replay_cache.specs.declared.cache.TakenMark.{TakenMark};
ghost use Rattle.replay_cache.specs.Taking.{Holds, cache_verdict};
ghost use Rattle.sec_base.specs.Answers.{Rose};
ghost use Rattle.replay_journal.specs.Disks.{LeavesOnly, Only};
ghost use Rattle.replay_journal.specs.Files.{AreBehind, Rests, body_of, greatest_in, mark_in};
ghost use Rattle.replay_journal.specs.Files.{renewed};
ghost use Rattle.replay_journal.specs.Groups.{verdicts_on, dues_on, greatest_on};
ghost use Rattle.replay_journal.specs.Journals.{AllNear, BeforeOrAfter, BeforeOrAll, Based};
ghost use Rattle.replay_journal.specs.Journals.{HasBase, IsAnswer};
ghost use Rattle.replay_journal.specs.Journals.{IsCrowded};
ghost use Rattle.replay_journal.specs.Journals.{IsPut, IsRefreshed, IsTaken, Leaves, MayFail};
ghost use Rattle.replay_journal.specs.Journals.{greatest_at, kept_by, most, records_of};
ghost use Rattle.replay_journal.specs.Openings.{Opens, Tries, RefusedBy, refusal_of, disk_after};
ghost use Rattle.replay_journal.specs.Runs.{Keeps, KeepsTogether, calls_of, all_told};

use crate::body::{OPEN, SHUT, write_body};
use crate::disk::{Disk, DiskFault};
use crate::judging::{Request, judge_each};
use crate::opening::{JournalRefusal, Unopened, fill, read_in};
use crate::renewal::{MOST, renew};
use gss_base::Mark;
use replay_cache::{Cache, CacheVerdict, SKEW};
use sec_base::Moment;
use std::alloc::Global;
use std::marker::Model;

/// What a journal says of a mark.
#[derive(Clone, Copy)]
pub enum JournalVerdict {
    Taken,
    Stale { greatest: Moment },
    Repeat { place: u64 },
    Full,
    /// The disk failed in this call.
    DiskFault,
    /// It failed in an earlier one.
    Closed,
    /// There was no memory to make the file anew, which holds as many records as it may: nothing
    /// was done.
    NoMemory,
}

/// Why marks weren't kept together.
#[derive(Clone, Copy, Debug, PartialEq, Eq)]
pub enum Unkept {
    /// The journal is closed, its file has no room for so many, or memory was wanting: nothing
    /// was done, and each is to be kept alone.
    Apart,
    /// The disk failed: none was taken, and the journal is closed.
    DiskFault,
}

/// The marks of a file.
#[derive(Drop)]
pub struct Journal<K: Disk> {
    alloc: Global,
    disk: K,
    cache: Cache,
    count: usize,
    closed: bool,
}

impl<K: Disk> Model for Journal<K> {
    ghost use Rattle.replay_journal.specs.Journals.{JournalOf, IsJournal};

    ghost Value = { JournalOf K };

    ghost view = { λ j. record {
      disk = j.disk;
      cache = j.cache;
      count = j.count;
      closed = j.closed;
    } };

    ghost invariant = { λ j. IsJournal K.Disk j.disk j.cache j.count j.closed };
}

impl<K: Disk> Journal<K> {
    /// Opens the journal on a disk, which is given back where that fails.
    pub fn open(
        alloc: Global,
        disk: K,
        capacity: usize,
        start: Moment,
    ) -> Result<Journal<K>, Unopened<K>>
        requires some { 0 < capacity }
        requires bounded { capacity ≤ 1000000 }
        ensures unclosed { IfOk result (λ journal. journal.closed ≡ false) }
        ensures capacity { IfOk result (λ journal. journal.cache.capacity ≡ capacity) }
        ensures start { IfOk result (λ journal. start ≤ journal.cache.greatest) }
        // Why it is refused is told by the file's octets alone, but for a fault of the disk and
        // for want of memory.
        ensures accepted { IsTrue (K.tells disk) → IsOk result
            → refusal_of (K.contents disk) capacity start ≡ None }
        ensures refused { IsTrue (K.tells disk) → IfErr result
            (λ refused. RefusedBy (refusal_of (K.contents disk) capacity start) refused.why) }
        ensures fault { IfErr result (λ refused. refused.why ≡ JournalRefusal.DiskFault
            → Rose (K.faults disk) (K.faults refused.disk)) }
        ensures faults { K.faults disk ≤ K.faults (disk_after result) }
        ensures tells { K.tells (disk_after result) ≡ K.tells disk }
        // Over a disk that tells, of which a crash leaves one file: the records are that file's,
        // or of one made anew.
        ensures opened { IsTrue (K.tells disk) → Only (K.contents disk) (K.may_leave disk)
            → IfOk result (Opens K.Disk (K.contents disk) start disk) }
        // A crash at any moment of the call leaves those, whatever it answers.
        ensures tries { IsTrue (K.tells disk) → Only (K.contents disk) (K.may_leave disk)
            → Tries K.Disk (K.contents disk) start disk (disk_after result) }
    {
        let mut disk = disk;
        let found = match read_in(alloc, &mut disk, start) {
            Ok(found) => found,
            Err(why) => return Err(Unopened { disk, why }),
        };
        let mut cache = match Cache::new(alloc, capacity, found.greatest) {
            Ok(cache) => cache,
            Err(_) => {
                let why = JournalRefusal::NoMemory;
                return Err(Unopened { disk, why });
            }
        };
        if !fill(&found.file, found.greatest, &mut cache) {
            let why = JournalRefusal::TooMany;
            return Err(Unopened { disk, why });
        }
        match refresh(alloc, &mut disk, found.count, cache.held(), found.greatest) {
            Ok(count) => Ok(Journal {
                alloc,
                disk,
                cache,
                count,
                closed: false,
            }),
            Err(why) => Err(Unopened { disk, why }),
        }
    }

    /// The disk.
    pub fn into_disk(self) -> K
        ensures { result ≡ self.disk }
    {
        let Journal {
            alloc: _,
            disk,
            cache: _,
            count: _,
            closed: _,
        } = self;
        disk
    }

    /// Judges a mark, and keeps it in the file where it is taken: then it is on the disk when
    /// this returns.
    pub fn keep(&mut self, now: Moment, mark: Mark) -> JournalVerdict
        ensures tells { K.tells self.new.disk ≡ K.tells self.old.disk }
        // After a fault nothing is asked of the disk.
        ensures closed { self.old.closed ≡ true
            → (result ≡ JournalVerdict.Closed) × (self.new ≡ self.old) }
        ensures only { result ≡ JournalVerdict.Closed → self.old.closed ≡ true }
        // The answer is the cache's; a mark that is to be taken may meet a fault, or a file that
        // can't be made anew.
        ensures answer { self.old.closed ≡ false → (taken : List TakenMark)
            → Holds self.old.cache taken
            → IsAnswer (kept_by (cache_verdict self.old.cache.capacity
            (greatest_at self.old now) taken mark)) self.old.count result }
        ensures fault { result ≡ JournalVerdict.DiskFault
            → Rose (K.faults self.old.disk) (K.faults self.new.disk) }
        ensures faults { K.faults self.old.disk ≤ K.faults self.new.disk }
        ensures shut { result ≡ JournalVerdict.DiskFault → self.new.closed ≡ true }
        ensures stays { (result ≡ JournalVerdict.DiskFault → ⊥)
            → self.new.closed ≡ self.old.closed }
        ensures greatest { self.old.closed ≡ false
            → self.new.cache.greatest ≡ greatest_at self.old now }
        // Where the verdict isn't Taken, nothing is asked of the disk.
        ensures asked { (taken : List TakenMark) → Holds self.old.cache taken
            → (cache_verdict self.old.cache.capacity (greatest_at self.old now) taken mark
            ≡ CacheVerdict.Taken → ⊥)
            → self.new.disk ≡ self.old.disk }
        // Full is the cache's, or comes where a file would have no room even for recent records.
        ensures full { IsTrue (K.tells self.old.disk) → result ≡ JournalVerdict.Full
            → (taken : List TakenMark) → Holds self.old.cache taken → IsCrowded
            (cache_verdict self.old.cache.capacity (greatest_at self.old now) taken mark)
            (greatest_at self.old now) (records_of K.Disk self.old.disk) }
        // Over a disk that tells, a crash at any moment of the call leaves the records from
        // before it, with this one more or without; of a file that is full, those that are
        // recent.
        ensures images { IsTrue (K.tells self.old.disk) → self.old.closed ≡ false
            → LeavesOnly K.moment K.left_since self.old.disk self.new.disk
            (Leaves K.Disk self.old now mark) }
        // At Taken it is there, and was not before.
        ensures taken { IsTrue (K.tells self.old.disk) → result ≡ JournalVerdict.Taken
            → IsTaken K.Disk self.old self.new now mark }
        ensures same { IsTrue (K.tells self.old.disk) → (result ≡ JournalVerdict.Taken → ⊥)
            → (result ≡ JournalVerdict.DiskFault → ⊥)
            → K.contents self.new.disk ≡ K.contents self.old.disk }
        // All of it as the laws on runs take it.
        ensures keeps { IsTrue (K.tells self.old.disk)
            → Keeps K.Disk self.old (record { now = now; mark = mark; answer = result }) self.new }
    {
        if self.closed {
            return JournalVerdict::Closed;
        }
        self.cache.raise(now);
        match self.cache.judge(&mark) {
            CacheVerdict::Stale { greatest } => JournalVerdict::Stale { greatest },
            CacheVerdict::Repeat { place } => JournalVerdict::Repeat { place },
            CacheVerdict::Full => JournalVerdict::Full,
            CacheVerdict::Taken => self.take(now, mark),
        }
    }

    /// Judges marks one after the other, as `keep` does, and keeps those that are taken in one
    /// section: all of them are on the disk when this returns. It says what is answered to each,
    /// in their order.
    pub fn keep_all(&mut self, asked: &[Request]) -> Result<Vec<JournalVerdict>, Unkept>
        ensures tells { K.tells self.new.disk ≡ K.tells self.old.disk }
        // Nothing is done where it is closed, or where the file has no room for so many.
        ensures unclosed { self.old.closed ≡ true → IsErrOf result Unkept.Apart }
        ensures room { most < self.old.count + length asked.now → IsErrOf result Unkept.Apart }
        ensures apart { IsErrOf result Unkept.Apart → self.new ≡ self.old }
        // Each answer is the cache's, in which the marks before it that were taken are held.
        ensures count { IfOk result (λ answers. vec_len answers ≡ length asked.now) }
        ensures answers { (taken : List TakenMark) → Holds self.old.cache taken
            → IfOk result (λ answers. answers.items ≡ map kept_by
            (verdicts_on self.old.cache.capacity self.old.cache.greatest taken self.old.count
            asked.now)) }
        ensures going { OnOk result (self.new.closed ≡ false) }
        ensures fault { IsErrOf result Unkept.DiskFault
            → (self.new.closed ≡ true) × Rose (K.faults self.old.disk) (K.faults self.new.disk) }
        ensures faults { K.faults self.old.disk ≤ K.faults self.new.disk }
        ensures greatest { OnOk result
            (self.new.cache.greatest ≡ greatest_on self.old.cache.greatest asked.now) }
        // Where none is taken, nothing is asked of the disk.
        ensures asked { (taken : List TakenMark) → Holds self.old.cache taken
            → dues_on self.old.cache.capacity self.old.cache.greatest taken self.old.count asked.now
            ≡ [] → self.new.disk ≡ self.old.disk }
        // Over a disk that tells, a crash at any moment of the call leaves the records from
        // before it, with all of the new ones or with none; and the new ones are there at the end.
        ensures together { IsTrue (K.tells self.old.disk) → IfOk result (λ answers.
            KeepsTogether K.Disk self.old (calls_of asked.now answers.items) self.new) }
        // Where the disk failed, none was taken.
        ensures lost { IsTrue (K.tells self.old.disk) → IsErrOf result Unkept.DiskFault
            → KeepsTogether K.Disk self.old (all_told JournalVerdict.DiskFault asked.now) self.new }
    {
        if self.closed || !has_room(self.count, asked.len()) {
            return Err(Unkept::Apart);
        }
        let Ok(mut answers) = Vec::with_capacity(self.alloc, asked.len()) else {
            return Err(Unkept::Apart);
        };
        let Ok(mut octets) = Vec::with_capacity(self.alloc, 45 * asked.len() + 1) else {
            return Err(Unkept::Apart);
        };
        let next = judge_each(
            &mut self.cache,
            self.count,
            asked,
            &mut answers,
            &mut octets,
        );
        if octets.is_empty() {
            return Ok(answers);
        }
        octets.push_reserved(SHUT);
        match append(&mut self.disk, self.count, &octets[1..]) {
            Ok(()) => {
                self.count = next;
                Ok(answers)
            }
            Err(_) => {
                self.closed = true;
                Err(Unkept::DiskFault)
            }
        }
    }

    // Keeps a mark that the cache would take.
    fn take(&mut self, now: Moment, mark: Mark) -> JournalVerdict
        requires unclosed { self.old.closed ≡ false }
        requires raised { now ≤ self.old.cache.greatest }
        requires taken { (taken : List TakenMark) → Holds self.old.cache taken
            → cache_verdict self.old.cache.capacity self.old.cache.greatest taken mark
            ≡ CacheVerdict.Taken }
        ensures tells { K.tells self.new.disk ≡ K.tells self.old.disk }
        ensures answer { IsAnswer JournalVerdict.Taken self.old.count result }
        ensures fault { result ≡ JournalVerdict.DiskFault
            → Rose (K.faults self.old.disk) (K.faults self.new.disk) }
        ensures faults { K.faults self.old.disk ≤ K.faults self.new.disk }
        ensures shut { result ≡ JournalVerdict.DiskFault → self.new.closed ≡ true }
        ensures stays { (result ≡ JournalVerdict.DiskFault → ⊥)
            → self.new.closed ≡ self.old.closed }
        ensures greatest { self.new.cache.greatest ≡ self.old.cache.greatest }
        ensures images { IsTrue (K.tells self.old.disk)
            → LeavesOnly K.moment K.left_since self.old.disk self.new.disk
            (Leaves K.Disk self.old now mark) }
        ensures taken { IsTrue (K.tells self.old.disk) → result ≡ JournalVerdict.Taken
            → IsTaken K.Disk self.old self.new now mark }
        ensures same { IsTrue (K.tells self.old.disk) → (result ≡ JournalVerdict.Taken → ⊥)
            → (result ≡ JournalVerdict.DiskFault → ⊥)
            → K.contents self.new.disk ≡ K.contents self.old.disk }
        ensures full { IsTrue (K.tells self.old.disk) → result ≡ JournalVerdict.Full
            → most ≤ length (renewed self.old.cache.greatest (records_of K.Disk self.old.disk)) }
    {
        match self.make_room() {
            Err(why) => why,
            Ok(()) => self.put(now, mark),
        }
    }

    // Makes the file anew where it holds as many records as it may.
    fn make_room(&mut self) -> Result<(), JournalVerdict>
        requires unclosed { self.old.closed ≡ false }
        ensures tells { K.tells self.new.disk ≡ K.tells self.old.disk }
        ensures cache { self.new.cache ≡ self.old.cache }
        ensures why { IfErr result (MayFail self.old.count) }
        ensures fault { IfErr result (λ why. why ≡ JournalVerdict.DiskFault
            → (self.new.closed ≡ true) × Rose (K.faults self.old.disk) (K.faults self.new.disk)) }
        ensures faults { K.faults self.old.disk ≤ K.faults self.new.disk }
        ensures unclosed { OnOk result (self.new.closed ≡ false) }
        ensures stays { IfErr result (λ why. (why ≡ JournalVerdict.DiskFault → ⊥)
            → self.new.closed ≡ false) }
        ensures same { IsTrue (K.tells self.old.disk) → IfErr result (λ why. (why
            ≡ JournalVerdict.DiskFault → ⊥)
            → K.contents self.new.disk ≡ K.contents self.old.disk) }
        ensures full { IsTrue (K.tells self.old.disk) → IfErr result (λ why. why
            ≡ JournalVerdict.Full
            → most ≤ length (renewed self.old.cache.greatest (records_of K.Disk self.old.disk))) }
        ensures room { OnOk result (self.new.count < 2000000) }
        ensures based { IsTrue (K.tells self.old.disk) → OnOk result (Based (most ≤ self.old.count)
            self.old.cache.greatest (records_of K.Disk self.old.disk)
            (records_of K.Disk self.new.disk)) }
        ensures images { IsTrue (K.tells self.old.disk)
            → LeavesOnly K.moment K.left_since self.old.disk self.new.disk
            (HasBase (most ≤ self.old.count) self.old.cache.greatest
            (records_of K.Disk self.old.disk)) }
    {
        if self.count < MOST {
            return Ok(());
        }
        let greatest = self.cache.greatest();
        if greatest.total() <= SKEW {
            return Err(JournalVerdict::Full);
        }
        match renew(self.alloc, &mut self.disk, greatest) {
            Ok(count) => {
                self.count = count;
                Ok(())
            }
            Err(JournalRefusal::DiskFault) => {
                self.closed = true;
                Err(JournalVerdict::DiskFault)
            }
            Err(JournalRefusal::NoMemory) => Err(JournalVerdict::NoMemory),
            Err(_) => Err(JournalVerdict::Full),
        }
    }

    // Keeps a mark that the cache would take in a file that has room.
    fn put(&mut self, now: Moment, mark: Mark) -> JournalVerdict
        requires unclosed { self.old.closed ≡ false }
        requires room { self.old.count < 2000000 }
        requires raised { now ≤ self.old.cache.greatest }
        requires taken { (taken : List TakenMark) → Holds self.old.cache taken
            → cache_verdict self.old.cache.capacity self.old.cache.greatest taken mark
            ≡ CacheVerdict.Taken }
        ensures tells { K.tells self.new.disk ≡ K.tells self.old.disk }
        ensures answer { (result ≡ JournalVerdict.Taken) ⊎ (result ≡ JournalVerdict.DiskFault) }
        ensures fault { result ≡ JournalVerdict.DiskFault
            → Rose (K.faults self.old.disk) (K.faults self.new.disk) }
        ensures faults { K.faults self.old.disk ≤ K.faults self.new.disk }
        ensures shut { result ≡ JournalVerdict.DiskFault → self.new.closed ≡ true }
        ensures stays { (result ≡ JournalVerdict.DiskFault → ⊥)
            → self.new.closed ≡ self.old.closed }
        ensures greatest { self.new.cache.greatest ≡ self.old.cache.greatest }
        ensures images { IsTrue (K.tells self.old.disk)
            → LeavesOnly K.moment K.left_since self.old.disk self.new.disk
            (BeforeOrAfter (records_of K.Disk self.old.disk)
            (body_of mark self.old.cache.greatest)) }
        ensures taken { IsTrue (K.tells self.old.disk) → result ≡ JournalVerdict.Taken
            → IsPut K.Disk self.old self.new mark }
    {
        let octets = behind_gate(&mark, self.cache.greatest());
        match append(&mut self.disk, self.count, &octets) {
            Err(_) => {
                self.closed = true;
                JournalVerdict::DiskFault
            }
            Ok(()) => {
                self.cache.admit(now, mark, self.count as u64);
                self.count += 1;
                JournalVerdict::Taken
            }
        }
    }
}

// What stands behind the gate of a mark's record.
fn behind_gate(mark: &Mark, greatest: Moment) -> [u8; 45]
    ensures value { result ≡ body_of mark.now greatest ++ 0 ∷ [] }
    ensures size { length result ≡ 45 }
    ensures back { mark_in (body_of mark.now greatest) ≡ mark.now }
    ensures told { greatest_in (body_of mark.now greatest) ≡ greatest }
{
    write_body(*mark, greatest)
}

// Whether a file of so many records has room for so many more.
fn has_room(count: usize, more: usize) -> bool
    ensures room { IsTrue result → count + more ≤ 2000000 }
    ensures full { result ≡ false → 2000000 < count + more }
{
    more <= MOST && count <= MOST - more
}

// Makes the file anew where most of its records are stale, and says how many records it has.
fn refresh<K: Disk>(
    alloc: Global,
    disk: &mut K,
    count: usize,
    held: usize,
    greatest: Moment,
) -> Result<usize, JournalRefusal>
    requires small { count ≤ 2 ^ 59 }
    requires held { held ≤ 1000000 }
    requires stands { IsTrue (K.tells disk.old)
        → Rests (records_of K.Disk disk.old) (K.contents disk.old)
        × Only (K.contents disk.old) (K.may_leave disk.old) × (count
        ≡ length (records_of K.Disk disk.old))
        × AllNear greatest (records_of K.Disk disk.old) }
    ensures images { IsTrue (K.tells disk.old) → LeavesOnly K.moment K.left_since disk.old disk.new
        (HasBase (2 * held + 1 < count) greatest (records_of K.Disk disk.old)) }
    ensures stands { IsTrue (K.tells disk.old) → IfOk result
        (IsRefreshed K.Disk (2 * held + 1 < count) disk.old disk.new greatest) }
    ensures small { IfOk result (λ now. now ≤ 2 ^ 59) }
    ensures why { IsErrOf result JournalRefusal.BadJournal → ⊥ }
    ensures few { IsErrOf result JournalRefusal.TooMany → ⊥ }
    ensures tells { K.tells disk.new ≡ K.tells disk.old }
    ensures fault { IsErrOf result JournalRefusal.DiskFault
        → Rose (K.faults disk.old) (K.faults disk.new) }
    ensures faults { K.faults disk.old ≤ K.faults disk.new }
{
    if count <= 2 * held + 1 || greatest.total() <= SKEW {
        return Ok(count);
    }
    match renew(alloc, disk, greatest) {
        Ok(now) => Ok(now),
        Err(JournalRefusal::TooMany) => Ok(count),
        Err(why) => Err(why),
    }
}

// Writes what stands behind the first gate of new records, and then opens that gate, each on the
// disk before the call goes on: until then none of them counts.
fn append<K: Disk>(disk: &mut K, count: usize, octets: &[u8]) -> Result<(), DiskFault>
    requires small { count < 2000000 }
    requires stands { IsTrue (K.tells disk.old)
        → Rests (records_of K.Disk disk.old) (K.contents disk.old)
        × (count ≡ length (records_of K.Disk disk.old))
        × Only (K.contents disk.old) (K.may_leave disk.old) }
    ensures images { IsTrue (K.tells disk.old) → (new : List (List ℕ)) → AreBehind new octets.now
        → LeavesOnly K.moment K.left_since disk.old disk.new
        (BeforeOrAll (records_of K.Disk disk.old) new) }
    ensures done { IsTrue (K.tells disk.old) → (new : List (List ℕ)) → AreBehind new octets.now
        → OnOk result (Rests (records_of K.Disk disk.old ++ new) (K.contents disk.new)
        × Only (K.contents disk.new) (K.may_leave disk.new)) }
    ensures tells { K.tells disk.new ≡ K.tells disk.old }
    ensures fault { IsErr result → Rose (K.faults disk.old) (K.faults disk.new) }
    ensures faults { K.faults disk.old ≤ K.faults disk.new }
{
    let gate = 8 + 45 * count as u64;
    disk.write_at(gate + 1, octets)?;
    disk.sync()?; // before the gate is opened
    disk.write_at(gate, &[OPEN])?;
    disk.sync()?; // before it is answered
    Ok(())
}
