//! A disk in memory, of which any crash can be tried.
ghost use Rattle.std.specs.Prelude.{List, ◌≡◌, ◌≤◌, ◌+◌, ◌++◌, ◌⊎◌, ◌∷◌, [], ℕ, length, min, ◌-◌};
ghost use Rattle.std.specs.Prelude.{drop, OnOk, OnErr, IfOk, IsTrue};
ghost use Rattle.std.proofs.Common.{inl};
ghost use Rattle.sec_base.specs.Answers.{Rose};
ghost use Rattle.replay_journal.specs.Disks.{Written, Torn};
ghost use Rattle.replay_journal.specs.Images.{MayLeave, HadBeen};

use crate::disk::{Disk, DiskFault};
use std::alloc::{AllocError, Global};
use std::mem;

/// A range that was written.
#[derive(Clone, Copy)]
pub struct Range {
    pub at: usize,
    pub count: usize,
}

/// What was on the disk at the last sync, and the ranges written since, the oldest first.
#[derive(Drop)]
pub struct Stage {
    pub base: Vec<u8>,
    pub ranges: Vec<Range>,
}

/// A disk in memory. The calls whose numbers, counted from 1, stand in `failing` fail and change
/// nothing.
#[derive(Drop)]
pub struct MemDisk {
    alloc: Global,
    bytes: Vec<u8>,
    stage: Stage,
    past: Vec<Stage>,
    failing: Vec<u64>,
    calls: u64,
    faults: u64,
}

impl MemDisk {
    ghost use Rattle.replay_journal.specs.Memory.{memory_bytes};

    /// A disk with these octets, all of them synced.
    pub fn new(alloc: Global, bytes: Vec<u8>, failing: Vec<u64>) -> Result<MemDisk, AllocError>
        ensures { IfOk result (λ disk. memory_bytes disk ≡ bytes.items) }
    {
        let base = bytes.to_vec(alloc)?;
        let ranges = Vec::new(alloc);
        Ok(MemDisk {
            alloc,
            bytes,
            stage: Stage { base, ranges },
            past: Vec::new(alloc),
            failing,
            calls: 0,
            faults: 0,
        })
    }

    /// What a read gives.
    pub fn bytes(&self) -> &[u8]
        ensures { result.now ≡ memory_bytes self.now }
    {
        &self.bytes
    }

    /// What a crash at this moment may leave: each range that was written since the last sync is
    /// full of `filler`, and it reaches past the old end where `grow` says so.
    pub fn image(&self, filler: u8, grow: bool) -> Result<Vec<u8>, AllocError>
        ensures { IfOk result (λ image. ⟦<MemDisk as Disk>⟧.may_leave self.now image.items) }
    {
        image_of(
            self.alloc,
            &self.stage.base,
            &self.stage.ranges,
            filler,
            grow,
        )
    }

    fn fails(&mut self) -> bool
        ensures bytes { self.new.bytes ≡ self.old.bytes }
        ensures stage { self.new.stage ≡ self.old.stage }
        ensures past { self.new.past ≡ self.old.past }
        ensures faults { self.new.faults ≡ self.old.faults }
    {
        self.calls = self.calls.saturating_add(1);
        self.failing.contains(&self.calls)
    }

    fn fault(&mut self) -> DiskFault
        ensures bytes { self.new.bytes ≡ self.old.bytes }
        ensures stage { self.new.stage ≡ self.old.stage }
        ensures past { self.new.past ≡ self.old.past }
        ensures rose { Rose self.old.faults self.new.faults }
        ensures faults { self.old.faults ≤ self.new.faults }
    {
        self.faults = self.faults.saturating_add(1);
        DiskFault
    }
}

fn image_of(
    alloc: Global,
    base: &[u8],
    ranges: &[Range],
    filler: u8,
    grow: bool,
) -> Result<Vec<u8>, AllocError>
    ensures { IfOk result (λ image. MayLeave base.now ranges.now image.items) }
{
    let mut image = base.to_vec(alloc)?;
    for range in ranges {
        let torn = tear(alloc, &image, range.at, range.count, filler, grow)?;
        image = torn;
    }
    Ok(image)
}

fn tear(
    alloc: Global,
    image: &[u8],
    at: usize,
    count: usize,
    filler: u8,
    grow: bool,
) -> Result<Vec<u8>, AllocError>
    ensures { IfOk result (λ torn. Torn at count image.now torn.items) }
{
    if at > image.len() {
        return image.to_vec(alloc);
    }
    let rest = image.len() - at;
    let reach = if grow || rest >= count { count } else { rest };
    torn_to(alloc, image, at, count, reach, filler)
}

fn torn_to(
    alloc: Global,
    image: &[u8],
    at: usize,
    count: usize,
    reach: usize,
    filler: u8,
) -> Result<Vec<u8>, AllocError>
    requires at { at ≤ length image.now }
    requires reach { reach ≤ count }
    requires all { min count (length image.now - at) ≤ reach }
    ensures { IfOk result (λ torn. Torn at count image.now torn.items) }
{
    let mut torn = image[..at].to_vec(alloc)?;
    for _ in 0..reach {
        torn.push(filler)?;
    }
    if count < image.len() - at {
        torn.extend_from_slice(&image[at + count..])?;
    }
    Ok(torn)
}

// Writes over what is there, and past the end.
fn overwrite(bytes: &mut Vec<u8>, at: usize, new: &[u8]) -> Result<(), AllocError>
    requires { at ≤ length bytes.old.items }
    ensures written { OnOk result (Written bytes.old.items at new.now bytes.new.items) }
    ensures same { OnErr result (bytes.new.items ≡ bytes.old.items) }
{
    let mut next = bytes[..at].to_vec(*bytes.allocator())?;
    next.extend_from_slice(new)?;
    if new.len() < bytes.len() - at {
        next.extend_from_slice(&bytes[at + new.len()..])?;
    }
    *bytes = next;
    Ok(())
}

fn note(stage: &mut Stage, at: usize, count: usize) -> Result<(), AllocError>
    ensures base { stage.new.base ≡ stage.old.base }
    ensures more { OnOk result (stage.new.ranges.items ≡ stage.old.ranges.items
        ++ record { at = at; count = count } ∷ []) }
    ensures same { OnErr result (stage.new.ranges.items ≡ stage.old.ranges.items) }
{
    stage.ranges.push(Range { at, count })?;
    Ok(())
}

// Writes over what is there, and past the end, and notes the range.
fn put(bytes: &mut Vec<u8>, stage: &mut Stage, at: usize, new: &[u8]) -> Result<(), AllocError>
    requires { at ≤ length bytes.old.items }
    ensures written { OnOk result (Written bytes.old.items at new.now bytes.new.items) }
    ensures crash { (c : List ℕ) → MayLeave stage.new.base.items stage.new.ranges.items c
        → (d : List ℕ) × MayLeave stage.old.base.items stage.old.ranges.items d
        × Torn at (length new.now) d c }
    ensures keeps { (c : List ℕ) → MayLeave stage.old.base.items stage.old.ranges.items c
        → MayLeave stage.new.base.items stage.new.ranges.items c }
{
    note(stage, at, new.len())?;
    overwrite(bytes, at, new)
}

// What is there is on the disk.
fn settle(
    alloc: Global,
    bytes: &[u8],
    stage: &mut Stage,
    past: &mut Vec<Stage>,
) -> Result<(), AllocError>
    ensures base { OnOk result (stage.new.base.items ≡ bytes.now) }
    ensures ranges { OnOk result (stage.new.ranges.items ≡ []) }
    ensures past { OnOk result (past.new.items ≡ past.old.items ++ stage.old ∷ []) }
    ensures same { OnErr result (stage.new ≡ stage.old) }
    ensures past_same { OnErr result (past.new.items ≡ past.old.items) }
{
    let base = bytes.to_vec(alloc)?;
    let ranges = Vec::new(alloc);
    past.reserve(1)?;
    let before = mem::replace(stage, Stage { base, ranges });
    past.push_reserved(before);
    Ok(())
}

impl Disk for MemDisk {
    ghost use Rattle.std.specs.Prelude.{true};
    ghost use Rattle.replay_journal.specs.Images.{only_since};

    ghost tells = { λ _. true };

    ghost contents = { λ m. m.bytes.items };

    ghost may_leave = { λ m. MayLeave m.stage.base.items m.stage.ranges.items };

    ghost moment = { λ m. length m.past.items };

    ghost left_since = { λ m t c. MayLeave m.stage.base.items m.stage.ranges.items c
        ⊎ HadBeen (drop t m.past.items) c };

    ghost faults = { λ m. m.faults };

    ghost counts_now = { λ m t c le now. inl now };

    ghost only_now = { λ m c left. only_since m.past.items
        (MayLeave m.stage.base.items m.stage.ranges.items c) c left };

    fn len(&mut self) -> Result<u64, DiskFault> {
        if self.fails() {
            return Err(self.fault());
        }
        Ok(self.bytes.len() as u64)
    }

    fn read_at(&mut self, at: u64, buf: &mut [u8]) -> Result<(), DiskFault> {
        if self.fails() {
            return Err(self.fault());
        }
        let at = at as usize;
        buf.copy_from_slice(&self.bytes[at..at + buf.len()]);
        Ok(())
    }

    fn write_at(&mut self, at: u64, bytes: &[u8]) -> Result<(), DiskFault> {
        if self.fails() {
            return Err(self.fault());
        }
        match put(&mut self.bytes, &mut self.stage, at as usize, bytes) {
            Ok(()) => Ok(()),
            Err(_) => Err(self.fault()),
        }
    }

    fn sync(&mut self) -> Result<(), DiskFault> {
        if self.fails() {
            return Err(self.fault());
        }
        match settle(self.alloc, &self.bytes, &mut self.stage, &mut self.past) {
            Ok(()) => Ok(()),
            Err(_) => Err(self.fault()),
        }
    }

    fn replace(&mut self, bytes: &[u8]) -> Result<(), DiskFault> {
        if self.fails() {
            return Err(self.fault());
        }
        let Ok(fresh) = bytes.to_vec(self.alloc) else {
            return Err(self.fault());
        };
        match settle(self.alloc, bytes, &mut self.stage, &mut self.past) {
            Ok(()) => {
                self.bytes = fresh;
                Ok(())
            }
            Err(_) => Err(self.fault()),
        }
    }
}
