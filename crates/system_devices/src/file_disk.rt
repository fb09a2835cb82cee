//! A file of the system as a disk.

ghost use Rattle.std.specs.Prelude.{◌≡◌, ◌≤◌, IfOk, IsErr};
ghost use Rattle.sec_base.specs.Answers.{Rose};

use replay_journal::{Disk, DiskFault};
use std::alloc::{AllocError, Global};
use std::fs::{File, OpenOptions};
use std::io;
use std::os::unix::fs::{FileExt, MetadataExt};
use std::path::Path;

/// What is added to a file's name for the one that is written beside it.
const BESIDE: &str = ".new";

/// A file of the system, by its path. It is opened at the first call, and made where it isn't there; from then on no other
/// process that asks has it, until it is let go (flock(2)). It tells nothing.
#[derive(Drop)]
pub struct FileDisk {
    rt: HostRuntime,
    name: String,
    beside: String,
    file: Option<File>,
    faults: u64,
}

impl FileDisk {
    /// The file of this name. Nothing is asked of the system yet.
    pub fn new(rt: HostRuntime, alloc: Global, name: &str) -> Result<FileDisk, AllocError>
        ensures { IfOk result (λ disk. ⟦<FileDisk as Disk>⟧.faults disk ≡ 0) }
    {
        let beside = format!(in alloc; "{name}{BESIDE}")?;
        let name = String::from_str(alloc, name)?;
        Ok(FileDisk {
            rt,
            name,
            beside,
            file: None,
            faults: 0,
        })
    }

    // Opens the file where it isn't open.
    fn ready(&mut self)
        ensures { self.new.faults ≡ self.old.faults }
    {
        if self.file.is_none() {
            self.file = open_locked(&self.rt, &self.name).ok();
        }
    }

    // What the system answered; a failure is counted.
    fn told<T>(&mut self, answer: io::Result<T>) -> Result<T, DiskFault>
        ensures fault { IsErr result → Rose self.old.faults self.new.faults }
        ensures faults { self.old.faults ≤ self.new.faults }
    {
        match answer {
            Ok(value) => Ok(value),
            Err(_) => {
                self.faults = self.faults.saturating_add(1);
                Err(DiskFault)
            }
        }
    }
}

// Opens a file that no other process has locked, and syncs its folder, so that the name of a new one stays.
fn open_locked(rt: &HostRuntime, name: &str) -> io::Result<File> {
    let file = OpenOptions::new()
        .read(true)
        .write(true)
        .create(true)
        .open(rt, name)?;
    if file.try_lock().is_err() {
        return Err(io::ErrorKind::WouldBlock.into());
    }
    // another process may have put a file of its own in the place of this one before the lock was had
    let named = std::fs::metadata(rt, name)?;
    if named.ino() != file.metadata()?.ino() {
        return Err(io::ErrorKind::WouldBlock.into());
    }
    sync_folder(rt, name)?;
    Ok(file)
}

// Writes a file of these octets beside the old one, and names it as that. It is locked before it has the name.
fn put_in_place(
    rt: &HostRuntime,
    name: &str,
    beside: &str,
    old: &File,
    bytes: &[u8],
) -> io::Result<File> {
    let file = OpenOptions::new()
        .read(true)
        .write(true)
        .create(true)
        .truncate(true)
        .open(rt, beside)?;
    if file.try_lock().is_err() {
        return Err(io::ErrorKind::WouldBlock.into());
    }
    file.set_permissions(old.metadata()?.permissions())?;
    file.write_all_at(bytes, 0)?;
    file.sync_all()?;
    std::fs::rename(rt, beside, name)?;
    sync_folder(rt, name)?;
    Ok(file)
}

fn sync_folder(rt: &HostRuntime, name: &str) -> io::Result<()> {
    let folder = match Path::new(name).parent() {
        Some(above) if !above.as_str().is_empty() => above.as_str(),
        _ => ".",
    };
    File::open(rt, folder)?.sync_all()
}

// No file is open.
fn not_open<T>() -> io::Result<T> {
    Err(io::ErrorKind::NotFound.into())
}

impl Disk for FileDisk {
    ghost use Rattle.std.specs.Prelude.{false, []};

    ghost tells = { λ _. false };

    ghost contents = { λ _. [] };

    ghost may_leave = { λ _ _. ⊥ };

    ghost moment = { λ _. 0 };

    ghost left_since = { λ _ _ _. ⊥ };

    ghost faults = { λ d. d.faults };

    ghost counts_now = { λ d t c le none. none };

    ghost only_now = { λ d c none. none };

    fn len(&mut self) -> Result<u64, DiskFault> {
        self.ready();
        let found = match &self.file {
            Some(file) => file.metadata(),
            None => not_open(),
        };
        match self.told(found) {
            Ok(facts) => Ok(facts.len()),
            Err(fault) => Err(fault),
        }
    }

    fn read_at(&mut self, at: u64, buf: &mut [u8]) -> Result<(), DiskFault> {
        self.ready();
        let done = match &self.file {
            Some(file) => file.read_exact_at(buf, at),
            None => not_open(),
        };
        self.told(done)
    }

    fn write_at(&mut self, at: u64, bytes: &[u8]) -> Result<(), DiskFault> {
        self.ready();
        let done = match &self.file {
            Some(file) => file.write_all_at(bytes, at),
            None => not_open(),
        };
        self.told(done)
    }

    fn sync(&mut self) -> Result<(), DiskFault> {
        self.ready();
        let done = match &self.file {
            Some(file) => file.sync_data(),
            None => not_open(),
        };
        self.told(done)
    }

    fn replace(&mut self, bytes: &[u8]) -> Result<(), DiskFault> {
        self.ready();
        let made = match &self.file {
            Some(old) => put_in_place(&self.rt, &self.name, &self.beside, old, bytes),
            None => not_open(),
        };
        match self.told(made) {
            Ok(file) => {
                self.file = Some(file);
                Ok(())
            }
            Err(fault) => Err(fault),
        }
    }
}
