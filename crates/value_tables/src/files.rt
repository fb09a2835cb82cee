//! Files of the folder that the program is run in, by the system's shelf.

use sec_base::{LoadRefusal, Shelf};
use sha1::Sha1;
use std::alloc::Global;
use system_devices::FileShelf;

/// More octets than a file here has.
const LIMIT: usize = 65_536;

/// The file that is read in several pieces, and how many octets it has.
const LONG: &str = "long.txt";

const LONG_LENGTH: usize = 12_289;

/// SHA-1 of octets, in hexadecimal.
fn digest(alloc: Global, octets: &[u8]) -> Option<String> {
    let mut hash = Sha1::new();
    hash.update(octets);
    hex::encode(alloc, hash.finalize()).ok()
}

/// The file of this name, how many octets it has, and their SHA-1; None where it can't be loaded.
pub fn told(alloc: Global, rt: HostRuntime, name: &str) -> Option<String> {
    let mut shelf = FileShelf::new(rt);
    let octets = shelf.load(alloc, name, LIMIT).ok()?;
    let digest = digest(alloc, octets.as_slice())?;
    let count = octets.as_slice().len();
    format!(in alloc; "{name}: {count} octets, SHA-1 {digest}").ok()
}

/// Whether a file is loaded up to its length, and is too long past it.
pub fn is_limited(alloc: Global, rt: HostRuntime) -> bool {
    let mut shelf = FileShelf::new(rt);
    shelf.load(alloc, LONG, LONG_LENGTH).is_ok()
        && matches!(
            shelf.load(alloc, LONG, LONG_LENGTH - 1),
            Err(LoadRefusal::TooLong)
        )
}

/// Whether a load of this name is a fault.
pub fn is_fault(alloc: Global, rt: HostRuntime, name: &str) -> bool {
    let mut shelf = FileShelf::new(rt);
    matches!(shelf.load(alloc, name, LIMIT), Err(LoadRefusal::Fault))
}
