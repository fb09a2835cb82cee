//! The files of the system.

ghost use Rattle.std.specs.Prelude.{◌≡◌, ◌≤◌, IfOk, IfSome, vec_len};

use sec_base::{LoadRefusal, Octets, Shelf};
use std::alloc::Global;
use std::io::Read;
use std::rt::Files;

/// How much is read at a time.
const PIECE: usize = 4096;

/// The files of the system, by their paths. It tells nothing of them.
#[derive(Drop)]
pub struct FileShelf<R: Files + Drop> {
    rt: R,
    faults: u64,
}

impl<R: Files + Drop> FileShelf<R> {
    pub fn new(rt: R) -> FileShelf<R>
        ensures { ⟦<FileShelf<R> as Shelf>⟧.faults result ≡ 0 }
    {
        FileShelf { rt, faults: 0 }
    }
}

/// What reading a file to its end, or past the limit, gave.
fn content<F: Read>(alloc: Global, file: &mut F, limit: usize) -> Result<Vec<u8>, LoadRefusal>
    ensures whole { IfOk result
        (λ octets. IfSome (F.remaining file.old) (λ all. octets.items ≡ all)) }
    ensures within { IfOk result (λ octets. vec_len octets ≤ limit) }
{
    let mut octets = Vec::new(alloc);
    let mut piece = [0; PIECE];
    for _ in 0..u64::MAX {
        match file.read(&mut piece) {
            Ok(0) => return Ok(octets),
            Ok(count) if count <= PIECE => {
                if octets.extend_from_slice(&piece[..count]).is_err() {
                    return Err(LoadRefusal::NoMemory);
                }
            }
            _ => return Err(LoadRefusal::Fault),
        }
        if octets.len() > limit {
            return Err(LoadRefusal::TooLong);
        }
    }
    Err(LoadRefusal::TooLong)
}

impl<R: Files + Drop> Shelf for FileShelf<R> {
    ghost use Rattle.std.specs.Prelude.{false, []};

    ghost faults = { λ s. s.faults };

    ghost tells = { λ _. false };

    ghost files = { λ _. [] };

    ghost asked = { λ _. [] };

    fn load(&mut self, alloc: Global, name: &str, limit: usize) -> Result<Octets, LoadRefusal> {
        let read = match std::fs::open(&self.rt, name) {
            Ok(mut file) => content(alloc, &mut file, limit),
            Err(_) => Err(LoadRefusal::Fault),
        };
        match read {
            Ok(octets) => Ok(Octets::from_vec(octets)),
            Err(LoadRefusal::TooLong) => Err(LoadRefusal::TooLong),
            Err(LoadRefusal::NoMemory) => Err(LoadRefusal::NoMemory),
            Err(LoadRefusal::Fault) => {
                self.faults = self.faults.saturating_add(1);
                Err(LoadRefusal::Fault)
            }
        }
    }
}
