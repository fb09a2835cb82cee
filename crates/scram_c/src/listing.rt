//! The verifiers of an acceptor's users.

ghost use Rattle.std.specs.Prelude.{◌≡◌, None};
ghost use Rattle.scram_mech.specs.Verifiers.{verifiers_of};
ghost use Rattle.scram_c.specs.Answers.{Comes, read_into};

use crate::status::Status;
use crate::verifiers_handle::VmVerifiers;
use scram_mech::{VerifierRefusal, read_verifiers};
use std::alloc::Global;

/// Reads the octets of a verifier file. What the handle held is freed then.
#[unsafe(no_mangle)]
pub extern "C" fn vm_verifiers_read(alloc: Global, h: &mut VmVerifiers, octets: &[u8]) -> u32
    ensures { Comes result h.old.value h.new.value
        (read_into h.old.value (verifiers_of octets.now)) }
{
    match read_verifiers(alloc, octets) {
        Ok(users) => match Box::new(alloc, users) {
            Ok(boxed) => {
                h.put(alloc, boxed);
                Status::Done.number()
            }
            Err(_) => Status::NoMemory.number(),
        },
        Err(VerifierRefusal::Line { number: _ }) => Status::Line.number(),
        Err(VerifierRefusal::Twice { number: _ }) => Status::Twice.number(),
        Err(VerifierRefusal::NoMemory) => Status::NoMemory.number(),
    }
}

/// Frees what the handle holds, which is empty then.
#[unsafe(no_mangle)]
pub extern "C" fn vm_verifiers_free(alloc: Global, h: &mut VmVerifiers)
    ensures { h.new.value ≡ None }
{
    drop(h.take(alloc));
}
