//! Application data in a client-final-message.

ghost use Rattle.std.specs.Prelude.{◌≡◌, ◌≤◌, length, IfOk, option_map};
ghost use Rattle.scram_bindings.specs.Carried.{data_of, carried, is_bound};

use gss_base::Bindings;
use sec_base::{NoMemory, Octets};
use std::alloc::Global;

/// The application data of bindings, none without them.
pub fn data_of<'a>(bindings: Option<&'a Bindings>) -> &'a [u8]
    ensures value { result.now ≡ data_of (option_map (λ b. b.now) bindings.entry) }
    ensures few { length result.now ≤ 32768 }
{
    match bindings {
        None => &[],
        Some(bindings) => bindings.application(),
    }
}

/// Whether the data that came are those of an acceptor's bindings; without any whatever comes is taken.
pub fn is_bound(bindings: Option<&Bindings>, binding: &[u8]) -> bool
    ensures { result ≡ is_bound (option_map (λ b. b.now) bindings.entry) binding.now }
{
    match bindings {
        None => true,
        Some(bindings) => bindings.application() == binding,
    }
}

/// A copy of bindings.
pub fn copied(alloc: Global, bindings: Option<&Bindings>) -> Result<Option<Bindings>, NoMemory>
    ensures { IfOk result (λ b. b ≡ option_map (λ x. x.now) bindings.entry) }
{
    match bindings {
        None => Ok(None),
        Some(bindings) => {
            let application = Octets::of(alloc, bindings.application())?;
            Ok(bindings_of(application))
        }
    }
}

/// The bindings of application data, none where there is none.
pub fn bindings_of(application: Octets) -> Option<Bindings>
    requires { length application ≤ 32768 }
    ensures { result ≡ carried application }
{
    Bindings::new(application).ok()
}
