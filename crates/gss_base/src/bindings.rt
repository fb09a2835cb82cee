//! Channel bindings (RFC 2744 section 3.11) and the hash that an authenticator carries of them (RFC 4121 section 4.1.1.2).
ghost use Rattle.std.specs.Prelude.{◌≡◌, ◌≤◌, length, Ok, Err, Some, if◌then◌else◌, nat_eq};
ghost use Rattle.std.specs.Prelude.{option_map};
ghost use Rattle.gss_base.specs.Bindings.{IsApplicationData, hash_of};

use md5::{Digest, Md5};
use sec_base::Octets;
use std::marker::Model;

/// There was no application data.
#[derive(Clone, Copy, Debug, PartialEq, Eq)]
pub struct EmptyBindings;

/// Channel bindings: 1 to 32,768 octets of application data. Contracts see these octets.
#[derive(Debug, Drop)]
pub struct Bindings {
    application: Octets,
}

impl Model for Bindings {
    ghost use Rattle.std.specs.Prelude.{List, ℕ};
    ghost use Rattle.gss_base.specs.Bindings.{IsApplicationData};

    ghost Value = { List ℕ };

    ghost view = { λ b. b.application };

    ghost invariant = { λ b. IsApplicationData b.application };
}

impl Bindings {
    /// The bindings of this application data, refused exactly where there is none.
    pub fn new(application: Octets) -> Result<Bindings, EmptyBindings>
        requires { length application ≤ 32768 }
        ensures { result
            ≡ (if nat_eq (length application) 0 then Err (record {}) else Ok application) }
    {
        if application.as_slice().is_empty() {
            return Err(EmptyBindings);
        }
        Ok(Bindings { application })
    }

    /// The application data.
    pub fn application(&self) -> &[u8]
        ensures value { result.now ≡ self.now }
        ensures within { IsApplicationData self.now }
    {
        self.application.as_slice()
    }
}

/// The hash of channel bindings, 16 octets 00 without any.
#[tactic(auto, unfolding(crate::specs::Bindings::hash_of))]
pub fn binding_hash(bindings: Option<&Bindings>) -> [u8; 16]
    ensures { result ≡ hash_of (option_map (λ b. b.now) bindings.entry) }
{
    match bindings {
        None => [0; 16],
        Some(bindings) => hash(bindings.application()),
    }
}

/// The hash of this application data.
#[tactic(auto, unfolding(crate::specs::Bindings::hash_of))]
fn hash(application: &[u8]) -> [u8; 16]
    requires { length application.now ≤ 32768 }
    ensures { result ≡ hash_of (Some application.now) }
{
    let count = application.len() as u32;
    let mut hasher = Md5::new();
    hasher.update([0; 16].as_slice());
    hasher.update(count.to_le_bytes().as_slice());
    hasher.update(application);
    hasher.finalize()
}
