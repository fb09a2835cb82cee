//! Base64 with padding (RFC 4648 section 4).

ghost use Rattle.std.specs.Prelude.{◌≡◌, ◌++◌, IfOk, OnOk};
ghost use Rattle.scram_mech.specs.Base64.{IsBase64, decoded, encoded};

use crate::texts::put;
use base64::engine::general_purpose::STANDARD;
use sec_base::{NoMemory, Octets};
use std::alloc::Global;

/// Signs in a text that are the base64 of some octets.
#[derive(Clone, Copy)]
pub struct Encoded<'a> {
    pub signs: &'a [u8],
    ghost spelled: { IsBase64 (decoded signs.now) signs.now },
}

impl Encoded<'_> {
    /// The octets that the signs stand for.
    pub fn decode(&self, alloc: Global) -> Result<Octets, NoMemory>
        ensures { IfOk result (λ o. o ≡ decoded self.now.signs.now) }
    {
        match STANDARD.decode(alloc, self.signs) {
            Ok(octets) => Ok(Octets::from_vec(octets)),
            Err(_) => Err(NoMemory),
        }
    }
}

/// Adds the signs of these octets to a text.
#[tactic(auto, unfolding(crate::specs::Base64::encoded))]
pub fn put_encoded(alloc: Global, text: &mut Vec<u8>, octets: &[u8]) -> Result<(), NoMemory>
    ensures { OnOk result (text.new.items ≡ text.old.items ++ encoded octets.now) }
{
    let signs = STANDARD.encode(alloc, octets)?;
    put(text, signs.as_bytes())
}

/// The signs of these octets.
pub fn encode(alloc: Global, octets: &[u8]) -> Result<Octets, NoMemory>
    ensures { IfOk result (λ o. o ≡ encoded octets.now) }
{
    let mut signs = Vec::new(alloc);
    put_encoded(alloc, &mut signs, octets)?;
    Ok(Octets::from_vec(signs))
}
