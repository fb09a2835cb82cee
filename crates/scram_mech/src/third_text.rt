//! The initiator's final text (RFC 5802 section 7): `c=BINDING,r=NONCE`, further parts, and `,p=PROOF`.

ghost use Rattle.std.specs.Prelude.{◌≡◌, ◌-◌, ◌≤◌, ◌++◌, ◌∷◌, [], length, take, IfOk, OnOk, codes};
ghost use Rattle.scram_mech.specs.Reading.{Answers};
ghost use Rattle.scram_mech.specs.Base64.{InRange, decoded, encoded};
ghost use Rattle.scram_mech.specs.Formats.{steps_of};
ghost use Rattle.scram_mech.specs.ThirdText.{third_format, third_of, bare_text, with_proof};

use crate::cursor::Cursor;
use crate::encoding::{Encoded, put_encoded};
use crate::refusal::{ScramRefusal, Stuck};
use crate::run::Class;
use crate::second_text::MOST_NONCE;
use crate::state::State;
use crate::texts::{is_mandatory, put};
use sec_base::NoMemory;
use std::alloc::Global;

/// The most octets of binding data.
const MOST_BINDING: u16 = 32_768;

/// The octets of a proof.
const PROOF: u16 = 20;

/// How many octets `,p=` and a proof take.
const PROOF_PART: usize = 31;

/// The values of a third text, as they stand there, and the text without its proof.
#[derive(Clone, Copy)]
pub struct ThirdText<'a> {
    pub binding: Encoded<'a>,
    pub nonce: &'a [u8],
    pub further: &'a [u8],
    pub proof: Encoded<'a>,
    pub bare: &'a [u8],
}

#[tactic(auto, unfolding(crate::specs::Formats::steps_of, crate::specs::Formats::steps, crate::specs::ThirdText::third_format))]
fn parts_of(text: &[u8]) -> Result<ThirdText<'_>, Stuck>
    ensures read { Answers (λ t. t.binding.signs.now ∷ t.nonce.now ∷ t.further.now
        ∷ t.proof.signs.now ∷ []) result (steps_of third_format text.now) }
    ensures bare { IfOk result (λ t. t.bare.now ≡ take (length text.now - 31) text.now) }
    ensures binding { IfOk result (λ t. InRange 0 32768 (decoded t.binding.signs.now)) }
    ensures proof { IfOk result (λ t. InRange 20 20 (decoded t.proof.signs.now)) }
{
    let mut cursor = Cursor::new(text);
    let binding = cursor.base64_behind(b"c=", 0, MOST_BINDING)?;
    let nonce = cursor.value_behind(b",r=", State::some(Class::Nonce, MOST_NONCE))?;
    let further = cursor.value(State::further(Some(b'p')))?;
    let proof = cursor.base64_behind(b"=", PROOF, PROOF)?;
    cursor.end()?;
    Ok(ThirdText {
        binding,
        nonce,
        further,
        proof,
        bare: &text[..text.len().saturating_sub(PROOF_PART)],
    })
}

/// Binding data, nonce and proof of a third text.
#[tactic(auto, using(crate::proofs::SteppedTexts::steps_of_pieces), unfolding(crate::specs::Formats::values_of, crate::specs::ThirdText::third_of))]
pub fn read_third(text: &[u8]) -> Result<ThirdText<'_>, ScramRefusal>
    ensures read { Answers (λ t. record {
      binding = decoded t.binding.signs.now;
      nonce =
          t.nonce.now;
      proof = decoded t.proof.signs.now;
      bare = t.bare.now;
    }) result
        (third_of text.now) }
    ensures binding { IfOk result (λ t. InRange 0 32768 (decoded t.binding.signs.now)) }
    ensures proof { IfOk result (λ t. InRange 20 20 (decoded t.proof.signs.now)) }
{
    if is_mandatory(text) {
        return Err(ScramRefusal::Mandatory);
    }
    match parts_of(text) {
        Ok(parts) => Ok(parts),
        Err(stuck) => Err(stuck.in_text(text)),
    }
}

/// Adds the third text of binding data and a nonce, without its proof.
#[tactic(auto, unfolding(crate::specs::ThirdText::bare_text))]
pub fn put_bare(
    alloc: Global,
    text: &mut Vec<u8>,
    binding: &[u8],
    nonce: &[u8],
) -> Result<(), NoMemory>
    ensures { OnOk result (text.new.items ≡ text.old.items ++ bare_text binding.now nonce.now) }
{
    put(text, b"c=")?;
    put_encoded(alloc, text, binding)?;
    put(text, b",r=")?;
    put(text, nonce)
}

/// Adds a proof to a third text.
pub fn put_proof(alloc: Global, text: &mut Vec<u8>, proof: &[u8]) -> Result<(), NoMemory>
    ensures { OnOk result (text.new.items ≡ text.old.items ++ codes ",p=" ++ encoded proof.now) }
{
    put(text, b",p=")?;
    put_encoded(alloc, text, proof)
}
