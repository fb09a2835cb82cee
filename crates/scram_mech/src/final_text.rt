//! The acceptor's final text (RFC 5802 section 7): `v=SIGNATURE` or `e=VALUE`, and further parts.

ghost use Rattle.std.specs.Prelude.{◌≡◌, ◌++◌, ◌∷◌, [], IfOk};
ghost use Rattle.scram_mech.specs.Reading.{Answers};
ghost use Rattle.scram_mech.specs.Base64.{InRange, decoded};
ghost use Rattle.scram_mech.specs.Formats.{steps_of, values_of};
ghost use Rattle.scram_mech.specs.FinalText.{signature_format, error_format, begins_as_error};
ghost use Rattle.scram_mech.specs.FinalText.{final_of, final_text};

use crate::cursor::Cursor;
use crate::encoding::{Encoded, put_encoded};
use crate::further::{Due, Further};
use crate::refusal::{ScramRefusal, Stuck};
use crate::state::State;
use crate::texts::{is_mandatory, put};
use sec_base::{NoMemory, Octets};
use std::alloc::Global;

/// The octets of a signature.
const SIGNATURE: u16 = 20;

/// The values of a final text with a signature, as they stand there.
#[derive(Clone, Copy)]
struct SignatureText<'a> {
    signature: Encoded<'a>,
    further: &'a [u8],
}

#[tactic(auto, unfolding(crate::specs::Formats::steps_of, crate::specs::Formats::steps, crate::specs::FinalText::signature_format))]
fn signature_parts(text: &[u8]) -> Result<SignatureText<'_>, Stuck>
    ensures { Answers (λ t. t.signature.signs.now ∷ t.further.now ∷ []) result
        (steps_of signature_format text.now) }
{
    let mut cursor = Cursor::new(text);
    let signature = cursor.base64_behind(b"v=", SIGNATURE, SIGNATURE)?;
    let further = cursor.value(State::further(None))?;
    cursor.end()?;
    Ok(SignatureText { signature, further })
}

/// The value and the further parts of a final text with an error.
#[tactic(auto, unfolding(crate::specs::Formats::steps_of, crate::specs::Formats::steps, crate::specs::FinalText::error_format))]
fn error_parts(text: &[u8]) -> Result<&[u8], Stuck>
    ensures { Answers (λ v. v.now ∷ []) result (steps_of error_format text.now) }
{
    let mut cursor = Cursor::new(text);
    let further = Further {
        due: Due::Value,
        last: None,
    };
    let value = cursor.value_behind(b"e=", State::Further(further))?;
    cursor.end()?;
    Ok(value)
}

fn begins_as_error(text: &[u8]) -> bool
    ensures { result ≡ begins_as_error text.now }
{
    match text {
        [first, ..] => *first == b'e',
        [] => false,
    }
}

/// The signature of a final text; a text of an error is refused as such.
#[tactic(auto, using(crate::proofs::SteppedTexts::steps_of_pieces), unfolding(crate::specs::Formats::values_of, crate::specs::FinalText::final_of))]
pub fn read_final(text: &[u8]) -> Result<Encoded<'_>, ScramRefusal>
    ensures { Answers (λ e. decoded e.signs.now) result (final_of text.now) }
{
    if is_mandatory(text) {
        return Err(ScramRefusal::Mandatory);
    }
    if begins_as_error(text) {
        return match error_parts(text) {
            Ok(_) => Err(ScramRefusal::PeerError),
            Err(stuck) => Err(stuck.in_text(text)),
        };
    }
    match signature_parts(text) {
        Ok(parts) => Ok(parts.signature),
        Err(stuck) => Err(stuck.in_text(text)),
    }
}

/// The final text of a signature.
#[tactic(auto, unfolding(crate::specs::FinalText::final_text))]
pub fn write_final(alloc: Global, signature: &[u8]) -> Result<Octets, NoMemory>
    ensures { IfOk result (λ o. o ≡ final_text signature.now) }
{
    let mut text = Vec::new(alloc);
    put(&mut text, b"v=")?;
    put_encoded(alloc, &mut text, signature)?;
    Ok(Octets::from_vec(text))
}
