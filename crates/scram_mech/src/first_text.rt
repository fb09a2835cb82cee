//! The initiator's first text (RFC 5802 section 7): `n=NAME,r=NONCE`, and further parts.

ghost use Rattle.std.specs.Prelude.{◌≡◌, ◌++◌, ◌∷◌, [], OnOk, codes};
ghost use Rattle.scram_mech.specs.declared.name.Escape.TheVariants.{Outside};
ghost use Rattle.scram_mech.specs.Reading.{Answers};
ghost use Rattle.scram_mech.specs.Name.{unescaped};
ghost use Rattle.scram_mech.specs.Formats.{steps_of};
ghost use Rattle.scram_mech.specs.FirstText.{first_format, first_of, first_text};

use crate::cursor::Cursor;
use crate::name::put_name;
use crate::refusal::{ScramRefusal, Stuck};
use crate::run::Class;
use crate::state::State;
use crate::texts::{is_mandatory, put};
use sec_base::NoMemory;

/// The most octets of an initiator's nonce: the acceptor's 24 have room behind it in 256.
const MOST_NONCE: u16 = 232;

/// The values of a first text, as they stand there.
#[derive(Clone, Copy)]
pub struct FirstText<'a> {
    pub name: &'a [u8],
    pub nonce: &'a [u8],
    pub further: &'a [u8],
}

#[tactic(auto, unfolding(crate::specs::Formats::steps_of, crate::specs::Formats::steps, crate::specs::FirstText::first_format))]
fn parts_of(text: &[u8]) -> Result<FirstText<'_>, Stuck>
    ensures { Answers (λ t. t.name.now ∷ t.nonce.now ∷ t.further.now ∷ []) result
        (steps_of first_format text.now) }
{
    let mut cursor = Cursor::new(text);
    let name = cursor.value_behind(b"n=", State::name())?;
    let nonce = cursor.value_behind(b",r=", State::some(Class::Nonce, MOST_NONCE))?;
    let further = cursor.value(State::further(None))?;
    cursor.end()?;
    Ok(FirstText {
        name,
        nonce,
        further,
    })
}

/// The name and the nonce of a first text.
#[tactic(auto, using(crate::proofs::SteppedTexts::steps_of_pieces), unfolding(crate::specs::Formats::values_of, crate::specs::FirstText::first_of))]
pub fn read_first(text: &[u8]) -> Result<FirstText<'_>, ScramRefusal>
    ensures { Answers (λ t. record { name = unescaped Outside t.name.now; nonce = t.nonce.now })
        result (first_of text.now) }
{
    if is_mandatory(text) {
        return Err(ScramRefusal::Mandatory);
    }
    match parts_of(text) {
        Ok(parts) => Ok(parts),
        Err(stuck) => Err(stuck.in_text(text)),
    }
}

/// Adds the first text of a name and a nonce.
#[tactic(auto, unfolding(crate::specs::FirstText::first_text))]
pub fn put_first(text: &mut Vec<u8>, name: &[u8], nonce: &[u8]) -> Result<(), NoMemory>
    ensures { OnOk result (text.new.items ≡ text.old.items ++ first_text name.now nonce.now) }
{
    put(text, b"n=")?;
    put_name(text, name)?;
    put(text, b",r=")?;
    put(text, nonce)
}
