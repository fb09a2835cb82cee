//! The acceptor's first text (RFC 5802 section 7): `r=NONCE,s=SALT,i=ROUNDS`, and further parts.

ghost use Rattle.std.specs.Prelude.{◌≡◌, ◌++◌, ◌∷◌, [], OnOk, codes};
ghost use Rattle.std.specs.Fmt.{decimal};
ghost use Rattle.scram_mech.specs.Reading.{Answers};
ghost use Rattle.scram_mech.specs.Base64.{decoded};
ghost use Rattle.scram_mech.specs.Digits.{number_of};
ghost use Rattle.scram_mech.specs.Formats.{steps_of};
ghost use Rattle.scram_mech.specs.SecondText.{second_format, second_of, second_text};

use crate::cursor::Cursor;
use crate::digits::Decimal;
use crate::encoding::{Encoded, put_encoded};
use crate::refusal::{ScramRefusal, Stuck};
use crate::run::Class;
use crate::state::State;
use crate::texts::{is_mandatory, put};
use sec_base::NoMemory;
use std::alloc::Global;

/// The most octets of a nonce.
pub const MOST_NONCE: u16 = 256;

/// The values of a second text, as they stand there.
#[derive(Clone, Copy)]
pub struct SecondText<'a> {
    pub nonce: &'a [u8],
    pub salt: Encoded<'a>,
    pub rounds: Decimal<'a>,
    pub further: &'a [u8],
}

#[tactic(auto, unfolding(crate::specs::Formats::steps_of, crate::specs::Formats::steps, crate::specs::SecondText::second_format))]
fn parts_of(text: &[u8]) -> Result<SecondText<'_>, Stuck>
    ensures { Answers (λ t. t.nonce.now ∷ t.salt.signs.now ∷ t.rounds.digits.now ∷ t.further.now
        ∷ []) result (steps_of second_format text.now) }
{
    let mut cursor = Cursor::new(text);
    let nonce = cursor.value_behind(b"r=", State::some(Class::Nonce, MOST_NONCE))?;
    let salt = cursor.base64_behind(b",s=", 1, 64)?;
    let rounds = cursor.number_behind(b",i=")?;
    let further = cursor.value(State::further(None))?;
    cursor.end()?;
    Ok(SecondText {
        nonce,
        salt,
        rounds,
        further,
    })
}

/// Nonce, salt and rounds of a second text.
#[tactic(auto, using(crate::proofs::SteppedTexts::steps_of_pieces), unfolding(crate::specs::Formats::values_of, crate::specs::SecondText::second_of))]
pub fn read_second(text: &[u8]) -> Result<SecondText<'_>, ScramRefusal>
    ensures { Answers (λ t. record {
      nonce = t.nonce.now;
      salt = decoded t.salt.signs.now;
      rounds =
          number_of t.rounds.digits.now;
    }) result (second_of text.now) }
{
    if is_mandatory(text) {
        return Err(ScramRefusal::Mandatory);
    }
    match parts_of(text) {
        Ok(parts) => Ok(parts),
        Err(stuck) => Err(stuck.in_text(text)),
    }
}

/// Adds a number in decimal.
pub fn put_decimal(alloc: Global, text: &mut Vec<u8>, number: u32) -> Result<(), NoMemory>
    ensures { OnOk result (text.new.items ≡ text.old.items ++ decimal number) }
{
    let digits = format!(in alloc; "{number}")?;
    put(text, digits.as_bytes())
}

/// Adds the second text of a nonce, a salt and rounds.
#[tactic(auto, unfolding(crate::specs::SecondText::second_text))]
pub fn put_second(
    alloc: Global,
    text: &mut Vec<u8>,
    nonce: &[u8],
    salt: &[u8],
    rounds: u32,
) -> Result<(), NoMemory>
    ensures text { OnOk result
        (text.new.items ≡ text.old.items ++ second_text nonce.now salt.now rounds) }
{
    put(text, b"r=")?;
    put(text, nonce)?;
    put(text, b",s=")?;
    put_encoded(alloc, text, salt)?;
    put(text, b",i=")?;
    put_decimal(alloc, text, rounds)
}
