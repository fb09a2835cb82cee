//! What is judged at several steps.

ghost use Rattle.std.specs.Prelude.{◌≡◌, ◌≤◌, ◌∷◌, [], length, OnOk};
ghost use Rattle.scram_mech.specs.Reading.{Answers};
ghost use Rattle.scram_mech.specs.State.{some};
ghost use Rattle.scram_mech.specs.Formats.{Value, End, pieces_of};
ghost use Rattle.scram_mech.specs.Judging.{judged, is_extended, are_rounds};
ghost use Rattle.scram_mech.specs.Judging.{unframed};

use crate::cursor::Cursor;
use crate::refusal::{ScramRefusal, Stuck};
use crate::run::Class;
use crate::secrets::same;
use crate::state::State;
use der_core::unframe;
use gss_base::{Label, MechKind};

#[tactic(auto, unfolding(crate::specs::Formats::pieces_of, crate::specs::Formats::pieces))]
fn whole(octets: &[u8], class: Class, most: u16) -> Result<&[u8], Stuck>
    ensures read { Answers (λ v. v.now ∷ []) result
        (pieces_of (Value (some class most) ∷ End ∷ []) octets.now) }
    ensures few { OnOk result (length octets.now ≤ most) }
{
    let mut cursor = Cursor::new(octets);
    let value = cursor.value(State::some(class, most))?;
    cursor.end()?;
    Ok(value)
}

/// Judges a user or a password that was given: octets of this class, one at least and so many at most.
#[tactic(auto, unfolding(crate::specs::Judging::judged))]
pub fn judge(octets: &[u8], class: Class, most: u16) -> Result<(), ScramRefusal>
    ensures judged { Answers (λ u. u) result (judged class most octets.now) }
    ensures few { OnOk result (length octets.now ≤ most) }
{
    match whole(octets, class, most) {
        Ok(_) => Ok(()),
        Err(stuck) => Err(stuck.in_text(octets)),
    }
}

/// Whether a nonce begins with the own one and adds to it.
pub fn is_extended(own: &[u8], nonce: &[u8]) -> bool
    ensures { result ≡ is_extended own.now nonce.now }
{
    own.len() < nonce.len() && same(&nonce[..own.len()], own)
}

/// Whether rounds are within the limits.
pub fn are_rounds(rounds: u64) -> bool
    ensures { result ≡ are_rounds rounds }
{
    rounds >= 4_096 && rounds <= 200_000
}

/// What a frame of this mechanism holds.
#[tactic(auto, unfolding(crate::specs::Judging::unframed))]
pub fn unframed(token: &[u8]) -> Result<&[u8], ScramRefusal>
    ensures { Answers (λ t. t.now) result (unframed token.now) }
{
    match unframe(token) {
        Ok((oid, inner)) => match MechKind::of(&oid) {
            Some(MechKind::Scram) => Ok(inner),
            _ => Err(ScramRefusal::Text {
                at: token
                    .len()
                    .saturating_sub(inner.len())
                    .saturating_sub(oid.content().len()),
            }),
        },
        Err(refusal) => Err(ScramRefusal::Text { at: refusal.at }),
    }
}

/// The name of who isn't named.
pub fn nobody() -> Label
    ensures { result ≡ [] }
{
    match Label::new("") {
        Some(label) => label,
        None => unreachable!(),
    }
}
