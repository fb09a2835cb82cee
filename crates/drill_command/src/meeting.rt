//! The two ends of a session are an honest pair.

ghost use Rattle.std.specs.Prelude.{◌≡◌, ◌<◌, ℕ, IfOk, map, take, slice_get};
ghost use Rattle.std.specs.List.{AllByRecursion};
ghost use Rattle.pair_laws.specs.Creation.{padded};
ghost use Rattle.pair_laws.specs.Honest.{occasion_of};
ghost use Rattle.pair_laws.specs.Linked.{kept_of};
ghost use Rattle.pair_laws.specs.Meeting.{IsDrawn, drawn_on};
ghost use Rattle.drill_command.specs.Fitting.{tokens_for};
ghost use Rattle.drill_plan.specs.Generator.{octets_from};
ghost use Rattle.drill_command.specs.Paired.{AreOnTime, IsPaired, drawn_from};
ghost use Rattle.drill_plan.specs.Sessions.{moment_of, kind_of};
ghost use Rattle.drill_plan.specs.Setting.{drill_start};

use drill_plan::{Generator, facts_of, kind_of, moment_of};
use gss_base::MechKind;
use gss_server::Kept;
use pair_laws::prove_meeting;
use sec_base::NoMemory;
use std::alloc::Global;

/// The octets of an answer's draws that are its token's: the first ones.
const DRAWN: usize = 66;

/// How many tokens the client sends by a mechanism.
fn tokens_for(kind: MechKind) -> usize
    ensures { result ≡ tokens_for kind }
{
    match kind {
        MechKind::Kerberos => 1,
        MechKind::Scram => 3,
    }
}

/// What was drawn for an answer's token.
fn drawn_for(one: &Kept) -> [u8; 66]
    ensures is { result ≡ take 66 one.entry.now.draws }
    ensures drawn { IsDrawn result }
{
    let mut first = [0; 66];
    first.copy_from_slice(&one.draws[..DRAWN]);
    first
}

/// What counts as drawn for the token of this place: zeros where it has no answer.
fn drawn_at(kept: &[Kept], place: usize) -> [u8; 66]
    ensures is { result ≡ drawn_from (slice_get kept.now place) }
    ensures drawn { IsDrawn result }
{
    match kept.get(place) {
        Some(one) => drawn_for(one),
        None => [0; 66],
    }
}

/// What counts as drawn for each of so many tokens.
fn drawn_all(alloc: Global, kept: &[Kept], tokens: usize) -> Result<Vec<[u8; 66]>, NoMemory>
    ensures is { IfOk result (λ d. (moment : ℕ)
        → d.items ≡ drawn_on (padded moment tokens (map occasion_of (kept_of kept.now)))) }
    ensures drawn { IfOk result (λ d. AllByRecursion IsDrawn d.items) }
{
    let mut all = Vec::new(alloc);
    for place in 0..tokens {
        all.push(drawn_at(kept, place))?;
    }
    Ok(all)
}

/// Does nothing that stays; its contract says, where there was memory, that the two ends of a session, whose client began with this generator, are
/// an honest pair if the answers came at the session's moment.
pub fn prove_paired(
    alloc: Global,
    number: u32,
    draw: Generator,
    kept: &[Kept],
) -> Result<(), NoMemory>
    requires { number < 86400 }
    ensures { IfOk result (λ _. AreOnTime number kept.now → IsPaired number
        (drill_start number (moment_of number) (octets_from 66 draw.value)).setup kept.now) }
{
    let tokens = tokens_for(kind_of(number));
    let mut draw = draw;
    let facts = facts_of(alloc, number, moment_of(number), &mut draw)?;
    let draws = drawn_all(alloc, kept, tokens)?;
    prove_meeting(alloc, facts, draws.as_slice())?;
    Ok(())
}
