//! The run of a client over one link.

ghost use Rattle.std.specs.Prelude.{◌≡◌, ◌^◌, ◌-◌, ◌≤◌, false, true, map, None, Some, IsTrue};
ghost use Rattle.std.specs.Prelude.{IsErrOf, IfOk, List, ℕ};
ghost use Rattle.sec_base.specs.Answers.{Rose};
ghost use Rattle.sasl_layer.specs.Layered.{IsNew};
ghost use Rattle.sasl_layer.specs.declared.layer.Wish.{Wish as WishSays};
ghost use Rattle.sasl_gssapi.specs.Ends.{init_means, init_by, step_by, holds};
ghost use Rattle.sasl_gssapi.specs.Ends.{holds_after, IsNewStep};
ghost use Rattle.sasl_gssapi.specs.Objects.{all_fresh};
ghost use Rattle.sasl_command.specs.Turns.{seen, beside, Seen, Made};
ghost use Rattle.sasl_command.specs.Asking.{Opened, opened_by, stepped_by, message_of, Replied};
ghost use Rattle.sasl_command.specs.Asking.{IsArmed, IsFirst, IsSecond, IsSecondStep, IsLast};
ghost use Rattle.sasl_command.specs.Asking.{Reached, Spoke, Opens, Begun, Chosen, Awaits};

use crate::ending::{end_of, end_of_read};
use mech_objects::{Mech, MechAsk};
use sasl_frames::{next_message, write_message};
use sasl_gssapi::{MOST, SaslInit, SaslStep};
use sasl_layer::{LayerFacts, Layered, Wish};
use sasl_options::RunEnd;
use sec_base::{Clock, Draw, Link, LinkFault, Octets};
use std::alloc::Global;

/// How a client's run ended, what both ends agreed on, and the echo.
#[derive(Drop)]
pub struct Asked {
    pub end: RunEnd,
    pub facts: Option<LayerFacts>,
    pub echo: Option<Octets>,
}

/// A run that ended before the layer.
pub fn unlayered(end: RunEnd) -> Asked
    ensures { result ≡ record { end = end; facts = None; echo = None } }
{
    Asked {
        end,
        facts: None,
        echo: None,
    }
}

/// A run that ended once the layer stood.
fn layered(end: RunEnd, facts: LayerFacts, echo: Option<Octets>) -> Asked
    ensures { result ≡ record { end = end; facts = Some facts; echo = echo } }
{
    Asked {
        end,
        facts: Some(facts),
        echo,
    }
}

/// Begins the end, and sends its first message.
fn open<L: Link, C: Clock, D: Draw>(
    alloc: Global,
    wish: Wish,
    mechs: Vec<Box<dyn Mech>>,
    link: &mut L,
    clock: &mut C,
    draw: &mut D,
) -> Result<SaslInit, RunEnd>
    requires unclosed { L.closed link.old ≡ false }
    requires fresh { all_fresh (map meaning mechs.items) ≡ true }
    ensures told { IsTrue (L.tells link.old) → Made (Opened wish (map meaning mechs.items))
        (seen L.Link C.Clock D.Draw link.old clock.old draw.old)
        (seen L.Link C.Clock D.Draw link.new clock.new draw.new) (opened_by meaning result) }
    ensures held { IfOk result (λ end. holds (init_means meaning end) ≡ true) }
    ensures first { IsArmed (map meaning mechs.items)
        → IfOk result (λ end. IsFirst (init_means meaning end)) }
    ensures tells { L.tells link.new ≡ L.tells link.old }
    ensures unclosed { L.closed link.new ≡ false }
    ensures fault { IsErrOf result RunEnd.LinkFault → Rose (L.faults link.old) (L.faults link.new) }
    ensures faults { L.faults link.old ≤ L.faults link.new }
{
    let stamp = clock.now();
    let mut draws = [0; 66];
    draw.fill(&mut draws);
    let ask = MechAsk {
        stamp,
        draws,
        bindings: None,
    };
    match SaslInit::start(alloc, mechs, ask, wish) {
        Ok((end, message)) => match write_message(link, message.as_slice()) {
            Ok(()) => Ok(end),
            Err(LinkFault) => {
                drop(end);
                Err(RunEnd::LinkFault)
            }
        },
        Err(refusal) => Err(end_of(refusal)),
    }
}

/// The message that a step hands out.
fn message_of(step: &SaslStep) -> &[u8]
    ensures { result.now ≡ message_of (step_by step.now meaning) }
{
    match step {
        SaslStep::More(_, message) => message.as_slice(),
        SaslStep::Done(_, message) => message.as_slice(),
    }
}

/// Answers a message before the layer.
fn reply<L: Link>(alloc: Global, end: SaslInit, link: &mut L) -> Result<SaslStep, RunEnd>
    requires unclosed { L.closed link.old ≡ false }
    requires held { holds (init_by end meaning) ≡ true }
    ensures told { IsTrue (L.tells link.old) → (wish : WishSays) (sending : List ℕ) (a : Seen)
        → Replied wish sending (init_by end meaning) (beside a (L.wire link.old))
        (beside a (L.wire link.new)) (stepped_by result meaning) }
    ensures held { IfOk result (λ s. holds_after (step_by s meaning) ≡ true) }
    ensures new { IfOk result (λ s. IsNewStep (step_by s meaning)) }
    ensures second { IsFirst (init_by end meaning)
        → IfOk result (λ s. IsSecondStep (step_by s meaning)) }
    ensures last { IsSecond (init_by end meaning) → IfOk result (λ s. IsLast (step_by s meaning)) }
    ensures tells { L.tells link.new ≡ L.tells link.old }
    ensures unclosed { L.closed link.new ≡ false }
    ensures fault { IsErrOf result RunEnd.LinkFault → Rose (L.faults link.old) (L.faults link.new) }
    ensures faults { L.faults link.old ≤ L.faults link.new }
{
    match next_message(alloc, link, MOST) {
        Ok(message) => match end.step(alloc, message.as_slice()) {
            Ok(step) => match write_message(link, message_of(&step)) {
                Ok(()) => Ok(step),
                Err(LinkFault) => {
                    drop(step);
                    Err(RunEnd::LinkFault)
                }
            },
            Err(refusal) => Err(end_of(refusal)),
        },
        Err(read) => {
            drop(end);
            Err(end_of_read(read, RunEnd::PeerEnded))
        }
    }
}

/// Reads Kerberos's reply and the offer, and answers both.
fn reach<L: Link>(alloc: Global, end: SaslInit, link: &mut L) -> Result<Layered, RunEnd>
    requires unclosed { L.closed link.old ≡ false }
    requires held { holds (init_by end meaning) ≡ true }
    requires first { IsFirst (init_by end meaning) }
    ensures told { IsTrue (L.tells link.old) → (wish : WishSays) (sending : List ℕ) (a : Seen)
        → Reached wish sending (Begun (init_by end meaning)) (beside a (L.wire link.old))
        (beside a (L.wire link.new)) result }
    ensures new { IfOk result IsNew }
    ensures tells { L.tells link.new ≡ L.tells link.old }
    ensures unclosed { L.closed link.new ≡ false }
    ensures fault { IsErrOf result RunEnd.LinkFault → Rose (L.faults link.old) (L.faults link.new) }
    ensures faults { L.faults link.old ≤ L.faults link.new }
{
    match reply(alloc, end, link) {
        Ok(SaslStep::Done(layer, choice)) => {
            drop(choice);
            Ok(layer)
        }
        Ok(SaslStep::More(next, empty)) => {
            drop(empty);
            choose(alloc, next, link)
        }
        Err(end) => Err(end),
    }
}

/// Reads the offer, and answers with the choice.
fn choose<L: Link>(alloc: Global, end: SaslInit, link: &mut L) -> Result<Layered, RunEnd>
    requires unclosed { L.closed link.old ≡ false }
    requires held { holds (init_by end meaning) ≡ true }
    requires second { IsSecond (init_by end meaning) }
    ensures told { IsTrue (L.tells link.old) → (wish : WishSays) (sending : List ℕ) (a : Seen)
        → Reached wish sending (Begun (init_by end meaning)) (beside a (L.wire link.old))
        (beside a (L.wire link.new)) result }
    ensures new { IfOk result IsNew }
    ensures tells { L.tells link.new ≡ L.tells link.old }
    ensures unclosed { L.closed link.new ≡ false }
    ensures fault { IsErrOf result RunEnd.LinkFault → Rose (L.faults link.old) (L.faults link.new) }
    ensures faults { L.faults link.old ≤ L.faults link.new }
{
    match reply(alloc, end, link) {
        Ok(SaslStep::Done(layer, choice)) => {
            drop(choice);
            Ok(layer)
        }
        Ok(SaslStep::More(_, _)) => unreachable!(),
        Err(end) => Err(end),
    }
}

/// Reads the echo.
fn hear<L: Link>(alloc: Global, layer: Layered, link: &mut L) -> Asked
    requires unclosed { L.closed link.old ≡ false }
    requires takes { layer.takes ≤ 2 ^ 64 - 2 }
    ensures told { IsTrue (L.tells link.old) → (wish : WishSays) (sending : List ℕ) (a : Seen)
        → Spoke wish sending (Awaits layer) (beside a (L.wire link.old))
        (beside a (L.wire link.new)) result.facts result.echo result.end }
    ensures tells { L.tells link.new ≡ L.tells link.old }
    ensures unclosed { L.closed link.new ≡ false }
    ensures fault { result.end ≡ RunEnd.LinkFault → Rose (L.faults link.old) (L.faults link.new) }
    ensures faults { L.faults link.old ≤ L.faults link.new }
{
    let mut layer = layer;
    let facts = layer.facts();
    match next_message(alloc, link, facts.incoming) {
        Ok(message) => match layer.receive(alloc, message.as_slice()) {
            Ok(echo) => {
                drop(layer);
                layered(RunEnd::Finished, facts, Some(echo))
            }
            Err(refusal) => {
                drop(layer);
                layered(end_of(refusal), facts, None)
            }
        },
        Err(read) => {
            drop(layer);
            layered(end_of_read(read, RunEnd::PeerEnded), facts, None)
        }
    }
}

/// Sends the octets under the layer, and reads the echo.
fn speak<L: Link, C: Clock, D: Draw>(
    alloc: Global,
    layer: Layered,
    sending: &[u8],
    link: &mut L,
    clock: &mut C,
    draw: &mut D,
) -> Asked
    requires unclosed { L.closed link.old ≡ false }
    requires new { IsNew layer }
    ensures told { IsTrue (L.tells link.old) → (wish : WishSays)
        → Spoke wish sending.now (Chosen layer)
        (seen L.Link C.Clock D.Draw link.old clock.old draw.old)
        (seen L.Link C.Clock D.Draw link.new clock.new draw.new) result.facts result.echo
        result.end }
    ensures clock { clock.new ≡ clock.old }
    ensures tells { L.tells link.new ≡ L.tells link.old }
    ensures unclosed { L.closed link.new ≡ false }
    ensures fault { result.end ≡ RunEnd.LinkFault → Rose (L.faults link.old) (L.faults link.new) }
    ensures faults { L.faults link.old ≤ L.faults link.new }
{
    let mut layer = layer;
    let facts = layer.facts();
    let mut confounder = [0; 16];
    draw.fill(&mut confounder);
    match layer.send(alloc, sending, &confounder) {
        Ok(message) => match write_message(link, message.as_slice()) {
            Ok(()) => hear(alloc, layer, link),
            Err(LinkFault) => {
                drop(layer);
                layered(RunEnd::LinkFault, facts, None)
            }
        },
        Err(refusal) => {
            drop(layer);
            layered(end_of(refusal), facts, None)
        }
    }
}

/// Speaks with a server: both ends' layer, then these octets, and their echo. `mechs` is the object of Kerberos, armed.
pub fn ask<L: Link, C: Clock, D: Draw>(
    alloc: Global,
    wish: Wish,
    mechs: Vec<Box<dyn Mech>>,
    sending: &[u8],
    link: &mut L,
    clock: &mut C,
    draw: &mut D,
) -> Asked
    requires unclosed { L.closed link.old ≡ false }
    requires armed { IsArmed (map meaning mechs.items) }
    ensures told { IsTrue (L.tells link.old)
        → Spoke wish sending.now (Opens (map meaning mechs.items))
        (seen L.Link C.Clock D.Draw link.old clock.old draw.old)
        (seen L.Link C.Clock D.Draw link.new clock.new draw.new) result.facts result.echo
        result.end }
    ensures tells { L.tells link.new ≡ L.tells link.old }
    ensures unclosed { L.closed link.new ≡ false }
    ensures fault { result.end ≡ RunEnd.LinkFault → Rose (L.faults link.old) (L.faults link.new) }
    ensures faults { L.faults link.old ≤ L.faults link.new }
{
    match open(alloc, wish, mechs, link, clock, draw) {
        Ok(end) => match reach(alloc, end, link) {
            Ok(layer) => speak(alloc, layer, sending, link, clock, draw),
            Err(end) => unlayered(end),
        },
        Err(end) => unlayered(end),
    }
}
