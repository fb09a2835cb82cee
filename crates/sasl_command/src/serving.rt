//! The run of a server over one link.

ghost use Rattle.std.specs.Prelude.{◌≡◌, ◌+◌, ◌-◌, ◌^◌, ◌≤◌, false, IsTrue, IsErrOf, IfOk, IfErr};
ghost use Rattle.sec_base.specs.Answers.{Rose};
ghost use Rattle.sasl_command.specs.Turns.{seen, Made};
ghost use Rattle.sasl_command.specs.Serving.{limit, facts_of, Makes, Echoes, Turned, age};
ghost use Rattle.sasl_command.specs.Serving.{IsSpare, Spoke, ended_at, takes_of};
ghost use Rattle.sasl_command.specs.declared.serving.Stage.TheVariants as stages;

use crate::ending::{Parted, end_of, end_of_read};
use sasl_frames::{next_message, write_message};
use sasl_gssapi::{MOST, SaslAccept, SaslAnswer};
use sasl_layer::{LayerFacts, Layered, Wish};
use sasl_options::RunEnd;
use sec_base::{Clock, Draw, Link, LinkFault};
use spnego_core::AcceptSetup;
use std::alloc::Global;

/// The most turns: three before the layer, and 65,536 messages under it.
const TURNS: u32 = 65_539;

/// How far a server's end is.
#[derive(Drop)]
pub enum Stage {
    /// Before the layer.
    Before(SaslAccept),
    /// Under it.
    Under(Layered),
}

/// How many octets the next message may have.
fn limit(stage: &Stage) -> u32
    ensures { result ≡ limit stage.now }
{
    match stage {
        Stage::Before(_) => MOST,
        Stage::Under(layer) => layer.facts().incoming,
    }
}

/// What both ends agreed on, once the layer stands.
fn facts_of(stage: &Stage) -> Option<LayerFacts>
    ensures { result ≡ facts_of stage.now }
{
    match stage {
        Stage::Before(_) => None,
        Stage::Under(layer) => Some(layer.facts()),
    }
}

/// How the run ends where the stream does, between two messages.
fn ended_at(stage: &Stage) -> RunEnd
    ensures { result ≡ ended_at stage.now }
{
    match stage {
        Stage::Before(_) => RunEnd::PeerEnded,
        Stage::Under(_) => RunEnd::Finished,
    }
}

/// Answers a message before the layer.
fn answer<L: Link, C: Clock, D: Draw>(
    alloc: Global,
    setup: &AcceptSetup,
    end: SaslAccept,
    message: &[u8],
    link: &mut L,
    clock: &mut C,
    draw: &mut D,
) -> Result<Stage, RunEnd>
    requires { L.closed link.old ≡ false }
    ensures told { IsTrue (L.tells link.old)
        → Made (Makes setup.now (stages.Before end) message.now)
        (seen L.Link C.Clock D.Draw link.old clock.old draw.old)
        (seen L.Link C.Clock D.Draw link.new clock.new draw.new) result }
    ensures ages { IfOk result (λ next. age next ≡ age (stages.Before end) + 1) }
    ensures spare { IfOk result IsSpare }
    ensures tells { L.tells link.new ≡ L.tells link.old }
    ensures unclosed { L.closed link.new ≡ false }
    ensures fault { IsErrOf result RunEnd.LinkFault → Rose (L.faults link.old) (L.faults link.new) }
    ensures faults { L.faults link.old ≤ L.faults link.new }
{
    let now = clock.now();
    let mut draws = [0; 66];
    draw.fill(&mut draws);
    match end.step(alloc, setup, message, now, &draws) {
        Ok(SaslAnswer::More(next, reply)) => match write_message(link, reply.as_slice()) {
            Ok(()) => Ok(Stage::Before(next)),
            Err(LinkFault) => {
                drop(next);
                Err(RunEnd::LinkFault)
            }
        },
        Ok(SaslAnswer::Done(layer)) => Ok(Stage::Under(layer)),
        Err(refusal) => Err(end_of(refusal)),
    }
}

/// Sends back what a message under the layer carries.
fn echo<L: Link, C: Clock, D: Draw>(
    alloc: Global,
    layer: Layered,
    message: &[u8],
    link: &mut L,
    clock: &mut C,
    draw: &mut D,
) -> Result<Stage, RunEnd>
    requires unclosed { L.closed link.old ≡ false }
    requires sends { layer.sends ≤ 2 ^ 64 - 2 }
    requires takes { layer.takes ≤ 2 ^ 64 - 2 }
    ensures told { IsTrue (L.tells link.old) → Made (Echoes layer message.now)
        (seen L.Link C.Clock D.Draw link.old clock.old draw.old)
        (seen L.Link C.Clock D.Draw link.new clock.new draw.new) result }
    ensures ages { IfOk result (λ next. age next ≡ age (stages.Under layer) + 1) }
    ensures takes { IfOk result (λ next. takes_of next ≡ layer.takes + 1) }
    ensures clock { clock.new ≡ clock.old }
    ensures tells { L.tells link.new ≡ L.tells link.old }
    ensures unclosed { L.closed link.new ≡ false }
    ensures fault { IsErrOf result RunEnd.LinkFault → Rose (L.faults link.old) (L.faults link.new) }
    ensures faults { L.faults link.old ≤ L.faults link.new }
{
    let mut layer = layer;
    let carried = match layer.receive(alloc, message) {
        Ok(carried) => carried,
        Err(refusal) => {
            drop(layer);
            return Err(end_of(refusal));
        }
    };
    let mut confounder = [0; 16];
    draw.fill(&mut confounder);
    match layer.send(alloc, carried.as_slice(), &confounder) {
        Ok(reply) => match write_message(link, reply.as_slice()) {
            Ok(()) => Ok(Stage::Under(layer)),
            Err(LinkFault) => {
                drop(layer);
                Err(RunEnd::LinkFault)
            }
        },
        Err(refusal) => {
            drop(layer);
            Err(end_of(refusal))
        }
    }
}

/// What is made of a message.
fn make<L: Link, C: Clock, D: Draw>(
    alloc: Global,
    setup: &AcceptSetup,
    stage: Stage,
    message: &[u8],
    link: &mut L,
    clock: &mut C,
    draw: &mut D,
) -> Result<Stage, RunEnd>
    requires unclosed { L.closed link.old ≡ false }
    requires young { age stage ≤ 65538 }
    requires spare { IsSpare stage }
    ensures told { IsTrue (L.tells link.old) → Made (Makes setup.now stage message.now)
        (seen L.Link C.Clock D.Draw link.old clock.old draw.old)
        (seen L.Link C.Clock D.Draw link.new clock.new draw.new) result }
    ensures ages { IfOk result (λ next. age next ≡ age stage + 1) }
    ensures spare { IfOk result IsSpare }
    ensures tells { L.tells link.new ≡ L.tells link.old }
    ensures unclosed { L.closed link.new ≡ false }
    ensures fault { IsErrOf result RunEnd.LinkFault → Rose (L.faults link.old) (L.faults link.new) }
    ensures faults { L.faults link.old ≤ L.faults link.new }
{
    match stage {
        Stage::Before(end) => answer(alloc, setup, end, message, link, clock, draw),
        Stage::Under(layer) => echo(alloc, layer, message, link, clock, draw),
    }
}

/// Reads a message, and answers it.
fn turn<L: Link, C: Clock, D: Draw>(
    alloc: Global,
    setup: &AcceptSetup,
    stage: Stage,
    link: &mut L,
    clock: &mut C,
    draw: &mut D,
) -> Result<Stage, Parted>
    requires unclosed { L.closed link.old ≡ false }
    requires young { age stage ≤ 65538 }
    requires spare { IsSpare stage }
    ensures told { IsTrue (L.tells link.old) → Turned setup.now stage
        (seen L.Link C.Clock D.Draw link.old clock.old draw.old)
        (seen L.Link C.Clock D.Draw link.new clock.new draw.new) result }
    ensures ages { IfOk result (λ next. age next ≡ age stage + 1) }
    ensures spare { IfOk result IsSpare }
    ensures tells { L.tells link.new ≡ L.tells link.old }
    ensures unclosed { L.closed link.new ≡ false }
    ensures fault { IfErr result (λ parted. parted.end ≡ RunEnd.LinkFault
        → Rose (L.faults link.old) (L.faults link.new)) }
    ensures faults { L.faults link.old ≤ L.faults link.new }
{
    let facts = facts_of(&stage);
    let ended = ended_at(&stage);
    match next_message(alloc, link, limit(&stage)) {
        Ok(message) => match make(alloc, setup, stage, message.as_slice(), link, clock, draw) {
            Ok(next) => Ok(next),
            Err(end) => Err(Parted { end, facts }),
        },
        Err(read) => {
            drop(stage);
            let end = end_of_read(read, ended);
            Err(Parted { end, facts })
        }
    }
}

/// Speaks with a client: both ends' layer, then an echo of each message, until the stream ends or 65,536 messages were echoed.
pub fn serve<L: Link, C: Clock, D: Draw>(
    alloc: Global,
    setup: &AcceptSetup,
    wish: Wish,
    link: &mut L,
    clock: &mut C,
    draw: &mut D,
) -> Parted
    requires { L.closed link.old ≡ false }
    ensures told { IsTrue (L.tells link.old) → Spoke setup.now wish
        (seen L.Link C.Clock D.Draw link.old clock.old draw.old)
        (seen L.Link C.Clock D.Draw link.new clock.new draw.new) result }
    ensures tells { L.tells link.new ≡ L.tells link.old }
    ensures unclosed { L.closed link.new ≡ false }
    ensures fault { result.end ≡ RunEnd.LinkFault → Rose (L.faults link.old) (L.faults link.new) }
    ensures faults { L.faults link.old ≤ L.faults link.new }
{
    let mut stage = Stage::Before(SaslAccept::new(wish));
    for number in 0..TURNS {
        match turn(alloc, setup, stage, link, clock, draw) {
            Ok(next) => stage = next,
            Err(parted) => return parted,
        }
    }
    let facts = facts_of(&stage);
    drop(stage);
    Parted {
        end: RunEnd::Finished,
        facts,
    }
}
