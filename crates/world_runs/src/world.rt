//! The world: initiators, an acceptor's book, and the lanes by which records come to it.

ghost use Rattle.std.specs.Prelude.{◌≡◌, ◌⊎◌, ◌≤◌, ℕ, [], ◌++◌, ◌∷◌, true, map, length, nat_le};
ghost use Rattle.std.specs.Prelude.{replicate, slice_get, Option, Some, None, IsSome, IfOk, IsErr};
ghost use Rattle.std.specs.Prelude.{Ok, ◌<◌, slice_set};
ghost use Rattle.std.specs.Vec.{vec_len};
ghost use Rattle.spnego_core.specs.Ends.{PlainSetup, setup_of};
ghost use Rattle.spnego_core.specs.InitMech.{is_own_list};
ghost use Rattle.init_ends.specs.Ends.{setup_by};
ghost use Rattle.init_ends.specs.Plain.{objects_of};
ghost use Rattle.accept_book.specs.Booking.{BookOf};
ghost use Rattle.world_laws.specs.Stages.{Ready};
ghost use Rattle.world_runs.specs.Objects as objects;
ghost use Rattle.world_runs.specs.Objects.{StageMeans, stage_means, may_go};
ghost use Rattle.world_runs.specs.ObjectMoves.{started_from, taken_from, called_from, of_stage};
ghost use Rattle.world_runs.specs.ObjectMoves.{TurnsTo, CallsTo, Turns};
ghost use Rattle.world_laws.specs.Events.{IsBook, IsProper};
ghost use Rattle.world_runs.specs.Carrying.{RulesCalls, RulesAt};
ghost use Rattle.world_runs.specs.Passing.{hand_or, LaneTurns};
ghost use Rattle.world_runs.specs.Served.{served};
ghost use Rattle.world_runs.specs.Worlds.{parts_means, PassesBy, world_means, shown, IsWorld};
ghost use Rattle.world_runs.specs.Turning.{happened_of};

use crate::initiators::{self, Moves};
use crate::lanes::{self, InHand};
use crate::setups::tell_setups;
use crate::stage::Stage;
use accept_book::OwnSeat;
use gss_client::{Session, prove_plain_creation};
use init_ends::{InitSetup, prove_plain_law};
use krb_derive::SealKeys;
use posts_program::Posts;
use sec_base::{Moment, NoMemory, Octets};
use spnego_core::InitFacts;
use std::alloc::Global;
use std::mem;
use world_laws::{Happened, WorldEvent, prove_agreement, prove_origin, tell_below};

/// What a world is begun with.
#[derive(Drop)]
pub struct WorldSetup {
    /// A book without entries.
    pub book: OwnSeat,
    /// Initiators over the objects of Kerberos and SCRAM.
    pub initiators: Vec<InitSetup>,
    /// What their objects are armed with, and what they are begun with, in their order.
    pub facts: Vec<InitFacts>,
    /// How many lanes there are.
    pub lanes: usize,
}

/// Initiators, an acceptor's book, and lanes by which records come to it.
///
/// Contracts see what it shows (`Shown`). Each world came of a run of events (`IsWorld`): so begins one, and so each event leaves it.
#[derive(Drop)]
pub struct World {
    facts: Vec<InitFacts>,
    parts: Parts,
    events: Vec<WorldEvent>,
}

/// What events change.
#[derive(Drop)]
struct Parts {
    stages: Vec<Stage>,
    /// It is there between two events.
    book: Option<OwnSeat>,
    /// The state of the program that is served.
    posts: Posts,
    lanes: Vec<Option<InHand>>,
}

/// An initiator starts, if it wasn't started.
fn start_from(alloc: Global, stage: Stage) -> Moves
    requires { may_go (stage_means stage meaning) ≡ true }
    ensures { TurnsTo (started_from (stage_means stage meaning)) (happened_of result.happened)
        (stage_means stage meaning) (stage_means result.stage meaning) }
{
    match stage {
        Stage::Ready(own) => initiators::start(alloc, own),
        other => stays(other),
    }
}

/// There is nothing to be done.
fn stays(stage: Stage) -> Moves
    ensures stage { stage_means result.stage meaning ≡ stage_means stage meaning }
    ensures happened { result.happened ≡ Ok Happened.Nothing }
{
    Moves {
        stage,
        happened: Ok(Happened::Nothing),
    }
}

/// An initiator takes a reply, if a creation call of its own is out.
fn deliver_from(alloc: Global, stage: Stage, bytes: &[u8], first: u32) -> Moves
    requires first { first ≤ 0x80000000 }
    requires ready { may_go (stage_means stage meaning) ≡ true }
    ensures { TurnsTo (taken_from first bytes.now (stage_means stage meaning))
        (happened_of result.happened) (stage_means stage meaning)
        (stage_means result.stage meaning) }
{
    match stage {
        Stage::Asks { xid, end } => initiators::take(alloc, first, xid, end, bytes),
        Stage::Stands(session) => stays(Stage::Stands(session)),
        other => stays(other),
    }
}

/// The next call of a context, or its end if no number is left for a call.
fn call_with(alloc: Global, session: Session, procedure: u32, args: &[u8]) -> Moves
    requires { length args.now ≤ 65540 }
    ensures { CallsTo session procedure args.now (stage_means result.stage meaning)
        (happened_of result.happened) }
{
    if session.next_number() > 0x7fffffff {
        return initiators::leave(alloc, session);
    }
    initiators::call(alloc, session, procedure, args)
}

/// An initiator calls, if its context stands, or ends its context if no number is left.
fn call_from(alloc: Global, stage: Stage, procedure: u32, args: &[u8]) -> Moves
    requires { length args.now ≤ 65540 }
    ensures { TurnsTo (called_from procedure args.now (stage_means stage meaning))
        (happened_of result.happened) (stage_means stage meaning)
        (stage_means result.stage meaning) }
{
    match stage {
        Stage::Stands(session) => call_with(alloc, session, procedure, args),
        other => stays(other),
    }
}

/// Puts an initiator's stage in its place, and lets go of what stood there.
fn put(stages: &mut Vec<Stage>, i: usize, stage: Stage)
    requires { i < vec_len stages.old }
    ensures { stages.new.items ≡ slice_set stages.old.items i stage }
{
    drop(mem::replace(&mut stages[i], stage));
}

/// The initiator of this place starts.
#[tactic(auto, using(crate::proofs::Turns::turned_at, crate::proofs::Turns::unturned_at))]
fn start(alloc: Global, stages: &mut Vec<Stage>, i: usize) -> Result<Happened, NoMemory>
    requires { (stage : StageMeans)
        → slice_get (map (λ s. stage_means s meaning) stages.old.items) i ≡ Some stage
        → may_go stage ≡ true }
    ensures { Turns (of_stage started_from
        (slice_get (map (λ s. stage_means s meaning) stages.old.items) i)) i (happened_of result)
        (map (λ s. stage_means s meaning) stages.old.items)
        (map (λ s. stage_means s meaning) stages.new.items) }
{
    if i >= stages.len() {
        return Ok(Happened::Nothing);
    }
    let stage = mem::replace(&mut stages[i], Stage::Over);
    let moves = start_from(alloc, stage);
    put(stages, i, moves.stage);
    moves.happened
}

/// The initiator of this place takes a reply.
#[tactic(auto, using(crate::proofs::Turns::turned_at, crate::proofs::Turns::unturned_at))]
fn deliver(
    alloc: Global,
    stages: &mut Vec<Stage>,
    i: usize,
    bytes: &[u8],
    first: u32,
) -> Result<Happened, NoMemory>
    requires first { first ≤ 0x80000000 }
    requires ready { (stage : StageMeans)
        → slice_get (map (λ s. stage_means s meaning) stages.old.items) i ≡ Some stage
        → may_go stage ≡ true }
    ensures { Turns (of_stage (taken_from first bytes.now)
        (slice_get (map (λ s. stage_means s meaning) stages.old.items) i)) i (happened_of result)
        (map (λ s. stage_means s meaning) stages.old.items)
        (map (λ s. stage_means s meaning) stages.new.items) }
{
    if i >= stages.len() {
        return Ok(Happened::Nothing);
    }
    let stage = mem::replace(&mut stages[i], Stage::Over);
    let moves = deliver_from(alloc, stage, bytes, first);
    put(stages, i, moves.stage);
    moves.happened
}

/// The initiator of this place calls.
#[tactic(auto, using(crate::proofs::Turns::turned_at, crate::proofs::Turns::unturned_at))]
fn call_by(
    alloc: Global,
    stages: &mut Vec<Stage>,
    i: usize,
    procedure: u32,
    args: &[u8],
) -> Result<Happened, NoMemory>
    requires { length args.now ≤ 65540 }
    ensures { Turns (of_stage (called_from procedure args.now)
        (slice_get (map (λ s. stage_means s meaning) stages.old.items) i)) i (happened_of result)
        (map (λ s. stage_means s meaning) stages.old.items)
        (map (λ s. stage_means s meaning) stages.new.items) }
{
    if i >= stages.len() {
        return Ok(Happened::Nothing);
    }
    let stage = mem::replace(&mut stages[i], Stage::Over);
    let moves = call_from(alloc, stage, procedure, args);
    put(stages, i, moves.stage);
    moves.happened
}

/// The record that a lane has in hand, or else this one.
fn hand_or(before: Option<InHand>, taken: InHand) -> InHand
    ensures { result ≡ hand_or before taken }
{
    match before {
        Some(hand) => hand,
        None => taken,
    }
}

/// The program's state, in whose place a new one is left meanwhile.
fn taken_posts(posts: &mut Posts) -> Posts {
    mem::replace(posts, Posts::new())
}

/// The program's state is this one now.
fn put_posts(posts: &mut Posts, after: Posts) {
    drop(mem::replace(posts, after));
}

/// A lane goes on with the record that it has in hand, or with this one.
fn go_on(
    alloc: Global,
    book: &mut Option<OwnSeat>,
    posts: &mut Posts,
    lanes: &mut Vec<Option<InHand>>,
    lane: usize,
    taken: InHand,
) -> Result<Happened, NoMemory>
    requires { IsSome book.old }
    ensures { LaneTurns (slice_get lanes.old.items lane) lane
        taken (happened_of result) (record { book = book.old; lanes = lanes.old.items })
        (record { book = book.new; lanes = lanes.new.items }) }
{
    if lane >= lanes.len() {
        drop(taken);
        return Ok(Happened::Nothing);
    }
    let before = lanes[lane].take();
    let hand = hand_or(before, taken);
    match book.take() {
        Some(held) => {
            let program = taken_posts(posts);
            let moves = lanes::step(alloc, held, program, hand);
            let _log = moves.book.log();
            drop(book.replace(moves.book));
            put_posts(posts, moves.posts);
            drop(mem::replace(&mut lanes[lane], moves.lane));
            moves.happened
        }
        None => unreachable!(),
    }
}

/// Does nothing that stays: what the calls of this session are answered.
fn tell_ruled(stage: &Stage)
    ensures { RulesAt (stage_means stage.now meaning) }
{
    match stage {
        Stage::Stands(session) => {
            let _keys = SealKeys::of(&session.outcome().key, 24);
        }
        _ => {}
    }
}

/// Does nothing: its contract says what a book keeps.
fn tell_book(book: &Option<OwnSeat>)
    ensures { (b : BookOf) → book.now ≡ Some b → IsBook b }
{
    if let Some(book) = book {
        let _log = book.log();
    }
}

/// An event happens.
fn happen(alloc: Global, parts: &mut Parts, event: WorldEvent) -> Result<Happened, NoMemory>
    requires proper { IsProper served event }
    requires ready { (i : ℕ) (stage : StageMeans)
        → slice_get (parts_means parts.old meaning).stages i ≡ Some stage
        → may_go stage ≡ true }
    requires there { IsSome parts.old.book }
    ensures { PassesBy event (happened_of result) (parts_means parts.old meaning)
        (parts_means parts.new meaning) }
{
    match event {
        WorldEvent::Start { initiator } => start(alloc, &mut parts.stages, initiator),
        WorldEvent::Deliver {
            initiator,
            bytes,
            first,
        } => deliver(alloc, &mut parts.stages, initiator, bytes.as_slice(), first),
        WorldEvent::Lane {
            lane,
            bytes,
            now,
            draws,
        } => {
            let taken = InHand {
                bytes,
                now,
                draws,
                looked: None,
            };
            go_on(
                alloc,
                &mut parts.book,
                &mut parts.posts,
                &mut parts.lanes,
                lane,
                taken,
            )
        }
        WorldEvent::CallBy {
            initiator,
            procedure,
            args,
        } => call_by(
            alloc,
            &mut parts.stages,
            initiator,
            procedure,
            args.as_slice(),
        ),
    }
}

/// A copy of it.
fn copied(event: &WorldEvent, alloc: Global) -> Result<WorldEvent, NoMemory>
    ensures { IfOk result (λ copy. copy ≡ event.now) }
{
    Ok(match event {
        WorldEvent::Start { initiator } => WorldEvent::Start {
            initiator: *initiator,
        },
        WorldEvent::Deliver {
            initiator,
            bytes,
            first,
        } => WorldEvent::Deliver {
            initiator: *initiator,
            bytes: Octets::of(alloc, bytes.as_slice())?,
            first: *first,
        },
        WorldEvent::Lane {
            lane,
            bytes,
            now,
            draws,
        } => WorldEvent::Lane {
            lane: *lane,
            bytes: Octets::of(alloc, bytes.as_slice())?,
            now: *now,
            draws: *draws,
        },
        WorldEvent::CallBy {
            initiator,
            procedure,
            args,
        } => WorldEvent::CallBy {
            initiator: *initiator,
            procedure: *procedure,
            args: Octets::of(alloc, args.as_slice())?,
        },
    })
}

/// Stages of initiators that weren't started.
fn ready(alloc: Global, initiators: Vec<InitSetup>) -> Result<Vec<Stage>, NoMemory>
    ensures { IfOk result (λ stages. map (λ s. stage_means s meaning) stages.items
        ≡ map objects.Ready (map (λ own. setup_by own meaning) initiators.items)) }
{
    let mut stages = Vec::with_capacity(alloc, initiators.len())?;
    for own in initiators {
        stages.push(Stage::Ready(own))?;
    }
    Ok(stages)
}

/// So many lanes without a record.
fn idle(alloc: Global, count: usize) -> Result<Vec<Option<InHand>>, NoMemory>
    ensures { IfOk result (λ lanes. lanes.items ≡ replicate count None) }
{
    let mut lanes = Vec::with_capacity(alloc, count)?;
    for _ in 0..count {
        lanes.push(None)?;
    }
    Ok(lanes)
}

/// What events change, before the first of them: a book, initiators that weren't started, and so many lanes without a record.
fn parts_of(
    alloc: Global,
    book: OwnSeat,
    initiators: Vec<InitSetup>,
    lanes: usize,
) -> Result<Parts, NoMemory>
    ensures stages { IfOk result (λ parts. map (λ s. stage_means s meaning) parts.stages.items
        ≡ map objects.Ready (map (λ own. setup_by own meaning) initiators.items)) }
    ensures book { IfOk result (λ parts. parts.book ≡ Some book) }
    ensures lanes { IfOk result (λ parts. parts.lanes.items ≡ replicate lanes None) }
{
    match ready(alloc, initiators) {
        Ok(stages) => match idle(alloc, lanes) {
            Ok(lanes) => Ok(Parts {
                stages,
                book: Some(book),
                posts: Posts::new(),
                lanes,
            }),
            Err(refusal) => {
                drop(stages);
                drop(book);
                Err(refusal)
            }
        },
        Err(refusal) => {
            drop(book);
            Err(refusal)
        }
    }
}

impl World {
    ghost use Rattle.world_laws.specs.Events.{IsProper};
    ghost use Rattle.world_laws.specs.Setups.{IsSetup};
    ghost use Rattle.world_runs.specs.Promised.{Promised};
    ghost use Rattle.world_runs.specs.Showing.{Ran, Steps};

    /// A world before its first event. The book has no entry. Each initiator has the objects of Kerberos and SCRAM that are armed with the
    /// credentials of the facts at its place, and the facts' bindings, moment and draws.
    pub fn new(alloc: Global, setup: WorldSetup) -> Result<World, NoMemory>
        requires empty { setup.book.core.history ≡ [] }
        requires objects { map (λ own. setup_by own meaning) setup.initiators.items
            ≡ map objects_of (map setup_of setup.facts.items) }
        requires lists { (i : ℕ) (own : PlainSetup)
            → slice_get (map setup_of setup.facts.items) i ≡ Some own
            → is_own_list own.list ≡ true }
        ensures world { IfOk result (λ world. IsWorld (world_means world meaning)) }
        ensures facts { IfOk result
            (λ world. (shown world meaning).facts ≡ map setup_of setup.facts.items) }
        ensures stages { IfOk result (λ world. (shown world meaning).stages
            ≡ map Ready (map setup_of setup.facts.items)) }
        ensures book { IfOk result (λ world. (shown world meaning).book ≡ Some setup.book) }
        ensures lanes { IfOk result
            (λ world. (shown world meaning).lanes ≡ replicate setup.lanes None) }
        ensures events { IfOk result (λ world. (shown world meaning).events ≡ []) }
    {
        match tell_setups(alloc, setup.facts.as_slice()) {
            Ok(()) => {}
            Err(refusal) => {
                drop(setup);
                return Err(refusal);
            }
        }
        setup.book.setup().verifiers.told_lines();
        let _log = setup.book.log();
        let WorldSetup {
            book,
            initiators,
            facts,
            lanes,
        } = setup;
        match parts_of(alloc, book, initiators, lanes) {
            Ok(parts) => Ok(World {
                facts,
                parts,
                events: Vec::new(alloc),
            }),
            Err(refusal) => {
                drop(facts);
                Err(refusal)
            }
        }
    }

    /// The events so far, the first one first. They made a run, from a world before its first event to one that shows this.
    pub fn events(&self) -> &[WorldEvent]
        requires { IsWorld (world_means self.now meaning) }
        ensures events { result.now ≡ (shown self.now meaning).events }
        ensures ran { ∥ Ran (shown self.now meaning) ∥₁ }
    {
        self.events.as_slice()
    }

    /// Does nothing that stays: what the calls of the first initiator's session are answered.
    pub(crate) fn tell_calls(&self)
        requires { IsWorld (world_means self.now meaning) }
        ensures { RulesCalls (slice_get (shown self.now meaning).stages 0) }
    {
        if let Some(stage) = self.parts.stages.get(0) {
            tell_ruled(stage);
        }
    }

    /// One event. At want of memory nothing happened, or the event counts and its initiator has ended, or its lane has no record any more.
    ///
    /// Of every run that the events so far can have been, agreement and origin hold.
    pub fn step(&mut self, alloc: Global, event: WorldEvent) -> Result<Happened, NoMemory>
        requires proper { IsProper served event }
        requires world { IsWorld (world_means self.old meaning) }
        ensures world { IsWorld (world_means self.new meaning) }
        ensures happened { IfOk result (λ happened. Steps event (Some happened)
            (shown self.old meaning) (shown self.new meaning)) }
        ensures memory { IsErr result → (shown self.new meaning ≡ shown self.old meaning)
            ⊎ Steps event None (shown self.old meaning) (shown self.new meaning) }
        ensures promised { Promised (shown self.new meaning) }
    {
        prove_agreement();
        prove_origin();
        tell_below();
        prove_plain_law();
        prove_plain_creation();
        if self.events.reserve(1).is_err() {
            drop(event);
            return Err(NoMemory);
        }
        let kept = match copied(&event, alloc) {
            Ok(kept) => kept,
            Err(refusal) => {
                drop(event);
                return Err(refusal);
            }
        };
        tell_book(&self.parts.book);
        let happened = happen(alloc, &mut self.parts, event);
        self.events.push_reserved(kept);
        happened
    }
}
