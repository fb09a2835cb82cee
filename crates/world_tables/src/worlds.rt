//! What happens in a world, one event after the other.

ghost use Rattle.std.specs.Prelude.{◌≡◌, ◌≤◌, true, false, length, map};
ghost use Rattle.spnego_core.specs.InitMech.{is_own_list, is_bare_list};
ghost use Rattle.spnego_core.specs.Ends.{setup_of};
ghost use Rattle.init_ends.specs.Arming.{AreStandard};
ghost use Rattle.init_ends.specs.Ends.{setup_by};
ghost use Rattle.init_ends.specs.Plain.{objects_of};
ghost use Rattle.posts_program.specs.Posts.{are_args};
ghost use Rattle.world_laws.specs.Events.{IsProper};
ghost use Rattle.world_runs.specs.Served.{served};
ghost use Rattle.world_runs.specs.Worlds.{world_means, IsWorld};
ghost use Rattle.mech_objects.specs.Made.{AreMade};

use crate::begun::{Begun, Given, begin_both, begun_by, given_by};
use init_ends::standard_mechs;
use mech_objects::{MadeMechs, Mech, make_mechs};
use rpc_msgs::{Reply, read_reply};
use sec_base::{Moment, Octets};
use spnego_core::AcceptSetup;
use std::alloc::Global;
use table_rows::{Cells, Said};
use table_setting::{Setting, octets_by_name, octets_in, saying};
use world_laws::{Happened, WorldEvent};
use world_runs::World;

/// A world, how many events it had, the moment of each of them, and the records that were handed out.
#[derive(Drop)]
struct Run {
    world: World,
    steps: u8,
    now: Moment,
    records: Vec<Octets>,
}

/// The next part's place in a list.
fn place(asked: &mut Cells<'_>) -> usize {
    match asked.word().parse::<usize>() {
        Ok(place) => place,
        Err(_) => {
            asked.expect(false);
            0
        }
    }
}

/// Makes the octet at the ninth place from a record's end another, and answers whether there is one.
fn is_changed(bytes: &mut Vec<u8>) -> bool {
    if bytes.len() < 9 {
        return false;
    }
    let place = bytes.len() - 9;
    bytes[place] ^= 1;
    true
}

/// Says the status of the reply to a call which was accepted.
fn say_stat(said: &mut Said, record: &[u8]) {
    match read_reply(record) {
        Ok(Reply::Accepted { stat, .. }) => said.number(stat as u64),
        _ => said.word("none"),
    }
}

/// Says the first octets of a record.
fn say_front(asked: &mut Cells<'_>, said: &mut Said, record: &[u8]) {
    match record.get(..place(asked)) {
        Some(front) => said.octets(front),
        None => asked.expect(false),
    }
}

impl Run {
    /// The record of this number, by the order in which records were handed out.
    fn record(&self, number: &str) -> Option<&Octets> {
        self.records.get(number.parse::<usize>().ok()?)
    }

    /// Copies the record of this number, and answers whether it could.
    fn is_copied(&self, number: &str, bytes: &mut Vec<u8>) -> bool {
        match self.record(number) {
            Some(record) => bytes.extend_from_slice(record.as_slice()).is_ok(),
            None => false,
        }
    }

    /// The octets of the record `number`, or with another octet of `number~`.
    fn handed(&self, asked: &mut Cells<'_>, said: &str) -> Octets {
        let mut bytes = Vec::new(asked.alloc());
        let is_there = self.is_copied(said.strip_suffix('~').unwrap_or(said), &mut bytes);
        asked.expect(is_there);
        if said.ends_with('~') {
            let is_changed = is_changed(&mut bytes);
            asked.expect(is_changed);
        }
        Octets::from_vec(bytes)
    }

    /// The octets of the next part as the network carries them: a record that was handed out, `#number`, the same with another octet,
    /// `#number~`, or the network's own.
    fn carried(&self, asked: &mut Cells<'_>, names: &str) -> Octets {
        let part = asked.word();
        match part.strip_prefix('#') {
            Some(said) => self.handed(asked, said),
            None => Octets::from_vec(octets_in(asked, part, names)),
        }
    }

    /// Says what came of an event; a record that was handed out is kept.
    fn keep(&mut self, said: &mut Said, happened: Happened)
        ensures { self.new.world ≡ self.old.world }
    {
        match happened {
            Happened::Sent(record) => match self.records.push(record) {
                Ok(()) => said.word("Sent"),
                Err(_no_memory) => said.starve(),
            },
            Happened::Completed(outcome) => {
                said.word("Completed");
                said.join(":");
                saying::outcome(said, &outcome);
            }
            Happened::Stepped(rule) => {
                said.word("Stepped");
                said.join(":");
                said.number(rule as u64);
            }
            Happened::Refused => said.word("Refused"),
            Happened::Nothing => said.word("Nothing"),
        }
    }

    /// An event, and what came of it.
    fn step(&mut self, alloc: Global, said: &mut Said, event: WorldEvent)
        requires proper { IsProper served event }
        requires world { IsWorld (world_means self.old.world meaning) }
        ensures { IsWorld (world_means self.new.world meaning) }
    {
        self.steps = self.steps.saturating_add(1);
        match self.world.step(alloc, event) {
            Ok(happened) => self.keep(said, happened),
            Err(_no_memory) => said.starve(),
        }
    }

    /// A call of an initiator.
    fn call(
        &mut self,
        alloc: Global,
        said: &mut Said,
        initiator: usize,
        procedure: u32,
        args: &[u8],
    )
        requires own { are_args procedure args.now ≡ true }
        requires fits { length args.now ≤ 65540 }
        requires world { IsWorld (world_means self.old.world meaning) }
        ensures { IsWorld (world_means self.new.world meaning) }
    {
        match Octets::of(alloc, args) {
            Ok(args) => {
                let event = WorldEvent::CallBy {
                    initiator,
                    procedure,
                    args,
                };
                self.step(alloc, said, event);
            }
            Err(_no_memory) => said.starve(),
        }
    }

    /// A call of ECHO with `hi`.
    fn echo(&mut self, alloc: Global, said: &mut Said, initiator: usize)
        requires { IsWorld (world_means self.old.world meaning) }
        ensures { IsWorld (world_means self.new.world meaning) }
    {
        self.call(alloc, said, initiator, 1, b"\x00\x00\x00\x02hi\x00\x00");
    }

    /// A call of POST with `a`.
    fn post(&mut self, alloc: Global, said: &mut Said, initiator: usize)
        requires { IsWorld (world_means self.old.world meaning) }
        ensures { IsWorld (world_means self.new.world meaning) }
    {
        self.call(alloc, said, initiator, 3, b"\x00\x00\x00\x01a\x00\x00\x00");
    }

    /// A call of an initiator, by its procedure's name.
    fn named_call(&mut self, asked: &mut Cells<'_>, said: &mut Said, name: &str)
        requires { IsWorld (world_means self.old.world meaning) }
        ensures { IsWorld (world_means self.new.world meaning) }
    {
        let (alloc, initiator) = (asked.alloc(), place(asked));
        match name {
            "null" => self.call(alloc, said, initiator, 0, &[]),
            "echo" => self.echo(alloc, said, initiator),
            "whoami" => self.call(alloc, said, initiator, 2, &[]),
            "post" => self.post(alloc, said, initiator),
            _ => asked.expect(false),
        }
    }

    /// Octets that come to an initiator, `initiator:octets`.
    fn deliver(&mut self, asked: &mut Cells<'_>, said: &mut Said, names: &str)
        requires { IsWorld (world_means self.old.world meaning) }
        ensures { IsWorld (world_means self.new.world meaning) }
    {
        let initiator = place(asked);
        let bytes = self.carried(asked, names);
        self.step(
            asked.alloc(),
            said,
            WorldEvent::Deliver {
                initiator,
                bytes,
                first: 1,
            },
        );
    }

    /// Octets that come to a lane, `lane:octets`; its random octets are all the number of the event.
    fn lane(&mut self, asked: &mut Cells<'_>, said: &mut Said, names: &str)
        requires { IsWorld (world_means self.old.world meaning) }
        ensures { IsWorld (world_means self.new.world meaning) }
    {
        let lane = place(asked);
        let event = WorldEvent::Lane {
            lane,
            bytes: self.carried(asked, names),
            now: self.now,
            draws: [self.steps.saturating_add(1); 82],
        };
        self.step(asked.alloc(), said, event);
    }

    /// An initiator starts.
    fn start(&mut self, asked: &mut Cells<'_>, said: &mut Said)
        requires { IsWorld (world_means self.old.world meaning) }
        ensures { IsWorld (world_means self.new.world meaning) }
    {
        let initiator = place(asked);
        self.step(asked.alloc(), said, WorldEvent::Start { initiator });
    }

    /// The octets of a record, or the first of them, `record:count`.
    fn octets(&self, asked: &mut Cells<'_>, said: &mut Said) {
        match (self.record(asked.word()), asked.rest()) {
            (Some(record), None) => said.octets(record.as_slice()),
            (Some(record), Some(_)) => say_front(asked, said, record.as_slice()),
            (None, _) => asked.expect(false),
        }
    }

    /// The status of a record that is the reply to a call which was accepted.
    fn stat(&self, asked: &mut Cells<'_>, said: &mut Said) {
        match self.record(asked.word()) {
            Some(record) => say_stat(said, record.as_slice()),
            None => asked.expect(false),
        }
    }

    /// How many events the world has, and how many were made.
    fn events(&self, said: &mut Said)
        requires { IsWorld (world_means self.now.world meaning) }
    {
        said.number(self.world.events().len() as u64);
        said.join(":");
        said.number(self.steps as u64);
    }

    /// What comes of a step, which is an event or a look at what there is.
    fn go(&mut self, asked: &mut Cells<'_>, said: &mut Said, names: &str)
        requires { IsWorld (world_means self.old.world meaning) }
        ensures { IsWorld (world_means self.new.world meaning) }
    {
        match asked.word() {
            "events" => self.events(said),
            "start" => self.start(asked, said),
            "deliver" => self.deliver(asked, said, names),
            "lane" => self.lane(asked, said, names),
            "octets" => self.octets(asked, said),
            "stat" => self.stat(asked, said),
            name => self.named_call(asked, said, name),
        }
    }

    /// Says `step=answer` for a step that stands before its answer.
    fn answer(&mut self, cells: &mut Cells<'_>, said: &mut Said, names: &str, part: &str)
        requires { IsWorld (world_means self.old.world meaning) }
        ensures { IsWorld (world_means self.new.world meaning) }
    {
        let mut halves = Cells::new(cells.alloc(), part, '=');
        let step = halves.word();
        said.word(step);
        said.join("=");
        let mut asked = Cells::new(cells.alloc(), step, ':');
        self.go(&mut asked, said, names);
        cells.expect(halves.rest().is_some() && asked.are_well());
    }
}

/// A world that had no event yet, whose network has this record of its own.
fn run_of(alloc: Global, said: &mut Said, world: World, own: Octets) -> Run
    requires { IsWorld (world_means world meaning) }
    ensures { IsWorld (world_means result.world meaning) }
{
    let mut records = Vec::new(alloc);
    if records.push(own).is_err() {
        said.starve();
    }
    Run {
        world,
        steps: 0,
        now: Moment::new(1_000_000, 0).unwrap_or(Moment::start()),
        records,
    }
}

/// Says `step=answer` for each step that is left of a row, in this world whose network has this record of its own.
fn go_through(cells: &mut Cells<'_>, said: &mut Said, names: &str, world: World, own: Octets)
    requires { IsWorld (world_means world meaning) }
{
    let mut run = run_of(cells.alloc(), said, world, own);
    for part in cells.rest().unwrap_or("").split(' ') {
        run.answer(cells, said, names, part);
    }
    drop(run);
}

/// The same in a world of this acceptor and both initiators.
fn go_between(
    names: &str,
    cells: &mut Cells<'_>,
    said: &mut Said,
    both: (Begun, Begun),
    host: (AcceptSetup, Moment),
    own: Octets,
)
    requires first_same { setup_by both.0.own meaning ≡ objects_of (setup_of both.0.facts) }
    requires first_own { is_own_list both.0.facts.list ≡ true }
    requires second_same { setup_by both.1.own meaning ≡ objects_of (setup_of both.1.facts) }
    requires second_own { is_own_list both.1.facts.list ≡ true }
{
    match begun_by(cells.alloc(), host.0, both.0, both.1, host.1) {
        Ok(world) => go_through(cells, said, names, world, own),
        Err(_) => {
            drop(own);
            said.starve();
        }
    }
}

/// The same by these objects: of an initiator with this list, and of the user by another password.
fn go_over(
    names: &str,
    cells: &mut Cells<'_>,
    said: &mut Said,
    mechs: (Vec<Box<dyn Mech>>, Vec<Box<dyn Mech>>),
    given: (Given, Octets),
)
    requires first { AreStandard (map meaning mechs.0.items) }
    requires second { AreStandard (map meaning mechs.1.items) }
    requires list { is_own_list given.0.wishes.list ≡ true }
    requires bare { given.0.wishes.negotiates ≡ false
        → is_bare_list given.0.wishes.list ≡ true }
{
    let (
        Given {
            wishes,
            setup,
            start,
        },
        own,
    ) = given;
    match begin_both(cells.alloc(), mechs, wishes, start) {
        Some(both) => go_between(names, cells, said, both, (setup, start), own),
        None => {
            drop((setup, own));
            said.starve();
        }
    }
}

/// The same where each initiator has an object of Kerberos under both its names, and of SCRAM.
fn go_by_all(
    names: &str,
    cells: &mut Cells<'_>,
    said: &mut Said,
    made: (MadeMechs, MadeMechs),
    given: (Given, Octets),
)
    requires first { AreMade made.0 }
    requires second { AreMade made.1 }
    requires list { is_own_list given.0.wishes.list ≡ true }
    requires bare { given.0.wishes.negotiates ≡ false
        → is_bare_list given.0.wishes.list ≡ true }
{
    let alloc = cells.alloc();
    let (one, two) = made;
    let first = standard_mechs(alloc, one.kerberos, one.microsoft, one.scram).ok();
    let second = standard_mechs(alloc, two.kerberos, two.microsoft, two.scram).ok();
    match first.zip(second).zip(Some(given)) {
        Some((mechs, given)) => go_over(names, cells, said, mechs, given),
        None => said.starve(),
    }
}

/// The same with the objects made.
fn go_with(names: &str, cells: &mut Cells<'_>, said: &mut Said, given: (Given, Octets))
    requires list { is_own_list given.0.wishes.list ≡ true }
    requires bare { given.0.wishes.negotiates ≡ false
        → is_bare_list given.0.wishes.list ≡ true }
{
    let alloc = cells.alloc();
    match make_mechs(alloc).zip(make_mechs(alloc)).zip(Some(given)) {
        Some((made, given)) => go_by_all(names, cells, said, made, given),
        None => said.starve(),
    }
}

/// Says `step=answer` for each step of a row, which begins with the letters of initiator 0's list, maybe with those of the offer, and a record of the network's own.
pub fn answer(setting: &Setting, names: &str, cells: &mut Cells<'_>, said: &mut Said) {
    let letters = cells.word();
    let own = Octets::from_vec(octets_by_name(cells, names));
    match given_by(cells.alloc(), setting, letters).zip(Some(own)) {
        Some(given) => go_with(names, cells, said, given),
        None => cells.expect(false),
    }
}
