//! Exchanges of one initiator that are carried as they are.

ghost use Rattle.std.specs.Prelude.{◌≡◌, [], true, false, map};
ghost use Rattle.spnego_core.specs.InitMech.{is_own_list, is_bare_list};
ghost use Rattle.spnego_core.specs.Ends.{setup_of};
ghost use Rattle.init_ends.specs.Arming.{AreStandard};
ghost use Rattle.init_ends.specs.Ends.{setup_by};
ghost use Rattle.init_ends.specs.Plain.{objects_of};
ghost use Rattle.world_runs.specs.Worlds.{world_means, IsWorld};
ghost use Rattle.mech_objects.specs.Made.{AreMade};

use crate::begun::{Begun, Wishes, begin, book, wishes_of, world_alone};
use accept_book::OwnSeat;
use init_ends::standard_mechs;
use mech_objects::{MadeMechs, Mech, make_mechs};
use sec_base::{Moment, NoMemory, Octets};
use spnego_core::AcceptSetup;
use std::alloc::Global;
use table_rows::{Cells, Said};
use table_setting::Setting;
use world_runs::{World, call_once, meet};

/// How far an exchange came.
#[derive(Clone, Copy)]
struct Carried {
    /// Both ends completed.
    met: bool,
    /// A call of NULL after it was answered.
    called: bool,
}

/// The draws of so many records of an initiator.
fn draws_of(alloc: Global, count: u64) -> Result<Vec<[u8; 82]>, NoMemory> {
    let mut draws = Vec::new(alloc);
    for _ in 0..count {
        draws.push([3; 82])?;
    }
    Ok(draws)
}

/// How far as many records of the world's initiator, the replies of its book, and a call come.
fn carry_over(
    alloc: Global,
    world: &mut World,
    count: u64,
    now: Moment,
) -> Result<Carried, NoMemory>
    requires { IsWorld (world_means world.old meaning) }
{
    let draws = draws_of(alloc, count)?;
    let met = meet(alloc, world, now, draws.as_slice())?;
    let none = Octets::from_vec(Vec::new(alloc));
    let called = call_once(alloc, world, 0, none, now, [4; 82])?;
    Ok(Carried { met, called })
}

/// The same of this initiator and this book.
fn carry(
    alloc: Global,
    book: OwnSeat,
    begun: Begun,
    count: u64,
    now: Moment,
) -> Result<Carried, NoMemory>
    requires empty { book.core.history ≡ [] }
    requires same { setup_by begun.own meaning ≡ objects_of (setup_of begun.facts) }
    requires own { is_own_list begun.facts.list ≡ true }
{
    match world_alone(alloc, book, begun) {
        Ok(mut world) => {
            let carried = carry_over(alloc, &mut world, count, now);
            drop(world);
            carried
        }
        Err(no_memory) => Err(no_memory),
    }
}

/// The same of this initiator and this acceptor.
fn carry_by(
    alloc: Global,
    setup: AcceptSetup,
    begun: Begun,
    count: u64,
    now: Moment,
) -> Result<Carried, NoMemory>
    requires same { setup_by begun.own meaning ≡ objects_of (setup_of begun.facts) }
    requires own { is_own_list begun.facts.list ≡ true }
{
    match book(alloc, setup, now) {
        Ok(book) => carry(alloc, book, begun, count, now),
        Err(no_memory) => {
            drop(begun);
            Err(no_memory)
        }
    }
}

/// The same of an initiator over these objects and of this acceptor, which begin at 1,000,000 seconds. `given` has the initiator's list.
fn carry_between(
    alloc: Global,
    mechs: Vec<Box<dyn Mech>>,
    given: (Wishes, AcceptSetup),
    count: u64,
) -> Option<Carried>
    requires blank { AreStandard (map meaning mechs.items) }
    requires list { is_own_list given.0.list ≡ true }
    requires bare { given.0.negotiates ≡ false → is_bare_list given.0.list ≡ true }
{
    let now = Moment::new(1_000_000, 0).unwrap_or(Moment::start());
    let (wishes, setup) = given;
    match begin(alloc, mechs, wishes, now, 7) {
        Ok(begun) => carry_by(alloc, setup, begun, count, now).ok(),
        Err(_) => {
            drop(setup);
            None
        }
    }
}

/// The same where the initiator has an object of Kerberos under both its names, and of SCRAM.
fn carry_by_all(
    alloc: Global,
    made: MadeMechs,
    given: (Wishes, AcceptSetup),
    count: u64,
) -> Option<Carried>
    requires made { AreMade made }
    requires list { is_own_list given.0.list ≡ true }
    requires bare { given.0.negotiates ≡ false → is_bare_list given.0.list ≡ true }
{
    let MadeMechs {
        kerberos,
        microsoft,
        scram,
    } = made;
    let mechs = standard_mechs(alloc, kerberos, microsoft, scram).ok();
    let (mechs, given) = mechs.zip(Some(given))?;
    carry_between(alloc, mechs, given, count)
}

/// The same by the letters of the initiator's list and of the acceptor's offer.
fn carry_with(
    alloc: Global,
    setting: &Setting,
    letters: &str,
    offer: &str,
    count: u64,
) -> Option<Carried> {
    let wishes = wishes_of(alloc, setting, letters);
    let given = wishes.zip(setting.acceptor(alloc, offer));
    let (made, given) = make_mechs(alloc).zip(given)?;
    carry_by_all(alloc, made, given, count)
}

/// Says whether both ends completed after so many records and their replies, and whether a call after that was answered, of a row with the letters of
/// the initiator's list, those of the acceptor's offer, and the number of records.
pub fn answer(setting: &Setting, cells: &mut Cells<'_>, said: &mut Said) {
    let letters = cells.word();
    let offer = cells.word();
    let count = cells.number();
    match carry_with(cells.alloc(), setting, letters, offer, count) {
        Some(carried) => {
            said.yes(carried.met);
            said.yes(carried.called);
        }
        None => cells.expect(false),
    }
}
