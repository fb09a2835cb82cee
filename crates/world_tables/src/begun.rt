//! What a world of the tables is begun with: an acceptor whose offer a row may say, an initiator whose list it says, and a user by another
//! password.

ghost use Rattle.std.specs.Prelude.{◌≡◌, ◌∷◌, [], true, false, map, replicate, IfOk, IfSome, None};
ghost use Rattle.spnego_core.specs.InitMech.{is_own_list, is_bare_list};
ghost use Rattle.spnego_core.specs.Ends.{setup_of};
ghost use Rattle.init_ends.specs.Arming.{AreStandard};
ghost use Rattle.init_ends.specs.Ends.{setup_means, setup_by};
ghost use Rattle.init_ends.specs.Plain.{objects_of};
ghost use Rattle.world_runs.specs.Worlds.{world_means, IsWorld};

use accept_book::{Keeping, Limits, OwnSeat};
use init_ends::InitSetup;
use mech_objects::Mech;
use sec_base::{Items, Moment, NoMemory, Text};
use spnego_core::{AcceptSetup, MechCred};
use std::alloc::Global;
use table_setting::Setting;
use world_runs::{InitFacts, World, WorldSetup};

/// A copy of a credential.
fn copied(alloc: Global, cred: &MechCred) -> Result<MechCred, NoMemory>
    ensures { IfOk result (λ copy. copy ≡ cred.now) }
{
    match cred {
        MechCred::Kerberos { name, credential } => match credential.copied(alloc) {
            Ok(copy) => Ok(MechCred::Kerberos {
                name: *name,
                credential: copy,
            }),
            Err(no_memory) => Err(no_memory),
        },
        MechCred::Scram { user, password } => login(alloc, user.as_str(), password.as_str()),
    }
}

/// Copies of credentials, in their order.
fn copies(alloc: Global, list: &[MechCred]) -> Result<Items<MechCred>, NoMemory>
    ensures { IfOk result (λ copies. copies ≡ list.now) }
{
    let mut copies = Vec::new(alloc);
    for cred in list {
        let copy = copied(alloc, cred)?;
        copies.push(copy)?;
    }
    Ok(Items::of(copies))
}

/// A list of one.
fn one(alloc: Global, only: MechCred) -> Result<Items<MechCred>, NoMemory>
    ensures { IfOk result (λ list. list ≡ only ∷ []) }
{
    match Vec::with_capacity(alloc, 1) {
        Ok(mut list) => {
            list.push_reserved(only);
            Ok(Items::of(list))
        }
        Err(_) => Err(NoMemory),
    }
}

/// A user and its password.
fn login(alloc: Global, user: &str, password: &str) -> Result<MechCred, NoMemory>
    ensures { IfOk result (λ cred. cred ≡ MechCred.Scram user.now password.now) }
{
    match (Text::of(alloc, user), Text::of(alloc, password)) {
        (Ok(user), Ok(password)) => Ok(MechCred::Scram { user, password }),
        _ => Err(NoMemory),
    }
}

/// What an initiator is begun with, and what its objects are armed with, as the world remembers it.
#[derive(Drop)]
pub struct Begun {
    pub own: InitSetup,
    pub facts: InitFacts,
}

/// The mechanisms of an initiator, and whether it negotiates one of them.
#[derive(Drop)]
pub struct Wishes {
    pub list: Items<MechCred>,
    pub negotiates: bool,
}

/// What an initiator with these mechanisms has at this moment, whose random octets are all this one.
fn facts_of(wishes: Wishes, stamp: Moment, draw: u8) -> InitFacts
    ensures { result ≡ record {
      list = wishes.list;
      bindings = None;
      stamp = stamp;
      draws = replicate 66 draw;
      negotiates = wishes.negotiates;
    } }
{
    InitFacts {
        list: wishes.list,
        bindings: None,
        stamp,
        draws: [draw; 66],
        negotiates: wishes.negotiates,
    }
}

/// An initiator with these mechanisms at this moment, whose random octets are all this one. `mechs` has one blank object of Kerberos and one of SCRAM.
pub fn begin(
    alloc: Global,
    mechs: Vec<Box<dyn Mech>>,
    wishes: Wishes,
    stamp: Moment,
    draw: u8,
) -> Result<Begun, NoMemory>
    requires blank { AreStandard (map meaning mechs.items) }
    requires list { is_own_list wishes.list ≡ true }
    requires bare { wishes.negotiates ≡ false → is_bare_list wishes.list ≡ true }
    ensures same { IfOk result
        (λ begun. setup_means meaning begun.own ≡ objects_of (setup_of begun.facts)) }
    ensures own { IfOk result (λ begun. is_own_list begun.facts.list ≡ true) }
{
    let list = copies(alloc, wishes.list.as_slice())?;
    let copy = Wishes {
        list,
        negotiates: wishes.negotiates,
    };
    let own = InitSetup::armed(alloc, mechs, facts_of(wishes, stamp, draw))?;
    let facts = facts_of(copy, stamp, draw);
    Ok(Begun { own, facts })
}

/// A book without contexts, of this acceptor.
pub fn book(alloc: Global, setup: AcceptSetup, start: Moment) -> Result<OwnSeat, NoMemory>
    ensures { IfOk result (λ book. book.core.history ≡ []) }
{
    let limits = Limits {
        contexts: 4,
        marks: 4,
        log: 16,
        width: 4,
        keeping: Keeping {
            entries: true,
            digest: false,
        },
    };
    OwnSeat::open(alloc, setup, limits, start)
}

/// What initiators in a row are begun with, and what their objects are armed with.
#[derive(Drop)]
struct Row {
    own: Vec<InitSetup>,
    facts: Vec<InitFacts>,
}

/// A list of two.
fn two<T: Drop>(alloc: Global, first: T, second: T) -> Result<Vec<T>, NoMemory>
    ensures { IfOk result (λ list. list.items ≡ first ∷ second ∷ []) }
{
    match Vec::with_capacity(alloc, 2) {
        Ok(mut list) => {
            list.push_reserved(first);
            list.push_reserved(second);
            Ok(list)
        }
        Err(_) => Err(NoMemory),
    }
}

/// Two initiators in a row.
fn both(alloc: Global, first: Begun, second: Begun) -> Result<Row, NoMemory>
    ensures own { IfOk result (λ row. row.own.items ≡ first.own ∷ second.own ∷ []) }
    ensures facts { IfOk result (λ row. row.facts.items ≡ first.facts ∷ second.facts ∷ []) }
{
    match (
        two(alloc, first.own, second.own),
        two(alloc, first.facts, second.facts),
    ) {
        (Ok(own), Ok(facts)) => Ok(Row { own, facts }),
        _ => Err(NoMemory),
    }
}

/// A world of this book, these initiators and two lanes.
fn world_of(alloc: Global, book: OwnSeat, first: Begun, second: Begun) -> Result<World, NoMemory>
    requires empty { book.core.history ≡ [] }
    requires first_same { setup_by first.own meaning ≡ objects_of (setup_of first.facts) }
    requires first_own { is_own_list first.facts.list ≡ true }
    requires second_same { setup_by second.own meaning ≡ objects_of (setup_of second.facts) }
    requires second_own { is_own_list second.facts.list ≡ true }
    ensures { IfOk result (λ world. IsWorld (world_means world meaning)) }
{
    match both(alloc, first, second) {
        Ok(row) => {
            let setup = WorldSetup {
                book,
                initiators: row.own,
                facts: row.facts,
                lanes: 2,
            };
            World::new(alloc, setup)
        }
        Err(no_memory) => Err(no_memory),
    }
}

/// A list of one.
fn alone<T: Drop>(alloc: Global, only: T) -> Result<Vec<T>, NoMemory>
    ensures { IfOk result (λ list. list.items ≡ only ∷ []) }
{
    match Vec::with_capacity(alloc, 1) {
        Ok(mut list) => {
            list.push_reserved(only);
            Ok(list)
        }
        Err(_) => Err(NoMemory),
    }
}

/// One initiator.
fn single(alloc: Global, begun: Begun) -> Result<Row, NoMemory>
    ensures own { IfOk result (λ row. row.own.items ≡ begun.own ∷ []) }
    ensures facts { IfOk result (λ row. row.facts.items ≡ begun.facts ∷ []) }
{
    match (alone(alloc, begun.own), alone(alloc, begun.facts)) {
        (Ok(own), Ok(facts)) => Ok(Row { own, facts }),
        _ => Err(NoMemory),
    }
}

/// A world of this book, this initiator and one lane.
pub fn world_alone(alloc: Global, book: OwnSeat, begun: Begun) -> Result<World, NoMemory>
    requires empty { book.core.history ≡ [] }
    requires same { setup_by begun.own meaning ≡ objects_of (setup_of begun.facts) }
    requires own { is_own_list begun.facts.list ≡ true }
    ensures { IfOk result (λ world. IsWorld (world_means world meaning)) }
{
    match single(alloc, begun) {
        Ok(row) => {
            let setup = WorldSetup {
                book,
                initiators: row.own,
                facts: row.facts,
                lanes: 1,
            };
            World::new(alloc, setup)
        }
        Err(no_memory) => Err(no_memory),
    }
}

/// The initiator of another user, by another password. `mechs` has one blank object of Kerberos and one of SCRAM.
fn other(alloc: Global, mechs: Vec<Box<dyn Mech>>, start: Moment) -> Result<Begun, NoMemory>
    requires { AreStandard (map meaning mechs.items) }
    ensures same { IfOk result
        (λ begun. setup_means meaning begun.own ≡ objects_of (setup_of begun.facts)) }
    ensures own { IfOk result (λ begun. is_own_list begun.facts.list ≡ true) }
{
    let login = login(alloc, "other", "q")?;
    let wishes = Wishes {
        list: one(alloc, login)?,
        negotiates: true,
    };
    begin(alloc, mechs, wishes, start, 9)
}

/// An initiator with these mechanisms, and that of another user. Each of both lists of objects has one blank one of Kerberos and one of SCRAM.
pub fn begin_both(
    alloc: Global,
    mechs: (Vec<Box<dyn Mech>>, Vec<Box<dyn Mech>>),
    wishes: Wishes,
    start: Moment,
) -> Option<(Begun, Begun)>
    requires first { AreStandard (map meaning mechs.0.items) }
    requires second { AreStandard (map meaning mechs.1.items) }
    requires list { is_own_list wishes.list ≡ true }
    requires bare { wishes.negotiates ≡ false → is_bare_list wishes.list ≡ true }
    ensures first_same { IfSome result
        (λ both. setup_means meaning both.0.own ≡ objects_of (setup_of both.0.facts)) }
    ensures first_own { IfSome result (λ both. is_own_list both.0.facts.list ≡ true) }
    ensures second_same { IfSome result
        (λ both. setup_means meaning both.1.own ≡ objects_of (setup_of both.1.facts)) }
    ensures second_own { IfSome result (λ both. is_own_list both.1.facts.list ≡ true) }
{
    match (
        begin(alloc, mechs.0, wishes, start, 7),
        other(alloc, mechs.1, start),
    ) {
        (Ok(first), Ok(second)) => Some((first, second)),
        _ => None,
    }
}

/// A world of this acceptor and both initiators.
pub fn begun_by(
    alloc: Global,
    setup: AcceptSetup,
    first: Begun,
    second: Begun,
    start: Moment,
) -> Result<World, NoMemory>
    requires first_same { setup_by first.own meaning ≡ objects_of (setup_of first.facts) }
    requires first_own { is_own_list first.facts.list ≡ true }
    requires second_same { setup_by second.own meaning ≡ objects_of (setup_of second.facts) }
    requires second_own { is_own_list second.facts.list ≡ true }
    ensures { IfOk result (λ world. IsWorld (world_means world meaning)) }
{
    match book(alloc, setup, start) {
        Ok(book) => world_of(alloc, book, first, second),
        Err(no_memory) => Err(no_memory),
    }
}

/// The mechanisms of the setting's initiator with these letters.
pub fn wishes_of(alloc: Global, setting: &Setting, letters: &str) -> Option<Wishes>
    ensures list { IfSome result (λ wishes. is_own_list wishes.list ≡ true) }
    ensures bare { IfSome result
        (λ wishes. wishes.negotiates ≡ false → is_bare_list wishes.list ≡ true) }
{
    match setting.initiator(alloc, letters) {
        Some(own) => Some(Wishes {
            list: own.list,
            negotiates: own.negotiates,
        }),
        None => None,
    }
}

/// What a world is begun with beside its objects: the mechanisms of initiator 0, an acceptor, and the moment.
#[derive(Drop)]
pub struct Given {
    pub wishes: Wishes,
    pub setup: AcceptSetup,
    pub start: Moment,
}

/// The same at 1,000,000 seconds, by the letters of the list, and those of the acceptor's offer after a `/`; without them it offers both mechanisms.
pub fn given_by(alloc: Global, setting: &Setting, letters: &str) -> Option<Given>
    ensures list { IfSome result (λ given. is_own_list given.wishes.list ≡ true) }
    ensures bare { IfSome result
        (λ given. given.wishes.negotiates ≡ false → is_bare_list given.wishes.list ≡ true) }
{
    let start = Moment::new(1_000_000, 0)?;
    let (listed, offer) = letters.split_once('/').unwrap_or((letters, "ks"));
    let wishes = wishes_of(alloc, setting, listed);
    let (wishes, setup) = wishes.zip(setting.acceptor(alloc, offer))?;
    Some(Given {
        wishes,
        setup,
        start,
    })
}
