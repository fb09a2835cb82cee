//! A client's session by a user's password, and a connection to hold it over.

ghost use Rattle.std.specs.Prelude.{◌≡◌, ◌≤◌, [], ◌∷◌, IfSome, IsTrue, None, false, map, true};
ghost use Rattle.sec_base.specs.Answers.{Rose};
ghost use Rattle.spnego_core.specs.Ends.{setup_of};
ghost use Rattle.spnego_core.specs.InitMech.{is_own_list, is_bare_list};
ghost use Rattle.init_ends.specs.Arming.{AreStandard};
ghost use Rattle.gss_client.specs.Conferring.{calls_of};
ghost use Rattle.gss_client.specs.Holding.{TalkedOf};
ghost use Rattle.stream_buffers.specs.Buffered.{link_below, read_ahead, written_behind};
ghost use Rattle.system_devices.specs.Devices.{dialed_address};
ghost use Rattle.service_kit.specs.Calling.{IsDrawn, TalkedByPassword};
ghost use Rattle.service_kit.specs.Calling.{password_facts, password_start, start_from};

use gss_client::{ClientRefusal, DueCall, Parting, Query, Start, Talk, Terms, hold_calls};
use init_ends::{InitSetup, standard_mechs};
use mech_objects::{MadeMechs, Mech, make_mechs};
use sec_base::{Draw, Items, Link, Moment, Text};
use spnego_core::{InitFacts, MechCred};
use std::alloc::Global;
use stream_buffers::Buffered;
use system_devices::DialedLink;

/// The number of a session's first call (RFC 2203 section 5.3.1).
const FIRST: u32 = 1;

/// A user's name and password, as a credential of SCRAM (RFC 5802).
fn login(alloc: Global, user: &str, password: &str) -> Option<MechCred>
    ensures { IfSome result (λ cred. cred ≡ MechCred.Scram user.now password.now) }
{
    let user = Text::of(alloc, user).ok()?;
    let password = Text::of(alloc, password).ok()?;
    Some(MechCred::Scram { user, password })
}

/// What an initiator by this password is begun with.
fn password_facts(alloc: Global, user: &str, password: &str, draws: [u8; 66]) -> Option<InitFacts>
    ensures value { IfSome result (λ facts. facts ≡ password_facts user.now password.now draws) }
    ensures list { IfSome result (λ facts. is_own_list facts.list ≡ true) }
{
    let mut list = Vec::with_capacity(alloc, 1).ok()?;
    list.push_reserved(login(alloc, user, password)?);
    Some(InitFacts {
        list: Items::of(list),
        bindings: None,
        stamp: Moment::start(),
        draws,
        negotiates: true,
    })
}

/// Holds a session by these facts, for which `mechs` has blank objects.
fn hold_by<L: Link, D: Draw, Q: Query>(
    alloc: Global,
    link: &mut L,
    draw: &mut D,
    mechs: Vec<Box<dyn Mech>>,
    facts: InitFacts,
    terms: Terms,
    due: &[DueCall<Q>],
) -> Option<Talk>
    requires unclosed { L.closed link.old ≡ false }
    requires blank { AreStandard (map meaning mechs.items) }
    requires list { is_own_list facts.list ≡ true }
    requires bare { facts.negotiates ≡ false → is_bare_list facts.list ≡ true }
    ensures told { IsTrue (L.tells link.old) → IfSome result (λ talk. TalkedOf (D.tells draw.new)
        (D.given draw.old) (D.given draw.new) (start_from (setup_of facts) terms)
        (calls_of Q.says due.now) (L.wire link.old) (L.wire link.new) talk.outcome
        talk.results.items talk.parting) }
    ensures fault { IfSome result (λ talk. talk.parting ≡ Parting.Refused ClientRefusal.LinkFault
        → Rose (L.faults link.old) (L.faults link.new)) }
    ensures wanting { result ≡ None → (link.new ≡ link.old) × (draw.new ≡ draw.old) }
    ensures tells { L.tells link.new ≡ L.tells link.old }
    ensures unclosed { L.closed link.new ≡ false }
    ensures faults { L.faults link.old ≤ L.faults link.new }
    ensures drawing { IsTrue (D.tells draw.new) → IsTrue (D.tells draw.old) }
{
    let Ok(setup) = InitSetup::armed(alloc, mechs, facts) else {
        return None;
    };
    let start = Start {
        setup,
        terms,
        first: FIRST,
    };
    Some(hold_calls(alloc, link, draw, start, due))
}

/// Holds a session by this password with these random octets.
fn hold_with<L: Link, D: Draw, Q: Query>(
    alloc: Global,
    link: &mut L,
    draw: &mut D,
    user: &str,
    password: &str,
    draws: [u8; 66],
    terms: Terms,
    due: &[DueCall<Q>],
) -> Option<Talk>
    requires unclosed { L.closed link.old ≡ false }
    ensures told { IsTrue (L.tells link.old) → IfSome result (λ talk. TalkedOf (D.tells draw.new)
        (D.given draw.old) (D.given draw.new) (password_start user.now password.now draws terms)
        (calls_of Q.says due.now) (L.wire link.old) (L.wire link.new) talk.outcome
        talk.results.items talk.parting) }
    ensures fault { IfSome result (λ talk. talk.parting ≡ Parting.Refused ClientRefusal.LinkFault
        → Rose (L.faults link.old) (L.faults link.new)) }
    ensures wanting { result ≡ None → (link.new ≡ link.old) × (draw.new ≡ draw.old) }
    ensures tells { L.tells link.new ≡ L.tells link.old }
    ensures unclosed { L.closed link.new ≡ false }
    ensures faults { L.faults link.old ≤ L.faults link.new }
    ensures drawing { IsTrue (D.tells draw.new) → IsTrue (D.tells draw.old) }
{
    let facts = password_facts(alloc, user, password, draws)?;
    let MadeMechs {
        kerberos,
        microsoft,
        scram,
    } = make_mechs(alloc)?;
    let mechs = standard_mechs(alloc, kerberos, microsoft, scram).ok()?;
    hold_by(alloc, link, draw, mechs, facts, terms, due)
}

/// Holds a session that a user's password authenticates (SCRAM, RFC 5802): draws its random octets, creates a context, makes these calls, and
/// destroys the context. None where memory wants, and then the link wasn't used.
pub fn hold_by_password<L: Link, D: Draw, Q: Query>(
    alloc: Global,
    link: &mut L,
    draw: &mut D,
    user: &str,
    password: &str,
    terms: Terms,
    due: &[DueCall<Q>],
) -> Option<Talk>
    requires unclosed { L.closed link.old ≡ false }
    ensures told { IsTrue (L.tells link.old) → IfSome result (λ talk. TalkedByPassword
        (D.tells draw.new) (D.given draw.old) (D.given draw.new) user.now password.now terms
        (calls_of Q.says due.now) (L.wire link.old) (L.wire link.new) talk.outcome
        talk.results.items talk.parting) }
    ensures fault { IfSome result (λ talk. talk.parting ≡ Parting.Refused ClientRefusal.LinkFault
        → Rose (L.faults link.old) (L.faults link.new)) }
    ensures wanting { result ≡ None → link.new ≡ link.old }
    ensures drawn { result ≡ None → IsTrue (D.tells draw.new)
        → IsDrawn 66 (D.given draw.old) (D.given draw.new) }
    ensures tells { L.tells link.new ≡ L.tells link.old }
    ensures unclosed { L.closed link.new ≡ false }
    ensures faults { L.faults link.old ≤ L.faults link.new }
    ensures drawing { IsTrue (D.tells draw.new) → IsTrue (D.tells draw.old) }
{
    let mut draws = [0; 66];
    draw.fill(&mut draws);
    hold_with(alloc, link, draw, user, password, draws, terms, due)
}

/// A connection to an address, a host and a port with a colon between them, which is made when it is first used. It reads ahead and writes
/// behind; nothing was read or waits to be written yet.
pub fn dial<'a>(rt: HostRuntime, address: &'a str) -> Buffered<DialedLink<'a, HostRuntime>>
    ensures address { dialed_address (link_below result) ≡ address.now }
    ensures closed { ⟦<Buffered<DialedLink<'a, HostRuntime>> as Link>⟧.closed result ≡ false }
    ensures ahead { read_ahead result ≡ [] }
    ensures behind { written_behind result ≡ [] }
{
    Buffered::over(rt.alloc(), DialedLink::new(rt, address))
}
