//! What both ends begin with.

ghost use Rattle.std.specs.Prelude.{◌≡◌, IfSome, true, false};
ghost use Rattle.spnego_core.specs.InitMech.{is_own_list, is_bare_list};

use gss_base::{Bindings, MechKind, Principal};
use krb_files::read_keytab;
use scram_mech::{Verifiers, make_verifier, read_verifiers};
use sec_base::{Items, Moment, Octets, Text};
use spnego_core::{AcceptSetup, InitFacts, MechCred};
use std::alloc::Global;

/// The user, whom both ends know, and the password, which the initiator alone knows.
const USER: &str = "alice";

const PASSWORD: &str = "open sesame";

/// The salt and the count of rounds by which a verifier is made from the password (RFC 5802 section 2.2).
const SALT: [u8; 16] = *b"salt of example.";

const ROUNDS: u32 = 4_096;

/// What the acceptor is called.
const SERVICE: &str = "rpc/localhost@REALM.TEST";

/// What tells the channel between the ends from others (RFC 5056): both have to name the same one.
const CHANNEL: [u8; 11] = *b"the channel";

/// A keytab without keys, which has the number of its format alone: SCRAM needs none.
const NO_KEYS: [u8; 2] = [5, 2];

/// How many random octets a step takes, and those of the initiator.
pub const DRAWS: usize = 66;

const OPEN_DRAWS: [u8; DRAWS] = [1; DRAWS];

/// The bindings of the channel.
fn bindings(alloc: Global) -> Option<Bindings> {
    Bindings::new(Octets::of(alloc, &CHANNEL).ok()?).ok()
}

/// The user's name and password, as a credential of SCRAM.
fn login(alloc: Global) -> Option<MechCred> {
    let user = Text::of(alloc, USER).ok();
    let (user, password) = user.zip(Text::of(alloc, PASSWORD).ok())?;
    Some(MechCred::Scram { user, password })
}

/// The initiator's facts: one credential, of SCRAM.
pub fn initiator(alloc: Global) -> Option<InitFacts>
    ensures list { IfSome result (λ facts. is_own_list facts.list ≡ true) }
    ensures bare { IfSome result
        (λ facts. facts.negotiates ≡ false → is_bare_list facts.list ≡ true) }
{
    let mut list = Vec::with_capacity(alloc, 1).ok()?;
    let (login, bindings) = login(alloc).zip(bindings(alloc))?;
    list.push_reserved(login);
    Some(InitFacts {
        list: Items::of(list),
        bindings: Some(bindings),
        stamp: Moment::start(),
        draws: OPEN_DRAWS,
        negotiates: true,
    })
}

/// The user's verifier, which the acceptor has in place of the password.
fn verifiers(alloc: Global) -> Option<Verifiers> {
    let line = make_verifier(alloc, USER, PASSWORD, &SALT, ROUNDS).ok()?;
    read_verifiers(alloc, line.as_slice()).ok()
}

/// The one mechanism on offer.
fn offer(alloc: Global) -> Option<Items<MechKind>> {
    let offer = Vec::from_slice(alloc, &[MechKind::Scram]).ok()?;
    Some(Items::of(offer))
}

/// What the acceptor begins with: its name, the user's verifier, and SCRAM alone on offer.
pub fn acceptor(alloc: Global) -> Option<AcceptSetup> {
    let name = Principal::parse(alloc, SERVICE).ok();
    let names = name.zip(read_keytab(alloc, &NO_KEYS).ok());
    let users = verifiers(alloc).zip(offer(alloc));
    let ((own, keytab), ((verifiers, offer), bindings)) = names.zip(users.zip(bindings(alloc)))?;
    Some(AcceptSetup {
        own,
        keytab,
        verifiers,
        bindings: Some(bindings),
        offer,
        bare: false,
    })
}
