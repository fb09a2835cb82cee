//! What the tables rest on: the keytab, the ticket and the session key of `alice@R` at `rpc/host@R`, the user of SCRAM and the verifier
//! file, and the random octets of both ends.

ghost use Rattle.std.specs.Prelude.{◌≡◌, ◌≤◌, ◌∷◌, [], length, IfSome, true, false, not};
ghost use Rattle.spnego_core.specs.Choice.{is_same_oid};
ghost use Rattle.spnego_core.specs.InitMech.{oid_listed, is_own_list, is_bare_list};

use crate::names::{named, octets_by_name};
use gss_base::{KerberosName, MechKind, Principal};
use krb_derive::{Etype, Key};
use krb_files::{Credential, read_keytab};
use scram_mech::read_verifiers;
use sec_base::{Items, Moment, Octets, Text};
use spnego_core::{AcceptSetup, InitFacts, MechCred};
use std::alloc::Global;
use table_rows::Cells;

/// The octets of the file `setting.txt`.
#[derive(Drop)]
pub struct Setting {
    pub keytab: Vec<u8>,
    pub session: [u8; 16],
    pub ticket: Vec<u8>,
    /// The verifier file, which has the user `user` with the password `p`.
    pub verifiers: Vec<u8>,
}

impl Setting {
    /// The setting that the file says.
    pub fn read(alloc: Global, text: &str) -> Option<Setting> {
        let mut cells = Cells::new(alloc, "@keytab @ticket @verifiers", ' ');
        let mut session = Cells::new(alloc, named(text, "session").unwrap_or("-"), ' ');
        let setting = Setting {
            keytab: octets_by_name(&mut cells, text),
            session: session.exactly(),
            ticket: octets_by_name(&mut cells, text),
            verifiers: octets_by_name(&mut cells, text),
        };
        if cells.are_well() && session.are_well() {
            Some(setting)
        } else {
            drop(setting);
            None
        }
    }
}

/// The initiator's random octets, 00 to 41.
pub fn own_draws() -> [u8; 66] {
    let mut draws = [0; 66];
    for number in 0..66u8 {
        draws[number as usize] = number;
    }
    draws
}

/// The acceptor's random octets, 80 to c1.
pub fn draws() -> [u8; 66] {
    let mut draws = [0; 66];
    for number in 0..66u8 {
        draws[number as usize] = 0x80 + number;
    }
    draws
}

/// A ticket, within its limit.
pub fn ticket_of(alloc: Global, octets: &[u8]) -> Option<Octets>
    ensures { IfSome result (λ o. length o ≤ 60000) }
{
    if octets.len() > 60_000 {
        return None;
    }
    Octets::of(alloc, octets).ok()
}

/// A credential for these principals, by their text forms.
pub fn credential(
    alloc: Global,
    client: &str,
    server: &str,
    session: Key,
    ticket: &[u8],
) -> Option<Credential> {
    let names = Principal::parse(alloc, client)
        .ok()
        .zip(Principal::parse(alloc, server).ok());
    let ((client, server), ticket) = names.zip(ticket_of(alloc, ticket))?;
    Some(Credential {
        client,
        server,
        session,
        ticket,
    })
}

/// What an initiator with this list begins with, without bindings, by whether it negotiates.
fn setup_of(list: Vec<MechCred>, negotiates: bool, stamp: Moment, draws: [u8; 66]) -> InitFacts
    ensures list { result.list ≡ list.items }
    ensures negotiates { result.negotiates ≡ negotiates }
{
    InitFacts {
        list: Items::of(list),
        bindings: None,
        stamp,
        draws,
        negotiates,
    }
}

/// Whether a list is one credential of Kerberos, under its own name.
fn is_bare_list(list: &[MechCred]) -> bool
    ensures { result ≡ is_bare_list list.now }
{
    match list {
        [only] => match only {
            MechCred::Kerberos { name, .. } => match *name {
                KerberosName::Standard => true,
                KerberosName::Microsoft => false,
            },
            MechCred::Scram { .. } => false,
        },
        _ => false,
    }
}

/// The same, where the list is one for that.
fn setup_if_fit(
    list: Vec<MechCred>,
    negotiates: bool,
    stamp: Moment,
    draws: [u8; 66],
) -> Option<InitFacts>
    ensures list { IfSome result (λ own. own.list ≡ list.items) }
    ensures bare { IfSome result
        (λ own. own.negotiates ≡ false → is_bare_list own.list ≡ true) }
{
    if negotiates {
        return Some(setup_of(list, true, stamp, draws));
    }
    if is_bare_list(list.as_slice()) {
        Some(setup_of(list, false, stamp, draws))
    } else {
        drop(list);
        None
    }
}

/// What an initiator begins with: this credential of Kerberos alone, without bindings, at this moment.
pub fn initiator(alloc: Global, credential: Credential, stamp: Moment) -> Option<InitFacts>
    ensures list { IfSome result (λ own. is_own_list own.list ≡ true) }
    ensures bare { IfSome result
        (λ own. own.negotiates ≡ false → is_bare_list own.list ≡ true) }
{
    let name = KerberosName::Standard;
    match one(alloc, MechCred::Kerberos { name, credential }) {
        Some(list) => Some(setup_of(list, true, stamp, own_draws())),
        None => None,
    }
}

/// A list of one.
fn one<T: Drop>(alloc: Global, only: T) -> Option<Vec<T>>
    ensures { IfSome result (λ list. list.items ≡ only ∷ []) }
{
    match Vec::with_capacity(alloc, 1) {
        Ok(mut list) => {
            list.push_reserved(only);
            Some(list)
        }
        Err(_) => None,
    }
}

/// Whether two credentials stand in a list under different object identifiers.
fn differ(a: &MechCred, b: &MechCred) -> bool
    ensures { result ≡ not (is_same_oid (oid_listed a.now) (oid_listed b.now)) }
{
    a.name().oid() != b.name().oid()
}

/// Whether these are one to three credentials with different object identifiers.
fn is_own_list(list: &[MechCred]) -> bool
    ensures { result ≡ is_own_list list.now }
{
    match list {
        [_] => true,
        [a, b] => differ(a, b),
        [a, b, c] => differ(a, b) && (differ(a, c) && differ(b, c)),
        _ => false,
    }
}

/// Adds the mechanism that a letter names, and answers whether it could.
fn is_offered(offer: &mut Vec<MechKind>, letter: char) -> bool {
    match letter {
        'k' => offer.push(MechKind::Kerberos).is_ok(),
        's' => offer.push(MechKind::Scram).is_ok(),
        BARE => true,
        _ => false,
    }
}

/// The letter by which a request of Kerberos is taken that comes without negotiation.
const BARE: char = 'b';

/// The letter of an initiator's one mechanism where it doesn't negotiate.
const UNLISTED: char = 'n';

/// The mechanisms that an offer's letters name: `k` Kerberos, `s` SCRAM; `b` names none.
fn offer_of(alloc: Global, letters: &str) -> Option<Vec<MechKind>> {
    let mut offer = Vec::new(alloc);
    let mut are_well = true;
    for letter in letters.chars() {
        are_well = are_well && is_offered(&mut offer, letter);
    }
    if are_well { Some(offer) } else { None }
}

/// What an acceptor begins with, by its name's text form, the octets of its keytab and its verifier file, and the letters of its offer,
/// without bindings. With `b` among the letters it takes a request that comes without negotiation.
pub fn acceptor(
    alloc: Global,
    own: &str,
    keytab: &[u8],
    verifiers: &[u8],
    letters: &str,
) -> Option<AcceptSetup> {
    let names = Principal::parse(alloc, own)
        .ok()
        .zip(read_keytab(alloc, keytab).ok());
    let users = read_verifiers(alloc, verifiers)
        .ok()
        .zip(offer_of(alloc, letters));
    let ((own, keytab), (verifiers, offer)) = names.zip(users)?;
    Some(AcceptSetup {
        own,
        keytab,
        verifiers,
        bindings: None,
        offer: Items::of(offer),
        bare: letters.contains(BARE),
    })
}

impl Setting {
    /// The credential of `alice@R`.
    pub fn credential(&self, alloc: Global) -> Option<Credential> {
        let session = Key::new(Etype::Aes128, &self.session)?;
        credential(
            alloc,
            "alice@R",
            "rpc/host@R",
            session,
            self.ticket.as_slice(),
        )
    }

    /// What `rpc/host@R` begins with, by the letters of its offer.
    pub fn acceptor(&self, alloc: Global, letters: &str) -> Option<AcceptSetup> {
        let (keytab, verifiers) = (self.keytab.as_slice(), self.verifiers.as_slice());
        acceptor(alloc, "rpc/host@R", keytab, verifiers, letters)
    }

    /// The user `user`, whose password is `p`.
    fn login(&self, alloc: Global) -> Option<MechCred> {
        let user = Text::of(alloc, "user").ok();
        let (user, password) = user.zip(Text::of(alloc, "p").ok())?;
        Some(MechCred::Scram { user, password })
    }

    /// The credential of `alice@R` for a list, under a name of Kerberos.
    fn ticket(&self, alloc: Global, name: KerberosName) -> Option<MechCred> {
        match self.credential(alloc) {
            Some(credential) => Some(MechCred::Kerberos { name, credential }),
            None => None,
        }
    }

    /// The credential that a letter names: `k` Kerberos, `m` the same under Microsoft's name, `s` SCRAM, and `n` Kerberos again.
    fn named(&self, alloc: Global, letter: char) -> Option<MechCred> {
        match letter {
            'k' => self.ticket(alloc, KerberosName::Standard),
            UNLISTED => self.ticket(alloc, KerberosName::Standard),
            'm' => self.ticket(alloc, KerberosName::Microsoft),
            's' => self.login(alloc),
            _ => None,
        }
    }

    /// The credentials that letters name, in their order.
    fn all_named(&self, alloc: Global, letters: &str) -> Option<Vec<MechCred>> {
        let mut list = Vec::new(alloc);
        for letter in letters.chars() {
            list.push(self.named(alloc, letter)?).ok()?;
        }
        Some(list)
    }

    /// The credentials of a list's letters, no two of which are alike.
    fn list_of(&self, alloc: Global, letters: &str) -> Option<Vec<MechCred>>
        ensures { IfSome result (λ list. is_own_list list.items ≡ true) }
    {
        let list = self.all_named(alloc, letters)?;
        if is_own_list(list.as_slice()) {
            Some(list)
        } else {
            None
        }
    }

    /// What an initiator begins with, by the letters of its list and its random octets, at 1,000,000 seconds. With `n` it doesn't negotiate.
    pub fn initiator_with(&self, alloc: Global, letters: &str, draws: [u8; 66]) -> Option<InitFacts>
        ensures list { IfSome result (λ own. is_own_list own.list ≡ true) }
        ensures bare { IfSome result
            (λ own. own.negotiates ≡ false → is_bare_list own.list ≡ true) }
    {
        let stamp = Moment::new(1_000_000, 0)?;
        match self.list_of(alloc, letters) {
            Some(list) => setup_if_fit(list, !letters.contains(UNLISTED), stamp, draws),
            None => None,
        }
    }

    /// The same with the random octets 00 to 41.
    pub fn initiator(&self, alloc: Global, letters: &str) -> Option<InitFacts>
        ensures list { IfSome result (λ own. is_own_list own.list ≡ true) }
        ensures bare { IfSome result
            (λ own. own.negotiates ≡ false → is_bare_list own.list ≡ true) }
    {
        self.initiator_with(alloc, letters, own_draws())
    }
}
