//! What both ends of a drill begin with.

ghost use Rattle.std.specs.Prelude.{◌≡◌, IfOk, map, true, [], ◌∷◌};
ghost use Rattle.gss_base.specs.declared.mech.MechKind.TheVariants as kinds;
ghost use Rattle.scram_mech.specs.Verifiers.{line_text, line_with};
ghost use Rattle.spnego_core.specs.Ends.{setup_of};
ghost use Rattle.spnego_core.specs.InitMech as plain_lists;
ghost use Rattle.mech_objects.specs.Standard.{blank_of};
ghost use Rattle.init_ends.specs.Objects.{is_own_list};
ghost use Rattle.init_ends.specs.Plain.{fresh_of};
ghost use Rattle.gss_client.specs.Start.{objects_start};
ghost use Rattle.drill_plan.specs.Generator.{octets_from, after_steps};
ghost use Rattle.drill_plan.specs.Sessions.{moment_of, kind_of, own_name, service_of};
ghost use Rattle.drill_plan.specs.Sessions.{terms_of};
ghost use Rattle.drill_plan.specs.Setting.{server_name, client_name, server_key, drill_keytab};
ghost use Rattle.drill_plan.specs.Setting.{user_name, user_secret, drill_verifiers, drill_offer};
ghost use Rattle.drill_plan.specs.Setting.{drill_acceptor, drill_credential, drill_start};
ghost use Rattle.drill_plan.specs.Setting.{started_by, CredOpens};

use crate::generator::Generator;
use accept_book::{Keeping, Limits};
use files_command::{DRAWS, NoFile, ServiceKey, credential_for, write_keytab};
use gss_base::{KerberosName, MechKind, NameRefusal, Principal};
use gss_client::{Service, Start, Terms};
use init_ends::{InitSetup, armed_with};
use krb_derive::Key;
use krb_files::{FileRefusal, FileWhy, Keytab, read_keytab};
use mech_objects::{Mech, MechAsk};
use posts_program::numbers::{PROGRAM, VERSION};
use scram_mech::{
    ScramRefusal, VerifierRefusal, Verifiers, make_verifier, prove_laws, read_verifiers,
};
use sec_base::{Draw, Items, Moment, NoMemory, Octets, Text};
use spnego_core::{AcceptSetup, InitFacts, MechCred};
use std::alloc::Global;

/// What the server is called, and who calls by Kerberos.
const SERVER: &str = "rpc/drill@DRILL";

const CLIENT: &str = "user@DRILL";

/// The server's key of type 17, and the key's number.
const SERVER_KEY: [u8; 16] = [0, 1, 2, 3, 4, 5, 6, 7, 8, 9, 10, 11, 12, 13, 14, 15];

const KEY_NUMBER: u32 = 1;

/// The octets of the ticket's session key, which are the first 16, and of its confounder, which are the last 16.
const TICKET_DRAWS: [u8; DRAWS] = [0x44; DRAWS];

/// The seconds from which on and until which the ticket serves.
const SINCE: u64 = 1_000_000;

const UNTIL: u64 = 1_086_400;

/// The user of SCRAM, who is the password too, and the salt and the count of rounds of the verifier.
const USER: &str = "drill";

const SALT: [u8; 5] = *b"drill";

const ROUNDS: u32 = 4_096;

/// The width of the windows of sequence numbers.
pub const WIDTH: u32 = 128;

/// The limits of the book, whose log is kept: else those that the server has without options.
pub const LIMITS: Limits = Limits {
    contexts: 1_024,
    marks: 65_536,
    log: 262_144,
    width: WIDTH,
    keeping: Keeping {
        entries: true,
        digest: false,
    },
};

/// The second of the first session.
const START: u64 = 1_000_000;

/// The server's name.
fn server_name(alloc: Global) -> Result<Principal, NoMemory>
    ensures { IfOk result (λ name. name ≡ server_name) }
{
    match Principal::parse(alloc, SERVER) {
        Ok(name) => Ok(name),
        Err(NameRefusal::NoMemory) => Err(NoMemory),
        Err(_) => unreachable!(),
    }
}

/// The name of who calls by Kerberos.
fn client_name(alloc: Global) -> Result<Principal, NoMemory>
    ensures { IfOk result (λ name. name ≡ client_name) }
{
    match Principal::parse(alloc, CLIENT) {
        Ok(name) => Ok(name),
        Err(NameRefusal::NoMemory) => Err(NoMemory),
        Err(_) => unreachable!(),
    }
}

/// The server's key.
fn server_key(alloc: Global) -> Result<ServiceKey, NoMemory>
    ensures { IfOk result (λ key. key ≡ server_key) }
{
    let server = server_name(alloc)?;
    let key = SERVER_KEY;
    Ok(ServiceKey {
        server,
        kvno: KEY_NUMBER,
        key: Key::Aes128(key),
    })
}

/// A keytab with the server's key.
fn keytab(alloc: Global) -> Result<Keytab, NoMemory>
    ensures { IfOk result (λ keys. keys ≡ drill_keytab) }
{
    let key = server_key(alloc)?;
    let file = write_keytab(alloc, &key)?;
    match read_keytab(alloc, file.as_slice()) {
        Ok(keys) => Ok(keys),
        Err(
            FileRefusal {
                why: FileWhy::NoMemory,
                ..
            },
        ) => Err(NoMemory),
        Err(_) => unreachable!(),
    }
}

/// The line of the user in a file of verifiers.
fn verifier_line(alloc: Global) -> Result<Octets, NoMemory>
    ensures { IfOk result (λ line. line ≡ line_text (line_with user_name user_secret)) }
{
    match make_verifier(alloc, USER, USER, &SALT, ROUNDS) {
        Ok(line) => Ok(line),
        Err(ScramRefusal::NoMemory) => Err(NoMemory),
        Err(_) => unreachable!(),
    }
}

/// The verifier of the user.
fn verifiers(alloc: Global) -> Result<Verifiers, NoMemory>
    ensures { IfOk result (λ users. users ≡ drill_verifiers) }
{
    prove_laws();
    let line = verifier_line(alloc)?;
    match read_verifiers(alloc, line.as_slice()) {
        Ok(users) => Ok(users),
        Err(VerifierRefusal::NoMemory) => Err(NoMemory),
        Err(_) => unreachable!(),
    }
}

/// Both mechanisms, Kerberos first.
fn offer(alloc: Global) -> Result<Items<MechKind>, NoMemory>
    ensures { IfOk result (λ offer. offer ≡ drill_offer) }
{
    let mut mechanisms = Vec::with_capacity(alloc, 2)?;
    mechanisms.push_reserved(MechKind::Kerberos);
    mechanisms.push_reserved(MechKind::Scram);
    Ok(Items::of(mechanisms))
}

/// What the server begins with.
pub fn acceptor(alloc: Global) -> Result<AcceptSetup, NoMemory>
    ensures { IfOk result (λ setup. setup ≡ drill_acceptor) }
{
    let own = server_name(alloc)?;
    let keys = keytab(alloc)?;
    let users = verifiers(alloc)?;
    let mechanisms = offer(alloc)?;
    Ok(AcceptSetup {
        own,
        keytab: keys,
        verifiers: users,
        bindings: None,
        offer: mechanisms,
        bare: false,
    })
}

/// The moment of a session, counted from 0.
pub fn moment_of(number: u32) -> Moment
    ensures { result ≡ moment_of number }
{
    match Moment::new(START + number as u64, 0) {
        Some(moment) => moment,
        None => unreachable!(),
    }
}

/// The mechanism of a session.
pub fn kind_of(number: u32) -> MechKind
    ensures { result ≡ kind_of number }
{
    if number % 2 == 0 {
        MechKind::Kerberos
    } else {
        MechKind::Scram
    }
}

/// How the calls of a session are protected.
fn service_of(number: u32) -> Service
    ensures { result ≡ service_of number }
{
    if number % 4 < 2 {
        Service::Integrity
    } else {
        Service::Privacy
    }
}

/// What a session calls: the server's program, and how its calls are protected.
fn terms_of(number: u32) -> Terms
    ensures { result ≡ terms_of number }
{
    Terms {
        service: service_of(number),
        program: PROGRAM,
        version: VERSION,
    }
}

/// The client's ticket.
fn ticket(alloc: Global) -> Result<MechCred, NoMemory>
    ensures is { IfOk result (λ cred. cred ≡ drill_credential kinds.Kerberos) }
    ensures opens { IfOk result (λ _. CredOpens kinds.Kerberos) }
{
    let client = client_name(alloc)?;
    let key = server_key(alloc)?;
    match credential_for(alloc, client, key, SINCE, UNTIL, &TICKET_DRAWS) {
        Ok(granted) => Ok(MechCred::Kerberos {
            name: KerberosName::Standard,
            credential: granted,
        }),
        Err(NoFile::NoMemory) => Err(NoMemory),
        Err(NoFile::Usage) => unreachable!(),
    }
}

/// The user and the password.
fn login(alloc: Global) -> Result<MechCred, NoMemory>
    ensures { IfOk result (λ cred. cred ≡ drill_credential kinds.Scram) }
{
    let user = Text::of(alloc, USER)?;
    let password = Text::of(alloc, USER)?;
    Ok(MechCred::Scram { user, password })
}

/// The client's credential of a mechanism.
fn credential(alloc: Global, kind: MechKind) -> Result<MechCred, NoMemory>
    ensures is { IfOk result (λ cred. cred ≡ drill_credential kind) }
    ensures opens { IfOk result (λ _. CredOpens kind) }
{
    match kind {
        MechKind::Kerberos => ticket(alloc),
        MechKind::Scram => login(alloc),
    }
}

/// The client's list of one mechanism.
fn list_of(alloc: Global, kind: MechKind) -> Result<Items<MechCred>, NoMemory>
    ensures is { IfOk result (λ list. list ≡ drill_credential kind ∷ []) }
    ensures opens { IfOk result (λ _. CredOpens kind) }
{
    let only = credential(alloc, kind)?;
    let mut list = Vec::with_capacity(alloc, 1)?;
    list.push_reserved(only);
    Ok(Items::of(list))
}

/// The facts of a session's client, at the session's moment; they take 66 random octets.
pub fn facts_of(
    alloc: Global,
    number: u32,
    stamp: Moment,
    draw: &mut Generator,
) -> Result<InitFacts, NoMemory>
    ensures is { IfOk result (λ facts. setup_of facts
        ≡ (drill_start number stamp (octets_from 66 draw.old.value)).setup) }
    ensures place { IfOk result (λ _. draw.new.value ≡ after_steps 66 draw.old.value) }
    ensures opens { IfOk result (λ _. CredOpens (kind_of number)) }
    ensures list { IfOk result (λ facts. plain_lists.is_own_list facts.list ≡ true) }
    ensures stamp { IfOk result (λ facts. facts.stamp ≡ stamp) }
{
    let list = list_of(alloc, kind_of(number))?;
    let mut draws = [0; 66];
    draw.fill(&mut draws);
    Ok(InitFacts {
        list,
        bindings: None,
        stamp,
        draws,
        negotiates: true,
    })
}

/// A list of one object, a blank one of this mechanism under its own name, armed with the client's credential.
fn armed_one(
    alloc: Global,
    kind: MechKind,
    mech: Box<dyn Mech>,
) -> Result<Vec<Box<dyn Mech>>, NoMemory>
    requires { meaning mech ≡ blank_of (own_name kind) }
    ensures is { IfOk result
        (λ list. map meaning list.items ≡ fresh_of (drill_credential kind) ∷ []) }
    ensures opens { IfOk result (λ _. CredOpens kind) }
{
    let cred = credential(alloc, kind)?;
    let mut list = Vec::with_capacity(alloc, 1)?;
    list.push_reserved(armed_with(mech, cred));
    Ok(list)
}

/// What the client begins a session with, at the session's moment, by a blank object of the session's mechanism under its own name; it takes 66 random octets.
pub fn start_of(
    alloc: Global,
    number: u32,
    mech: Box<dyn Mech>,
    stamp: Moment,
    draw: &mut Generator,
) -> Result<Start, NoMemory>
    requires blank { meaning mech ≡ blank_of (own_name (kind_of number)) }
    ensures is { IfOk result (λ start. started_by meaning start
        ≡ objects_start (drill_start number stamp (octets_from 66 draw.old.value))) }
    ensures place { IfOk result (λ _. draw.new.value ≡ after_steps 66 draw.old.value) }
    ensures opens { IfOk result (λ _. CredOpens (kind_of number)) }
    ensures list { IfOk result
        (λ start. is_own_list (started_by meaning start).setup.list ≡ true) }
    ensures terms { IfOk result (λ start. start.terms ≡ terms_of number) }
    ensures stamp { IfOk result (λ start. (started_by meaning start).setup.ask.stamp ≡ stamp) }
    ensures first { IfOk result (λ start. start.first ≡ 1) }
{
    let list = armed_one(alloc, kind_of(number), mech)?;
    let mut draws = [0; 66];
    draw.fill(&mut draws);
    let ask = MechAsk {
        stamp,
        draws,
        bindings: None,
    };
    Ok(Start {
        setup: InitSetup::Negotiating(list, ask),
        terms: terms_of(number),
        first: 1,
    })
}
