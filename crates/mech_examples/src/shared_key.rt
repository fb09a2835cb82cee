//! A mechanism of one message under a shared key.

ghost use Rattle.std.specs.Prelude.{◌≡◌, ◌≤◌, ◌++◌, [], length, IfOk};
ghost use Rattle.sec_base.specs.Answers.{Gives};
ghost use Rattle.gss_base.specs.declared.mech.MechKind.TheVariants.{Scram};
ghost use Rattle.mac_sha1.specs.Mac.{hmac};
ghost use Rattle.spnego_core.specs.Sizes.{FitsBeside};
ghost use Rattle.mech_objects.specs.Meaning.{FitsMove, as_end, blank};
ghost use Rattle.mech_examples.specs.SharedKey.{code_of, consented, done_of, example_oid};
ghost use Rattle.mech_examples.specs.SharedKey.{first_said, for_name, message_of, shared_key};
ghost use Rattle.mech_examples.specs.Objects.{shared_key_of};

use gss_base::{Label, MechKind, binding_hash};
use krb_derive::Key;
use krb_tokens::MechDone;
use mac_sha1::Hmac;
use mech_objects::{Mech, MechAsk, MechMove, Stage};
use scram_mech::ScramRefusal;
use sec_base::{Moment, NoMemory, Octets, Oid, Text};
use spnego_core::{MechCred, MechRefusal, NegRefusal};
use std::alloc::Global;

/// The content of 2.999.1, of the arc that ITU-T X.660 keeps for examples: no other mechanism has it, and nobody has to register it.
const EXAMPLE: [u8; 3] = [0x88, 0x37, 0x01];

/// The initiator's object of this mechanism. It takes a user and a password; the acceptor has the password too.
///
/// It sends one message: the user's name, an octet 00, the drawn octets, and the HMAC-SHA-1 of the drawn octets and the name under the
/// password. The acceptor consents by an empty token. Channel bindings aren't carried. It keeps no state between the two tokens: what it is
/// says all that it answers.
#[derive(Drop)]
pub struct SharedKeyMech {
    cred: Option<MechCred>,
    ask: Option<MechAsk>,
    sent: Vec<Octets>,
    taken: Vec<Octets>,
    stage: Stage,
}

/// The code of a message under a key.
fn code(key: &[u8], front: &[u8], back: &[u8]) -> [u8; 20]
    ensures { result ≡ hmac key.now (front.now ++ back.now) }
{
    let mut code = Hmac::new(key);
    code.update(front);
    code.update(back);
    code.finish()
}

/// The code that is sent.
fn code_of(user: &Text, password: &Text, draws: &[u8; 66]) -> [u8; 20]
    ensures { result ≡ code_of user.now password.now draws.now }
{
    let (user, password) = (user.as_str(), password.as_str());
    code(password.as_bytes(), draws, user.as_bytes())
}

/// The one message.
fn message_of(
    alloc: Global,
    user: &Text,
    password: &Text,
    draws: &[u8; 66],
) -> Result<Octets, NoMemory>
    requires { length user.now ≤ 255 }
    ensures exact { IfOk result (λ o. o ≡ message_of user.now password.now draws.now) }
    ensures short { IfOk result FitsBeside }
{
    let code = code_of(user, password, draws);
    let mut octets = Vec::from_slice(alloc, user.as_str().as_bytes())?;
    octets.push(0)?;
    octets.extend_from_slice(draws)?;
    octets.extend_from_slice(&code)?;
    Ok(Octets::from_vec(octets))
}

/// The name of a user, refused where it has more than 255 octets.
fn named(user: &Text) -> Result<Label, NegRefusal>
    ensures exact { Gives NegRefusal.NoMemory (λ l. l) result
        (as_end (for_name user.now user.now)) }
    ensures few { IfOk result (λ _. length user.now ≤ 255) }
{
    match Label::new(user.as_str()) {
        Some(label) => Ok(label),
        None => Err(NegRefusal::Mech(MechRefusal::Scram(ScramRefusal::Text { at: 255 }))),
    }
}

/// The name of who isn't named.
fn nobody() -> Label
    ensures { result ≡ [] }
{
    match Label::new("") {
        Some(label) => label,
        None => unreachable!(),
    }
}

/// What the exchange gives.
fn done_of(label: Label, user: &Text, password: &Text, draws: &[u8; 66]) -> MechDone
    requires { label ≡ user.now }
    ensures { result ≡ done_of user.now password.now draws.now }
{
    let sent = code_of(user, password, draws);
    let unsent = code(password.as_str().as_bytes(), &sent, &[]);
    let mut key = [0u8; 16];
    key.copy_from_slice(&unsent[..16]);
    MechDone {
        key: Key::Aes128(key),
        subkey: false,
        initiator: label,
        acceptor: nobody(),
        hash: binding_hash(None),
        ends: Moment::greatest(),
        first: 0,
    }
}

/// The first token, by the credential.
fn first_said(alloc: Global, cred: &MechCred, ask: &MechAsk) -> Result<Octets, NegRefusal>
    ensures exact { Gives NegRefusal.NoMemory (λ o. o) result
        (as_end (first_said cred.now ask.now)) }
    ensures short { IfOk result FitsBeside }
{
    match cred {
        MechCred::Kerberos { .. } => Err(NegRefusal::Mech(MechRefusal::Scram(
            ScramRefusal::NoUser,
        ))),
        MechCred::Scram { user, password } => {
            let _name = named(user)?;
            let message = message_of(alloc, user, password, &ask.draws)?;
            Ok(message)
        }
    }
}

/// What is made of a token.
fn consented(cred: &MechCred, ask: &MechAsk, token: &[u8]) -> Result<MechMove, NegRefusal>
    ensures exact { Gives NegRefusal.NoMemory (λ a. a) result
        (as_end (consented cred.now ask.now token.now)) }
    ensures short { IfOk result FitsMove }
{
    if !token.is_empty() {
        return Err(NegRefusal::Mech(MechRefusal::Scram(ScramRefusal::Text { at: 0 })));
    }
    match cred {
        MechCred::Kerberos { .. } => Err(NegRefusal::Mech(MechRefusal::Scram(
            ScramRefusal::NoUser,
        ))),
        MechCred::Scram { user, password } => {
            let label = named(user)?;
            Ok(MechMove::Done(done_of(label, user, password, &ask.draws)))
        }
    }
}

impl SharedKeyMech {
    /// One that has no credential.
    pub fn new(alloc: Global) -> SharedKeyMech
        ensures { shared_key_of result ≡ blank Scram example_oid shared_key }
    {
        SharedKeyMech {
            cred: None,
            ask: None,
            sent: Vec::new(alloc),
            taken: Vec::new(alloc),
            stage: Stage::Blank,
        }
    }
}

impl Mech for SharedKeyMech {
    ghost use Rattle.mech_examples.specs.Objects.{shared_key_of};

    ghost meaning = { shared_key_of };

    fn kind(&self) -> MechKind {
        MechKind::Scram
    }

    fn oid(&self) -> Oid {
        match Oid::new(&EXAMPLE) {
            Some(oid) => oid,
            None => unreachable!(),
        }
    }

    fn arm(&mut self, cred: MechCred) {
        self.cred = Some(cred);
        self.stage = Stage::Fresh;
    }

    fn start(&mut self, alloc: Global, ask: &MechAsk) -> Result<Octets, NegRefusal> {
        self.stage = Stage::Over;
        let Some(cred) = &self.cred else {
            return Err(NegRefusal::MechNotMine);
        };
        let token = first_said(alloc, cred, ask)?;
        let copy = Octets::of(alloc, token.as_slice())?;
        let own = ask.copied(alloc)?;
        let mut sent = Vec::new(alloc);
        if sent.push(copy).is_err() {
            return Err(NegRefusal::NoMemory);
        }
        self.ask = Some(own);
        self.sent = sent;
        self.taken = Vec::new(alloc);
        self.stage = Stage::Waiting;
        Ok(token)
    }

    fn take(&mut self, alloc: Global, token: &[u8]) -> Result<MechMove, NegRefusal> {
        self.stage = Stage::Over;
        let Some(cred) = &self.cred else {
            return Err(NegRefusal::MechNotMine);
        };
        let Some(ask) = &self.ask else {
            return Err(NegRefusal::MechNotMine);
        };
        let done = consented(cred, ask, token)?;
        let kept = Octets::of(alloc, token)?;
        if self.taken.push(kept).is_err() {
            return Err(NegRefusal::NoMemory);
        }
        Ok(done)
    }
}
