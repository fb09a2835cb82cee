//! The initiator's end.

ghost use Rattle.std.specs.Prelude.{◌≡◌, ◌≤◌, length, IfOk, IfSome, option_map};
ghost use Rattle.sec_base.specs.Answers.{Gives};
ghost use Rattle.scram_mech.specs.declared.refusal.ScramRefusal.TheVariants as refusals;
ghost use Rattle.scram_mech.specs.Reading.{seen};
ghost use Rattle.gss_base.specs.Bindings.{hash_of};
ghost use Rattle.scram_bindings.specs.Carried.{data_of as data_in};
ghost use Rattle.scram_mech.specs.FirstText.{first_text};
ghost use Rattle.scram_mech.specs.ThirdText.{bare_text, with_proof};
ghost use Rattle.scram_mech.specs.Secrets.{auth_message, masked, key_of_client};
ghost use Rattle.scram_mech.specs.Initiator.{proving, init_started, init_answered, init_finished};
ghost use Rattle.gss_base.specs.Mech.{oid_of};
ghost use Rattle.gss_base.specs.declared.mech.MechKind.TheVariants.{Scram};
ghost use Rattle.der_core.specs.Frame.{framed};

use crate::encoding::encode;
use crate::final_text::read_final;
use crate::first_text::put_first;
use crate::judging::{are_rounds, is_extended, judge, nobody};
use crate::refusal::ScramRefusal;
use crate::run::Class;
use crate::second_text::read_second;
use crate::secrets::{Secrets, auth_message, code_of, key_of_client, masked, same};
use crate::third_text::{put_bare, put_proof};
use der_core::frame;
use gss_base::{Bindings, Label, MechKind, binding_hash};
use krb_derive::Key;
use krb_tokens::MechDone;
use scram_bindings::{copied, data_of};
use sec_base::{Moment, NoMemory, Octets};
use std::alloc::Global;
use std::marker::Model;

/// The first text is out, and the acceptor's is due.
#[derive(Drop)]
pub struct ScramInit {
    user: Label,
    password: Octets,
    nonce: Octets,
    bindings: Option<Bindings>,
}

impl Model for ScramInit {
    ghost use Rattle.scram_mech.specs.Initiator.{InitModel};

    ghost Value = { InitModel };

    ghost view = { λ i.
        record { user = i.user; password = i.password; nonce = i.nonce; bindings = i.bindings } };
}

/// The proof is out, and the acceptor's signature is due.
#[derive(Drop)]
pub struct ScramWait {
    user: Label,
    hash: [u8; 16],
    auth: Octets,
    server: [u8; 20],
    key: Key,
}

impl Model for ScramWait {
    ghost use Rattle.scram_mech.specs.Initiator.{WaitModel};

    ghost Value = { WaitModel };

    ghost view = { λ w.
        record { user = w.user; hash = w.hash; auth = w.auth; server = w.server; key = w.key } };
}

/// The first text of a name and a nonce.
fn write_first(alloc: Global, user: &[u8], nonce: &[u8]) -> Result<Octets, NoMemory>
    ensures { IfOk result (λ o. o ≡ first_text user.now nonce.now) }
{
    let mut text = Vec::new(alloc);
    put_first(&mut text, user, nonce)?;
    Ok(Octets::from_vec(text))
}

/// The first text of a name and a nonce, framed.
fn first_token(alloc: Global, user: &[u8], nonce: &[u8]) -> Result<Octets, NoMemory>
    ensures { IfOk result
        (λ o. o ≡ framed.spell (oid_of Scram, first_text user.now nonce.now)) }
{
    let text = write_first(alloc, user, nonce)?;
    let token = frame(alloc, &MechKind::Scram.oid(), text.as_slice());
    drop(text);
    token
}

impl ScramInit {
    /// Begins an exchange as `user`, with 18 octets that were drawn for the nonce: the first token, framed. A user has 1 to 255 octets
    /// of printable ASCII, a password 1 to 1,024; where one isn't so, the place is its first octet that can't stand there.
    #[tactic(auto, unfolding(crate::specs::Initiator::init_started))]
    pub fn start(
        alloc: Global,
        user: &str,
        password: &str,
        nonce: &[u8; 18],
        bindings: Option<&Bindings>,
    ) -> Result<(ScramInit, Octets), ScramRefusal>
        ensures exact { Gives refusals.NoMemory (λ p. record { end = p.0; token = p.1 })
            result (init_started user.now password.now nonce.now
            (option_map (λ b. b.now) bindings.entry)) }
        ensures named { IfOk result (λ _. length user.now ≤ 255) }
    {
        judge(user.as_bytes(), Class::Printable, 255)?;
        judge(password.as_bytes(), Class::Printable, 1_024)?;
        let Some(label) = Label::new(user) else {
            unreachable!();
        };
        let nonce = encode(alloc, nonce)?;
        let token = first_token(alloc, user.as_bytes(), nonce.as_slice());
        let end = ScramInit::with_nonce(alloc, label, password.as_bytes(), nonce, bindings);
        match end.ok().zip(token.ok()) {
            Some(begun) => Ok(begun),
            None => Err(ScramRefusal::NoMemory),
        }
    }

    /// The end of a user with this nonce.
    fn with_nonce(
        alloc: Global,
        user: Label,
        password: &[u8],
        nonce: Octets,
        bindings: Option<&Bindings>,
    ) -> Result<ScramInit, NoMemory>
        ensures { IfOk result
            (λ i. i
            ≡ record {
              user = user;
              password = password.now;
              nonce = nonce;
              bindings =
                  option_map (λ b. b.now) bindings.entry;
            }) }
    {
        let password = Octets::of(alloc, password)?;
        let bindings = copied(alloc, bindings)?;
        Ok(ScramInit {
            user,
            password,
            nonce,
            bindings,
        })
    }
}

impl ScramInit {
    /// Takes the acceptor's first text: the text with the proof. The rounds are worked here, once, and only for a text that is taken.
    pub fn take_first(self, alloc: Global, text: &[u8]) -> Result<(ScramWait, Octets), ScramRefusal>
        ensures exact { Gives refusals.NoMemory (λ p. record { end = p.0; token = p.1 }) result
            (seen proving (init_answered self text.now)) }
        ensures short { IfOk result (λ p. length p.1 ≤ 44000) }
    {
        self.told_data();
        self.answered(alloc, text)
    }

    /// Does nothing: its contract says how much binding data there is at most.
    fn told_data(&self)
        ensures { length (data_in self.now.bindings) ≤ 32768 }
    {
        let _data = data_of(self.bindings.as_ref());
    }

    /// What `take_first` answers; the end stays.
    #[tactic(auto, unfolding(crate::specs::Initiator::init_answered, crate::specs::Secrets::proof_of))]
    pub fn answered(&self, alloc: Global, text: &[u8]) -> Result<(ScramWait, Octets), ScramRefusal>
        ensures { Gives refusals.NoMemory (λ p. record { end = p.0; token = p.1 }) result
            (seen proving (init_answered self.now text.now)) }
    {
        let second = read_second(text)?;
        if !is_extended(self.nonce.as_slice(), second.nonce) {
            return Err(ScramRefusal::Nonce);
        }
        let rounds = second.rounds.number();
        if !are_rounds(rounds) {
            return Err(ScramRefusal::Rounds);
        }
        let salt = second.salt.decode(alloc)?;
        let secrets = Secrets::of(self.password.as_slice(), salt.as_slice(), rounds as u32);
        let bare = write_bare(alloc, data_of(self.bindings.as_ref()), second.nonce)?;
        let auth = self.auth(alloc, text, bare.as_slice())?;
        let token = write_proof(alloc, bare, &secrets, auth.as_slice())?;
        Ok((self.waiting(&secrets, auth), token))
    }

    /// The AuthMessage with a second text, and with a third without its proof.
    fn auth(&self, alloc: Global, text: &[u8], bare: &[u8]) -> Result<Octets, NoMemory>
        ensures { IfOk result
            (λ o. o ≡ auth_message (first_text self.now.user self.now.nonce) text.now bare.now) }
    {
        let first = write_first(alloc, self.user.text().as_bytes(), self.nonce.as_slice())?;
        auth_message(alloc, first.as_slice(), text, bare)
    }

    /// What is kept until the signature comes.
    #[tactic(auto, unfolding(crate::specs::Secrets::key_of_client))]
    fn waiting(&self, secrets: &Secrets, auth: Octets) -> ScramWait
        ensures { result
            ≡ record {
              user = self.now.user;
              hash = hash_of self.now.bindings;
              auth = auth;
              server =
                  secrets.now.server;
              key = key_of_client secrets.now.stored secrets.now.client auth;
            } }
    {
        let key = key_of_client(&secrets.stored, &secrets.client, auth.as_slice());
        let server = secrets.server;
        ScramWait {
            user: self.user,
            hash: binding_hash(self.bindings.as_ref()),
            auth,
            server,
            key,
        }
    }
}

/// The third text of binding data and a nonce, without its proof.
fn write_bare(alloc: Global, binding: &[u8], nonce: &[u8]) -> Result<Octets, NoMemory>
    ensures { IfOk result (λ o. o ≡ bare_text binding.now nonce.now) }
{
    let mut text = Vec::new(alloc);
    put_bare(alloc, &mut text, binding, nonce)?;
    Ok(Octets::from_vec(text))
}

/// The third text with the proof of an AuthMessage.
#[tactic(auto, unfolding(crate::specs::ThirdText::with_proof))]
fn write_proof(
    alloc: Global,
    bare: Octets,
    secrets: &Secrets,
    auth: &[u8],
) -> Result<Octets, NoMemory>
    ensures { IfOk result
        (λ o. o ≡ with_proof bare (masked secrets.now.stored auth.now secrets.now.client)) }
{
    let proof = masked(&secrets.stored, auth, &secrets.client);
    let mut text = bare.into_vec();
    put_proof(alloc, &mut text, &proof)?;
    Ok(Octets::from_vec(text))
}

impl ScramWait {
    /// Takes the acceptor's final text. The end is spent, whatever the answer.
    pub fn take_final(self, alloc: Global, text: &[u8]) -> Result<MechDone, ScramRefusal>
        ensures { Gives refusals.NoMemory (λ d. d) result
            (seen (λ f. f.done) (init_finished self text.now)) }
    {
        self.finished(alloc, text)
    }

    /// What `take_final` answers; the end stays.
    #[tactic(auto, unfolding(crate::specs::Initiator::init_finished, crate::specs::Secrets::signature_of))]
    pub fn finished(&self, alloc: Global, text: &[u8]) -> Result<MechDone, ScramRefusal>
        ensures { Gives refusals.NoMemory (λ d. d) result
            (seen (λ f. f.done) (init_finished self.now text.now)) }
    {
        let signature = read_final(text)?.decode(alloc)?;
        let due = code_of(&self.server, self.auth.as_slice());
        if !same(&due, signature.as_slice()) {
            drop(signature);
            return Err(ScramRefusal::Signature);
        }
        Ok(MechDone {
            key: self.key,
            subkey: false,
            initiator: self.user,
            acceptor: nobody(),
            hash: self.hash,
            ends: Moment::greatest(),
            first: 0,
        })
    }
}
