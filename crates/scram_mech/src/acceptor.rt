//! The acceptor's end.

ghost use Rattle.std.specs.Prelude.{◌≡◌, ◌≤◌, ◌++◌, length, IfOk, option_map};
ghost use Rattle.scram_mech.specs.Base64.{InRange, decoded, encoded};
ghost use Rattle.scram_mech.specs.Judging.{demand, same};
ghost use Rattle.scram_mech.specs.Acceptor.{accept_with};
ghost use Rattle.sec_base.specs.Answers.{Gives};
ghost use Rattle.scram_mech.specs.declared.refusal.ScramRefusal.TheVariants as refusals;
ghost use Rattle.scram_mech.specs.Reading.{seen};
ghost use Rattle.scram_mech.specs.SecondText.{second_text};
ghost use Rattle.scram_mech.specs.Acceptor.{accepting, nonce_of, second_by, auth_with, is_proof};
ghost use Rattle.scram_mech.specs.Secrets.{masked, signature_of};
ghost use Rattle.scram_mech.specs.FinalText.{final_text};
ghost use Rattle.scram_bindings.specs.Carried.{carried, is_bound};
ghost use Rattle.gss_base.specs.Bindings.{hash_of};
ghost use Rattle.scram_mech.specs.Acceptor.{accept_started, accept_finished};

use crate::encoding::{Encoded, encode};
use crate::final_text::write_final;
use crate::first_text::read_first;
use crate::judging::{nobody, unframed};
use crate::name::unescape;
use crate::refusal::ScramRefusal;
use crate::second_text::put_second;
use crate::secrets::{auth_message, code_of, key_of_client, masked, same, twenty};
use crate::texts::put;
use crate::third_text::read_third;
use crate::verifiers::{Verifier, Verifiers};
use gss_base::{Bindings, binding_hash};
use krb_tokens::MechDone;
use scram_bindings::{bindings_of, is_bound};
use sec_base::{Moment, NoMemory, Octets};
use sha1::Sha1;
use std::alloc::Global;
use std::marker::Model;

/// The microseconds that a context lasts.
const LIFE: u64 = 86_400_000_000;

/// The acceptor's first text is out, and the proof is due.
#[derive(Drop)]
pub struct ScramAccept {
    line: Verifier,
    first: Octets,
    client: Octets,
    own: Octets,
}

impl Model for ScramAccept {
    ghost use Rattle.scram_mech.specs.Acceptor.{AcceptModel};

    ghost Value = { AcceptModel };

    ghost view = { λ a. record { line = a.line; first = a.first; client = a.client; own = a.own } };
}

impl ScramAccept {
    /// Takes an initiator's first token, framed, with 18 octets that were drawn for the nonce: the acceptor's first text.
    pub fn start(
        alloc: Global,
        verifiers: &Verifiers,
        token: &[u8],
        nonce: &[u8; 18],
    ) -> Result<(ScramAccept, Octets), ScramRefusal>
        ensures exact { Gives refusals.NoMemory (λ p. record { end = p.0; token = p.1 }) result
            (accept_started verifiers.now token.now nonce.now) }
        ensures short { IfOk result (λ p. length p.1 ≤ 1024) }
    {
        verifiers.told_lines();
        ScramAccept::started(alloc, verifiers, token, nonce)
    }

    #[tactic(auto, unfolding(crate::specs::Acceptor::accept_started))]
    fn started(
        alloc: Global,
        verifiers: &Verifiers,
        token: &[u8],
        nonce: &[u8; 18],
    ) -> Result<(ScramAccept, Octets), ScramRefusal>
        ensures { Gives refusals.NoMemory (λ p. record { end = p.0; token = p.1 }) result
            (accept_started verifiers.now token.now nonce.now) }
    {
        let text = unframed(token)?;
        let first = read_first(text)?;
        let name = unescape(alloc, first.name)?;
        let found = verifiers.find(name.as_slice());
        drop(name);
        let Some(line) = found else {
            return Err(ScramRefusal::NoUser);
        };
        let accept = ScramAccept::with_line(alloc, line, text, first.nonce, nonce)?;
        let answer = accept.with_second(alloc)?;
        Ok(answer)
    }

    /// The end by a user's line, the first text, the initiator's nonce in it, and what was drawn for the own one.
    fn with_line(
        alloc: Global,
        line: &Verifier,
        text: &[u8],
        client: &[u8],
        nonce: &[u8; 18],
    ) -> Result<ScramAccept, NoMemory>
        ensures { IfOk result
            (λ a. a ≡ accept_with text.now client.now line.now (encoded nonce.now)) }
    {
        let own = encode(alloc, nonce)?;
        let client = Octets::of(alloc, client)?;
        let first = Octets::of(alloc, text)?;
        let line = line.copied(alloc)?;
        Ok(ScramAccept {
            line,
            first,
            client,
            own,
        })
    }

    /// The end with its second text.
    fn with_second(self, alloc: Global) -> Result<(ScramAccept, Octets), NoMemory>
        ensures { IfOk result (λ p. (p.0 ≡ self) × (p.1 ≡ second_by self)) }
    {
        match self.second(alloc) {
            Ok(token) => Ok((self, token)),
            Err(_) => {
                drop(self);
                Err(NoMemory)
            }
        }
    }

    /// The whole nonce.
    fn nonce(&self, alloc: Global) -> Result<Octets, NoMemory>
        ensures { IfOk result (λ o. o ≡ nonce_of self.now) }
    {
        let mut nonce = Vec::new(alloc);
        put(&mut nonce, self.client.as_slice())?;
        put(&mut nonce, self.own.as_slice())?;
        Ok(Octets::from_vec(nonce))
    }

    /// The second text.
    fn second(&self, alloc: Global) -> Result<Octets, NoMemory>
        ensures { IfOk result (λ o. o ≡ second_by self.now) }
    {
        let nonce = self.nonce(alloc)?;
        let mut text = Vec::new(alloc);
        let salt = self.line.salt.as_slice();
        put_second(alloc, &mut text, nonce.as_slice(), salt, self.line.rounds)?;
        Ok(Octets::from_vec(text))
    }

    /// The AuthMessage with a third text without its proof.
    fn auth(&self, alloc: Global, bare: &[u8]) -> Result<Octets, NoMemory>
        ensures { IfOk result (λ o. o ≡ auth_with self.now bare.now) }
    {
        let second = self.second(alloc)?;
        auth_message(alloc, self.first.as_slice(), second.as_slice(), bare)
    }

    /// Takes the text with the proof: what the exchange gives, and the final text. The end is spent, whatever the answer. An acceptor
    /// without bindings takes whatever data come; the context ends a day after `now`.
    pub fn finish(
        self,
        alloc: Global,
        text: &[u8],
        bindings: Option<&Bindings>,
        now: Moment,
    ) -> Result<(MechDone, Octets), ScramRefusal>
        ensures exact { Gives
            refusals.NoMemory (λ p. record { done = p.0; token = p.1 }) result (seen accepting
            (accept_finished self text.now (option_map (λ b. b.now) bindings.entry) now)) }
        ensures short { IfOk result (λ p. length p.1 ≤ 1024) }
    {
        self.finished(alloc, text, bindings, now)
    }

    /// What `finish` answers; the end stays.
    /// It stands apart, so that its definition is unfolded here alone, and the other clauses are proved from what is said here.
    #[tactic(auto, unfolding(crate::specs::Acceptor::accept_finished, crate::specs::Secrets::context_key))]
    pub fn finished(
        &self,
        alloc: Global,
        text: &[u8],
        bindings: Option<&Bindings>,
        now: Moment,
    ) -> Result<(MechDone, Octets), ScramRefusal>
        ensures { Gives
            refusals.NoMemory (λ p. record { done = p.0; token = p.1 }) result (seen accepting
            (accept_finished self.now text.now (option_map (λ b. b.now) bindings.entry) now)) }
    {
        let third = read_third(text)?;
        self.judge_nonce(alloc, third.nonce)?;
        let hash = hash_judged(alloc, bindings, &third.binding)?;
        let auth = self.auth(alloc, third.bare)?;
        let client = self.client_judged(alloc, auth.as_slice(), &third.proof)?;
        let token = self.final_token(alloc, auth.as_slice())?;
        let done = MechDone {
            key: key_of_client(&self.line.stored, &client, auth.as_slice()),
            subkey: false,
            initiator: self.line.name,
            acceptor: nobody(),
            hash,
            ends: now.later(LIFE),
            first: 0,
        };
        Ok((done, token))
    }

    /// Judges the nonce of a third text.
    fn judge_nonce(&self, alloc: Global, nonce: &[u8]) -> Result<(), ScramRefusal>
        ensures { Gives refusals.NoMemory (λ u. u) result
            (demand (same nonce.now (nonce_of self.now)) refusals.Nonce) }
    {
        let own = self.nonce(alloc)?;
        if same(nonce, own.as_slice()) {
            Ok(())
        } else {
            Err(ScramRefusal::Nonce)
        }
    }

    /// The client key that a proof gives with an AuthMessage, whose digest is the stored key.
    fn client_judged(
        &self,
        alloc: Global,
        auth: &[u8],
        proof: &Encoded<'_>,
    ) -> Result<[u8; 20], ScramRefusal>
        requires { InRange 20 20 (decoded proof.now.signs.now) }
        ensures judged { Gives refusals.NoMemory (λ _. tt) result (demand
            (is_proof self.now.line.stored auth.now (decoded proof.now.signs.now)) refusals.Proof) }
        ensures key { IfOk result
            (λ k. k ≡ masked self.now.line.stored auth.now (decoded proof.now.signs.now)) }
    {
        let proof = proof.decode(alloc)?;
        let client = masked(&self.line.stored, auth, &twenty(proof.as_slice()));
        if same(&Sha1::digest(&client), &self.line.stored) {
            Ok(client)
        } else {
            Err(ScramRefusal::Proof)
        }
    }

    /// The final text by an AuthMessage.
    #[tactic(auto, unfolding(crate::specs::Secrets::signature_of))]
    fn final_token(&self, alloc: Global, auth: &[u8]) -> Result<Octets, NoMemory>
        ensures { IfOk result (λ o. o ≡ final_text (signature_of self.now.line.server auth.now)) }
    {
        let signature = code_of(&self.line.server, auth);
        write_final(alloc, &signature)
    }
}

/// The hash of the binding data of a third text, which an acceptor with bindings takes only where they are its own.
fn hash_judged(
    alloc: Global,
    bindings: Option<&Bindings>,
    binding: &Encoded<'_>,
) -> Result<[u8; 16], ScramRefusal>
    requires { InRange 0 32768 (decoded binding.now.signs.now) }
    ensures judged { Gives refusals.NoMemory (λ _. tt) result (demand
        (is_bound (option_map (λ b. b.now) bindings.entry) (decoded binding.now.signs.now))
        refusals.Bindings) }
    ensures hash { IfOk result (λ h. h ≡ hash_of (carried (decoded binding.now.signs.now))) }
{
    let data = binding.decode(alloc)?;
    if is_bound(bindings, data.as_slice()) {
        Ok(binding_hash(bindings_of(data).as_ref()))
    } else {
        drop(data);
        Err(ScramRefusal::Bindings)
    }
}
