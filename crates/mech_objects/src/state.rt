//! The state of Kerberos or SCRAM, which an object keeps between two tokens.

ghost use Rattle.std.specs.Prelude.{◌≡◌, IfOk, map, option_map};
ghost use Rattle.sec_base.specs.Answers.{Gives};
ghost use Rattle.ap_exchange.specs.Draws.{drawn_nonce};
ghost use Rattle.ap_exchange.specs.Request.{request_of, request_makes};
ghost use Rattle.scram_mech.specs.MechMaking.{typed};
ghost use Rattle.scram_mech.specs.Initiator.{init_started, init_answered, init_finished};
ghost use Rattle.spnego_core.specs.InitMech.{begun_with, request_begun, text_begun};
ghost use Rattle.spnego_core.specs.Sizes.{FitsBeside};
ghost use Rattle.mech_objects.specs.Meaning.{as_end};
ghost use Rattle.mech_objects.specs.Standard.{answered, begun, final_answered, text_answered};
ghost use Rattle.mech_objects.specs.States.{FitsAnswer, answered_in, begun_in, mech_in};

use crate::ask::MechAsk;
use ap_exchange::{ApInit, nonce_of};
use gss_base::Bindings;
use krb_files::Credential;
use krb_tokens::MechDone;
use scram_mech::{ScramInit, ScramWait};
use sec_base::{Moment, Octets, Text};
use spnego_core::{MechCred, NegRefusal, ap_refused, scram_refused};
use std::alloc::Global;

/// A mechanism whose first token was sent.
#[derive(Drop)]
pub enum MechState {
    /// Kerberos waits for the reply.
    Kerberos(ApInit),
    /// SCRAM waits for the acceptor's first text.
    Scram(ScramInit),
    /// SCRAM sent its proof, and waits for the signature.
    Proof(ScramWait),
}

/// What it makes of a token.
#[derive(Drop)]
pub enum StateAnswer {
    /// It goes on in this state, with a token.
    More(MechState, Octets),
    /// It is done.
    Done(MechDone),
}

/// Kerberos begins with this credential.
fn request_begun(
    alloc: Global,
    credential: &Credential,
    stamp: Moment,
    draws: &[u8; 66],
    bindings: Option<&Bindings>,
) -> Result<(MechState, Octets), NegRefusal>
    ensures exact { let bound =
        option_map (λ b. b.now) bindings.entry in Gives NegRefusal.NoMemory begun_in result
        (begun_with (request_begun (map typed (request_makes credential.now stamp draws.now bound))
        (request_of credential.now stamp draws.now bound))) }
    ensures short { IfOk result (λ b. FitsBeside b.1) }
{
    let _ticket = &credential.ticket;
    let _label = credential.client.label();
    match ApInit::start(alloc, credential, stamp, draws, bindings) {
        Ok((end, token)) => Ok((MechState::Kerberos(end), token)),
        Err(refusal) => Err(ap_refused(refusal)),
    }
}

/// SCRAM begins with this user and password.
fn text_begun(
    alloc: Global,
    user: &Text,
    password: &Text,
    draws: &[u8; 66],
    bindings: Option<&Bindings>,
) -> Result<(MechState, Octets), NegRefusal>
    ensures exact { let bound = option_map
        (λ b. b.now) bindings.entry in Gives NegRefusal.NoMemory begun_in result (begun_with
        (text_begun (init_started user.now password.now (drawn_nonce draws.now) bound))) }
    ensures short { IfOk result (λ b. FitsBeside b.1) }
{
    let (user, password) = (user.as_str(), password.as_str());
    match ScramInit::start(alloc, user, password, &nonce_of(draws), bindings) {
        Ok((end, token)) => Ok((MechState::Scram(end), token)),
        Err(refusal) => Err(scram_refused(refusal)),
    }
}

/// The answer to the acceptor's first text.
fn text_answered(alloc: Global, end: ScramInit, text: &[u8]) -> Result<StateAnswer, NegRefusal>
    ensures exact { Gives NegRefusal.NoMemory answered_in result
        (as_end (text_answered (init_answered end text.now))) }
    ensures short { IfOk result FitsAnswer }
{
    match end.take_first(alloc, text) {
        Ok((end, token)) => Ok(StateAnswer::More(MechState::Proof(end), token)),
        Err(refusal) => Err(scram_refused(refusal)),
    }
}

/// What the signature gives.
fn final_answered(alloc: Global, end: ScramWait, text: &[u8]) -> Result<StateAnswer, NegRefusal>
    ensures exact { Gives NegRefusal.NoMemory answered_in result
        (as_end (final_answered (init_finished end text.now))) }
    ensures short { IfOk result FitsAnswer }
{
    match end.take_final(alloc, text) {
        Ok(made) => Ok(StateAnswer::Done(made)),
        Err(refusal) => Err(scram_refused(refusal)),
    }
}

impl MechState {
    /// A mechanism begins with this credential: its state and its first token.
    #[tactic(auto, unfolding(crate::specs::Standard::begun))]
    pub fn begin(
        alloc: Global,
        cred: &MechCred,
        ask: &MechAsk,
    ) -> Result<(MechState, Octets), NegRefusal>
        ensures exact { Gives NegRefusal.NoMemory begun_in result
            (begun_with (begun cred.now ask.now)) }
        ensures short { IfOk result (λ b. FitsBeside b.1) }
    {
        let bindings = ask.bindings.as_ref();
        match cred {
            MechCred::Kerberos { credential, .. } => {
                request_begun(alloc, credential, ask.stamp, &ask.draws, bindings)
            }
            MechCred::Scram { user, password } => {
                text_begun(alloc, user, password, &ask.draws, bindings)
            }
        }
    }

    /// What the mechanism makes of a token. The state is spent, whatever the answer.
    #[tactic(auto, unfolding(crate::specs::Standard::answered))]
    pub fn take(self, alloc: Global, token: &[u8]) -> Result<StateAnswer, NegRefusal>
        ensures exact { Gives NegRefusal.NoMemory answered_in result
            (as_end (answered (mech_in self) token.now)) }
        ensures short { IfOk result FitsAnswer }
    {
        match self {
            MechState::Kerberos(end) => match end.take_reply(alloc, token) {
                Ok(made) => Ok(StateAnswer::Done(made)),
                Err(refusal) => Err(ap_refused(refusal)),
            },
            MechState::Scram(end) => text_answered(alloc, end, token),
            MechState::Proof(end) => final_answered(alloc, end, token),
        }
    }
}
