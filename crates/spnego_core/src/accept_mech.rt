//! The mechanisms at the acceptor.

ghost use Rattle.std.specs.Prelude.{◌≡◌, ◌≢◌, [], IfOk, IfErr, option_map};
ghost use Rattle.sec_base.specs.Answers.{Gives};
ghost use Rattle.ap_exchange.specs.Draws.{drawn_nonce};
ghost use Rattle.scram_mech.specs.Acceptor.{accept_started, accept_finished};
ghost use Rattle.spnego_core.specs.Sizes.{ShortTold};
ghost use Rattle.spnego_core.specs.AcceptMech.{accept_begun, request_answered, text_taken};
ghost use Rattle.spnego_core.specs.AcceptMech.{proof_taken, accept_taken, answered};

use crate::outcome::{Outcome, outcome_of};
use crate::refusal::{NegRefusal, ap_refused, scram_refused};
use crate::setup::AcceptSetup;
use ap_exchange::{Judged, judge_request, nonce_of};
use gss_base::{Bindings, Mark, MechKind};
use scram_mech::{ScramAccept, Verifiers};
use sec_base::{Moment, Octets};
use std::alloc::Global;

/// A mechanism that isn't done.
#[derive(Drop)]
pub enum AcceptMech {
    /// Kerberos waits for a request.
    Kerberos,
    /// SCRAM waits for the initiator's first text.
    Scram,
    /// SCRAM waits for the text with the proof.
    Proof(ScramAccept),
}

/// What a mechanism says to a token.
#[derive(Drop)]
pub enum AcceptAnswer {
    /// It goes on, with a token.
    More(AcceptMech, Octets),
    /// It is done, with a last token; the context ends at this moment.
    Done(Outcome, Moment, Octets),
    /// It is done so unless this mark was taken before.
    Pauses(Mark, Outcome, Moment, Octets),
}

/// A mechanism before its first token.
pub fn accept_begun(kind: MechKind) -> AcceptMech
    ensures { result ≡ accept_begun kind }
{
    match kind {
        MechKind::Kerberos => AcceptMech::Kerberos,
        MechKind::Scram => AcceptMech::Scram,
    }
}

/// The answer to a request that was judged.
fn request_answered(
    alloc: Global,
    request: Judged,
    draws: &[u8; 66],
) -> Result<AcceptAnswer, NegRefusal>
    ensures answer { IfOk result
        (λ answer. answer ≡ (request_answered draws.now [] request).answer) }
    ensures short { IfOk result ShortTold }
    ensures memory { IfErr result (λ refusal. refusal ≡ NegRefusal.NoMemory) }
{
    request_told(alloc, request, draws)
}

/// What `request_answered` answers.
/// It stands apart, so that the other clauses are proved from what is said here.
fn request_told(
    alloc: Global,
    request: Judged,
    draws: &[u8; 66],
) -> Result<AcceptAnswer, NegRefusal>
    ensures answer { IfOk result
        (λ answer. answer ≡ (request_answered draws.now [] request).answer) }
    ensures memory { IfErr result (λ refusal. refusal ≡ NegRefusal.NoMemory) }
{
    let mark = request.mark();
    let lasts = request.ends;
    let (made, token) = request.answer(alloc, draws)?;
    let outcome = outcome_of(MechKind::Kerberos, &made);
    Ok(AcceptAnswer::Pauses(mark, outcome, lasts, token))
}

/// The answer to SCRAM's first text.
fn text_taken(
    alloc: Global,
    verifiers: &Verifiers,
    token: &[u8],
    draws: &[u8; 66],
) -> Result<AcceptAnswer, NegRefusal>
    ensures short { IfOk result ShortTold }
    ensures exact { Gives NegRefusal.NoMemory (λ a. a) result
        (answered (text_taken (accept_started verifiers.now token.now (drawn_nonce draws.now)))) }
{
    match ScramAccept::start(alloc, verifiers, token, &nonce_of(draws)) {
        Ok((end, text)) => Ok(AcceptAnswer::More(AcceptMech::Proof(end), text)),
        Err(refusal) => Err(scram_refused(refusal)),
    }
}

/// The answer to the text with the proof.
fn proof_taken(
    alloc: Global,
    end: ScramAccept,
    token: &[u8],
    bindings: Option<&Bindings>,
    now: Moment,
) -> Result<AcceptAnswer, NegRefusal>
    ensures short { IfOk result ShortTold }
    ensures exact { let bound =
        option_map (λ b. b.now) bindings.entry in Gives NegRefusal.NoMemory (λ a. a) result
        (answered (proof_taken end token.now (accept_finished end token.now bound now))) }
{
    match end.finish(alloc, token, bindings, now) {
        Ok((made, text)) => {
            let lasts = made.ends;
            let outcome = outcome_of(MechKind::Scram, &made);
            Ok(AcceptAnswer::Done(outcome, lasts, text))
        }
        Err(refusal) => Err(scram_refused(refusal)),
    }
}

impl AcceptMech {
    /// What the mechanism says to a token, at this moment.
    #[tactic(auto, unfolding(crate::specs::AcceptMech::accept_taken))]
    pub fn take(
        self,
        alloc: Global,
        setup: &AcceptSetup,
        token: &[u8],
        now: Moment,
        draws: &[u8; 66],
    ) -> Result<AcceptAnswer, NegRefusal>
        ensures short { IfOk result ShortTold }
        ensures exact { Gives NegRefusal.NoMemory (λ a. a) result
            (answered (accept_taken setup.now self token.now now draws.now)) }
    {
        let bindings = setup.bindings.as_ref();
        match self {
            AcceptMech::Kerberos => {
                match judge_request(alloc, &setup.keytab, &setup.own, now, bindings, token) {
                    Ok(request) => request_answered(alloc, request, draws),
                    Err(refusal) => Err(ap_refused(refusal)),
                }
            }
            AcceptMech::Scram => text_taken(alloc, &setup.verifiers, token, draws),
            AcceptMech::Proof(end) => proof_taken(alloc, end, token, bindings, now),
        }
    }
}
