//! What an initiator answers once a mechanism is done, RFC 4178 section 5.

ghost use Rattle.std.specs.Prelude.{◌≡◌, IfOk, Ok, true};
ghost use Rattle.sec_base.specs.Answers.{Gives};
ghost use Rattle.krb_tokens.specs.declared.end.Side.TheVariants.{Initiator};
ghost use Rattle.spnego_core.specs.ListMic.{is_list_mic};
ghost use Rattle.spnego_core.specs.Tokens.{resp_octets};
ghost use Rattle.spnego_core.specs.Sizes.{IsShort};
ghost use Rattle.spnego_core.specs.Initiating.{mic_sent};
ghost use Rattle.init_ends.specs.Objects.{is_first_named};
ghost use Rattle.init_ends.specs.Ends.{step_means, holds_after, ShortStep};
ghost use Rattle.init_ends.specs.Initiating.{own_mic, ended, is_mic_owed, looks, looks_again};

use crate::ends::{InitEnd, InitStep, Signed, Talk};
use crate::lists::is_named;
use krb_tokens::Side;
use sec_base::{NoMemory, Octets, Oid};
use spnego_core::list_mic::{is_list_mic, list_mic};
use spnego_core::tokens::resp_octets;
use spnego_core::{NegRefusal, Outcome, completes_later, completes_now};
use spnego_msgs::{NegResp, NegState};
use std::alloc::Global;

/// The token with the own MIC.
fn mic_sent(alloc: Global, talk: &Talk, outcome: &Outcome) -> Result<Octets, NoMemory>
    ensures exact { IfOk result (λ o. o ≡ resp_octets (mic_sent (own_mic talk.now outcome.now))) }
    ensures short { IfOk result IsShort }
{
    let mic = list_mic(alloc, outcome, Side::Initiator, talk.list.as_slice())?;
    let resp = NegResp {
        state: Some(NegState::Completed),
        mech: None,
        token: None,
        mic: Some(mic),
    };
    resp_octets(alloc, &resp)
}

/// The end of a mechanism that is done: the outcome where all is complete, else the own MIC is sent.
fn ended(
    alloc: Global,
    talk: Talk,
    outcome: Outcome,
    listed: bool,
    completes: bool,
) -> Result<InitStep, NoMemory>
    ensures exact { IfOk result (λ s. step_means meaning s ≡ ended talk outcome listed completes) }
    ensures held { IfOk result (λ s. holds_after (step_means meaning s) ≡ true) }
    ensures short { IfOk result (λ s. ShortStep (step_means meaning s)) }
{
    if completes {
        return Ok(InitStep::Done(outcome));
    }
    let octets = mic_sent(alloc, &talk, &outcome)?;
    let signed = Signed {
        talk,
        outcome,
        listed,
    };
    Ok(InitStep::More(InitEnd::Signed(signed), octets))
}

/// Whether the first of the own list is named.
fn is_first_named(list: &[Oid], oid: &Oid) -> bool
    ensures { result ≡ is_first_named list.now oid.now }
{
    match list {
        [] => false,
        [first, ..] => is_named(oid, first),
    }
}

/// Whether the acceptor's MIC must come.
fn is_mic_owed(talk: &Talk) -> bool
    ensures { result ≡ is_mic_owed talk.now }
{
    !is_first_named(talk.list.as_slice(), &talk.chosen) || talk.asked
}

/// Takes a MIC of the acceptor over the own list.
fn listed(alloc: Global, talk: &Talk, outcome: &Outcome, mic: &Octets) -> Result<bool, NegRefusal>
    ensures { Gives NegRefusal.NoMemory (λ b. b) result
        (Ok (is_list_mic outcome.now Initiator talk.now.list mic.now)) }
{
    is_list_mic(alloc, outcome, Side::Initiator, talk.list.as_slice(), mic)
}

/// The step that the reply with the mechanism's last token leads to.
pub fn looks(
    alloc: Global,
    talk: Talk,
    outcome: Outcome,
    state: Option<NegState>,
    mic: &Option<Octets>,
) -> Result<InitStep, NegRefusal>
    ensures exact { Gives NegRefusal.NoMemory (step_means meaning) result
        (looks talk outcome state mic.now) }
    ensures held { IfOk result (λ s. holds_after (step_means meaning s) ≡ true) }
    ensures short { IfOk result (λ s. ShortStep (step_means meaning s)) }
{
    match mic {
        None => {
            let owed = is_mic_owed(&talk);
            if owed {
                drop(talk);
                return Err(NegRefusal::MicMissing);
            }
            let step = ended(alloc, talk, outcome, false, completes_now(state, false))?;
            Ok(step)
        }
        Some(mic) => {
            if !listed(alloc, &talk, &outcome, mic)? {
                drop(talk);
                return Err(NegRefusal::MicBad);
            }
            let step = ended(alloc, talk, outcome, true, completes_now(state, true))?;
            Ok(step)
        }
    }
}

/// The step that a reply to the own MIC leads to.
pub fn looks_again(
    alloc: Global,
    signed: Signed,
    state: Option<NegState>,
    mic: &Option<Octets>,
) -> Result<InitStep, NegRefusal>
    ensures exact { Gives NegRefusal.NoMemory (step_means meaning) result
        (looks_again signed state mic.now) }
    ensures held { IfOk result (λ s. holds_after (step_means meaning s) ≡ true) }
    ensures short { IfOk result (λ s. ShortStep (step_means meaning s)) }
{
    if let Some(mic) = mic {
        if !listed(alloc, &signed.talk, &signed.outcome, mic)? {
            drop(signed);
            return Err(NegRefusal::MicBad);
        }
    }
    let completes = completes_later(state);
    let outcome = signed.outcome;
    drop(signed);
    if completes {
        Ok(InitStep::Done(outcome))
    } else {
        Err(NegRefusal::Defective { at: 0 })
    }
}
