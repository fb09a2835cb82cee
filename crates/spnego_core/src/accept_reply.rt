//! What an acceptor answers.

ghost use Rattle.std.specs.Prelude.{◌≡◌, IfOk, IfErr, IfSome, Some, None, Ok, true};
ghost use Rattle.sec_base.specs.Answers.{Gives};
ghost use Rattle.spnego_core.specs.AcceptMech.{answered};
ghost use Rattle.spnego_core.specs.Sizes.{IsShort, FitsBeside, IsMicSized, ShortTold};
ghost use Rattle.spnego_core.specs.Sizes.{ShortAnswered, ShortAccept};
ghost use Rattle.spnego_core.specs.Tokens.{alone};
ghost use Rattle.spnego_core.specs.Accepting.{state_said, mech_said, octets_of, reply_with, reply};
ghost use Rattle.spnego_core.specs.Accepting.{finished, going, told, owes, oid_chosen};
ghost use Rattle.spnego_core.specs.ListMic.{list_mic};
ghost use Rattle.krb_tokens.specs.declared.end.Side.TheVariants.{Acceptor};

use crate::accept_end::{
    AcceptEnd, AcceptPause, AcceptStep, Answered, Chosen, Owing, Running, Turn, gone_on,
};
use crate::accept_mech::{AcceptAnswer, AcceptMech};
use crate::choice::listed_as;
use crate::list_mic::list_mic;
use crate::outcome::Outcome;
use crate::tokens::resp_octets;
use krb_tokens::Side;
use sec_base::{Moment, NoMemory, Octets, Oid};
use spnego_msgs::{NegResp, NegState};
use std::alloc::Global;

/// What a reply says of the negotiation.
fn state_said(turn: Turn, owes: bool, finished: bool) -> Option<NegState>
    ensures { result ≡ state_said turn owes finished }
{
    match turn {
        Turn::First => {
            if owes {
                Some(NegState::RequestMic)
            } else if finished {
                Some(NegState::Completed)
            } else {
                Some(NegState::Incomplete)
            }
        }
        Turn::Later => {
            if owes {
                Some(NegState::Incomplete)
            } else if finished {
                Some(NegState::Completed)
            } else {
                Some(NegState::Incomplete)
            }
        }
        Turn::Bare => None,
    }
}

/// The mechanism as the first reply names it, by this identifier.
fn mech_said(turn: Turn, oid: Oid) -> Option<Oid>
    ensures { result ≡ mech_said turn oid }
{
    match turn {
        Turn::First => Some(oid),
        Turn::Later => None,
        Turn::Bare => None,
    }
}

/// The mechanism's token where it stands alone.
fn alone(alloc: Global, token: Option<Octets>) -> Octets
    ensures { result ≡ alone token }
{
    match token {
        Some(token) => token,
        None => Octets::from_vec(Vec::new(alloc)),
    }
}

/// The octets of a reply in its turn.
fn octets_of(alloc: Global, turn: Turn, resp: NegResp) -> Result<Octets, NoMemory>
    ensures { IfOk result (λ o. o ≡ octets_of turn resp) }
{
    match turn {
        Turn::First => resp_octets(alloc, &resp),
        Turn::Later => resp_octets(alloc, &resp),
        Turn::Bare => Ok(alone(alloc, resp.token)),
    }
}

/// A reply's octets.
fn reply(
    alloc: Global,
    turn: Turn,
    oid: Oid,
    owes: bool,
    finished: bool,
    token: Option<Octets>,
    mic: Option<Octets>,
) -> Result<Octets, NoMemory>
    ensures exact { IfOk result (λ o. o ≡ reply turn oid owes finished token mic) }
    ensures short { IfSome token FitsBeside → IfSome mic IsMicSized → IfOk result IsShort }
{
    let _content = oid.content();
    let resp = NegResp {
        state: state_said(turn, owes, finished),
        mech: mech_said(turn, oid),
        token,
        mic,
    };
    octets_of(alloc, turn, resp)
}

/// What follows a mechanism that is done.
fn finished(
    alloc: Global,
    turn: Turn,
    chosen: Chosen,
    outcome: Outcome,
    lasts: Moment,
    token: Octets,
) -> Result<Answered, NoMemory>
    ensures exact { IfOk result (λ a. a ≡ finished turn chosen outcome lasts token) }
    ensures short { FitsBeside token → IfOk result ShortAnswered }
{
    if chosen.due {
        owes(alloc, turn, chosen, outcome, lasts, token)
    } else {
        let oid = listed_as(chosen.received.as_slice(), chosen.kind);
        drop(chosen);
        let octets = reply(alloc, turn, oid, false, true, Some(token), None)?;
        Ok(Answered::Done(outcome, lasts, octets))
    }
}

/// What follows a mechanism that is done, where the initiator's MIC is due.
fn owes(
    alloc: Global,
    turn: Turn,
    chosen: Chosen,
    outcome: Outcome,
    lasts: Moment,
    token: Octets,
) -> Result<Answered, NoMemory>
    ensures exact { IfOk result (λ a. a ≡ owes turn chosen outcome lasts token) }
    ensures short { FitsBeside token → IfOk result ShortAnswered }
{
    let octets = reply_with_mic(alloc, turn, &chosen, &outcome, token)?;
    let owing = Owing {
        received: chosen.received,
        outcome,
        lasts,
    };
    Ok(Answered::More(AcceptEnd::Owes(owing), octets))
}

/// The octets of the reply that has the mechanism's last token and the own MIC.
fn reply_with_mic(
    alloc: Global,
    turn: Turn,
    chosen: &Chosen,
    outcome: &Outcome,
    token: Octets,
) -> Result<Octets, NoMemory>
    ensures exact { IfOk result (λ o. o ≡ reply turn (oid_chosen chosen.now) true true (Some token)
        (Some (list_mic outcome.now Acceptor chosen.now.received))) }
    ensures short { FitsBeside token → IfOk result IsShort }
{
    let oid = listed_as(chosen.received.as_slice(), chosen.kind);
    let mic = list_mic(alloc, outcome, Side::Acceptor, chosen.received.as_slice())?;
    reply(alloc, turn, oid, true, true, Some(token), Some(mic))
}

/// The mechanism goes on, and nothing else changes.
pub fn going(
    alloc: Global,
    turn: Turn,
    chosen: Chosen,
    mech: AcceptMech,
    token: Option<Octets>,
) -> Result<AcceptStep, NoMemory>
    ensures exact { IfOk result (λ s. s ≡ going turn chosen mech token) }
    ensures short { IfSome token FitsBeside → IfOk result ShortAccept }
{
    let oid = listed_as(chosen.received.as_slice(), chosen.kind);
    let running = Running { chosen, mech };
    match reply(alloc, turn, oid, running.chosen.due, false, token, None) {
        Ok(octets) => Ok(AcceptStep::More(AcceptEnd::Runs(running), octets)),
        Err(refusal) => {
            drop(running);
            Err(refusal)
        }
    }
}

/// The step by the mechanism's answer.
pub fn told(
    alloc: Global,
    turn: Turn,
    chosen: Chosen,
    answer: AcceptAnswer,
) -> Result<AcceptStep, NoMemory>
    ensures exact { IfOk result (λ s. s ≡ told turn chosen answer) }
    ensures short { ShortTold answer → IfOk result ShortAccept }
{
    match answer {
        AcceptAnswer::More(mech, token) => going(alloc, turn, chosen, mech, Some(token)),
        AcceptAnswer::Done(outcome, lasts, token) => {
            let after = finished(alloc, turn, chosen, outcome, lasts, token)?;
            Ok(gone_on(after))
        }
        AcceptAnswer::Pauses(mark, outcome, lasts, token) => {
            let after = finished(alloc, turn, chosen, outcome, lasts, token)?;
            Ok(AcceptStep::WantsAuth(AcceptPause { mark, after }))
        }
    }
}
