//! The acceptor's steps, RFC 4178 sections 3.2, 4.2.2 and 5.

ghost use Rattle.std.specs.Prelude.{◌≡◌, [], ◌∷◌, IfOk, Some};
ghost use Rattle.sec_base.specs.Answers.{Gives};
ghost use Rattle.spnego_core.specs.declared.accept_end.AcceptEnd.TheVariants as ends;
ghost use Rattle.spnego_core.specs.declared.accept_end.AcceptStep.TheVariants as steps;
ghost use Rattle.spnego_core.specs.Tokens.{last_octets};
ghost use Rattle.spnego_core.specs.AcceptMech.{accept_taken};
ghost use Rattle.spnego_core.specs.Sizes.{ShortAccept};
ghost use Rattle.spnego_core.specs.ListMic.{is_list_mic};
ghost use Rattle.spnego_core.specs.Steps.{due};
ghost use Rattle.krb_tokens.specs.declared.end.Side.TheVariants.{Acceptor};
ghost use Rattle.spnego_core.specs.Accepting.{begun, token_for, started, chose, begins};
ghost use Rattle.spnego_core.specs.Accepting.{first_taken, proceeds};
ghost use Rattle.spnego_core.specs.Accepting.{closes, closed, run, step_of, accept_step};

use crate::accept_end::{AcceptEnd, AcceptStep, Chosen, Owing, Running, Turn};
use crate::accept_mech::accept_begun;
use crate::accept_reply::{going, told};
use crate::bare::bare_oid;
use crate::choice::{best, is_first_named, is_mic_due};
use crate::list_mic::is_list_mic;
use crate::refusal::NegRefusal;
use crate::setup::AcceptSetup;
use crate::tokens::{init_read, last_octets, rejects, resp_read};
use gss_base::MechKind;
use krb_tokens::Side;
use sec_base::{Items, Moment, NoMemory, Octets, Oid};
use spnego_msgs::{NegInit, NegResp, NegState};
use std::alloc::Global;

/// The state in which a mechanism begins.
fn begun(setup: &AcceptSetup, list: Items<Oid>, kind: MechKind) -> Running
    ensures { result ≡ begun setup.now list kind }
{
    let due = is_mic_due(setup.offer.as_slice(), list.as_slice(), kind);
    let chosen = Chosen {
        received: list,
        kind,
        due,
    };
    Running {
        chosen,
        mech: accept_begun(kind),
    }
}

/// The first token's token of the mechanism, where it is the chosen one's.
fn token_for(first: bool, token: Option<Octets>) -> Option<Octets>
    ensures { result ≡ token_for first token }
{
    if first { token } else { None }
}

/// The mechanism takes its token.
fn run(
    alloc: Global,
    setup: &AcceptSetup,
    turn: Turn,
    running: Running,
    token: &[u8],
    now: Moment,
    draws: &[u8; 66],
) -> Result<AcceptStep, NegRefusal>
    ensures short { IfOk result ShortAccept }
    ensures exact { Gives NegRefusal.NoMemory (λ s. s) result (step_of
        (run turn running.chosen (accept_taken setup.now running.mech token.now now draws.now))) }
{
    let Running { chosen, mech } = running;
    let answer = mech.take(alloc, setup, token, now, draws)?;
    let step = told(alloc, turn, chosen, answer)?;
    Ok(step)
}

/// The chosen mechanism takes its token, or waits for it.
fn started(
    alloc: Global,
    setup: &AcceptSetup,
    running: Running,
    token: Option<Octets>,
    now: Moment,
    draws: &[u8; 66],
) -> Result<AcceptStep, NegRefusal>
    ensures short { IfOk result ShortAccept }
    ensures exact { Gives NegRefusal.NoMemory (λ s. s) result
        (step_of (started setup.now now draws.now running token)) }
{
    match token {
        None => {
            let Running { chosen, mech } = running;
            let step = going(alloc, Turn::First, chosen, mech, None)?;
            Ok(step)
        }
        Some(token) => {
            let octets = token.as_slice();
            run(alloc, setup, Turn::First, running, octets, now, draws)
        }
    }
}

/// What follows the first token.
#[tactic(auto, unfolding(crate::specs::Accepting::begins))]
fn begins(
    alloc: Global,
    setup: &AcceptSetup,
    init: NegInit,
    now: Moment,
    draws: &[u8; 66],
) -> Result<AcceptStep, NegRefusal>
    ensures short { IfOk result ShortAccept }
    ensures exact { Gives NegRefusal.NoMemory (λ s. s) result
        (step_of (begins setup.now now draws.now init)) }
{
    let NegInit {
        list,
        flags: _,
        token,
        mic: _,
    } = init;
    let chosen = best(setup.offer.as_slice(), list.as_slice());
    let Some(kind) = chosen else {
        return Err(NegRefusal::NoCommonMech);
    };
    let token = token_for(is_first_named(list.as_slice(), kind), token);
    started(alloc, setup, begun(setup, list, kind), token, now, draws)
}

/// The list of one identifier.
fn list_of(alloc: Global, oid: Oid) -> Result<Items<Oid>, NoMemory>
    ensures { IfOk result (λ l. l ≡ oid ∷ []) }
{
    let mut list = Vec::new(alloc);
    list.push(oid)?;
    Ok(Items::of(list))
}

/// What follows a request of Kerberos that came without negotiation, under this identifier.
fn taken_bare(
    alloc: Global,
    setup: &AcceptSetup,
    oid: Oid,
    token: &[u8],
    now: Moment,
    draws: &[u8; 66],
) -> Result<AcceptStep, NegRefusal>
    ensures short { IfOk result ShortAccept }
    ensures exact { Gives NegRefusal.NoMemory (λ s. s) result
        (step_of (first_taken setup.now now draws.now token.now (Some oid))) }
{
    let list = list_of(alloc, oid)?;
    let running = begun(setup, list, MechKind::Kerberos);
    run(alloc, setup, Turn::Bare, running, token, now, draws)
}

/// What follows the first token.
fn first_taken(
    alloc: Global,
    setup: &AcceptSetup,
    token: &[u8],
    now: Moment,
    draws: &[u8; 66],
) -> Result<AcceptStep, NegRefusal>
    ensures short { IfOk result ShortAccept }
    ensures exact { Gives NegRefusal.NoMemory (λ s. s) result
        (step_of (accept_step setup.now ends.New token.now now draws.now)) }
{
    match bare_oid(setup, token) {
        Some(oid) => taken_bare(alloc, setup, oid, token, now, draws),
        None => begins(alloc, setup, init_read(alloc, token)?, now, draws),
    }
}

/// What follows a later token, of so many octets, while the mechanism isn't done.
#[tactic(auto, unfolding(crate::specs::Accepting::proceeds))]
fn proceeds(
    alloc: Global,
    setup: &AcceptSetup,
    size: usize,
    running: Running,
    resp: &NegResp,
    now: Moment,
    draws: &[u8; 66],
) -> Result<AcceptStep, NegRefusal>
    ensures short { IfOk result ShortAccept }
    ensures exact { Gives NegRefusal.NoMemory (λ s. s) result
        (step_of (proceeds setup.now now draws.now size running resp.now)) }
{
    if rejects(resp.state) {
        drop(running);
        return Err(NegRefusal::Rejected);
    }
    match &resp.token {
        Some(token) => {
            let octets = token.as_slice();
            run(alloc, setup, Turn::Later, running, octets, now, draws)
        }
        None => {
            drop(running);
            Err(NegRefusal::Defective { at: size })
        }
    }
}

/// Judges the initiator's MIC over the list that came.
fn mic_judged(alloc: Global, owing: &Owing, mic: &Octets) -> Result<(), NegRefusal>
    ensures { Gives NegRefusal.NoMemory (λ u. u) result (due NegRefusal.MicBad
        (is_list_mic owing.now.outcome Acceptor owing.now.received mic.now)) }
{
    let received = owing.received.as_slice();
    let right = is_list_mic(alloc, &owing.outcome, Side::Acceptor, received, mic)?;
    if right {
        Ok(())
    } else {
        Err(NegRefusal::MicBad)
    }
}

/// The context stands, and the last reply is by the state that came with the initiator's MIC.
fn settled(alloc: Global, owing: Owing, state: Option<NegState>) -> Result<AcceptStep, NoMemory>
    ensures short { IfOk result ShortAccept }
    ensures exact { IfOk result
        (λ s. s ≡ steps.Done owing.outcome owing.lasts (last_octets state)) }
{
    match last_octets(alloc, state) {
        Ok(octets) => Ok(AcceptStep::Done(owing.outcome, owing.lasts, octets)),
        Err(refusal) => {
            drop(owing);
            Err(refusal)
        }
    }
}

/// What follows a later token once the mechanism is done and the initiator's MIC is due.
#[tactic(auto, unfolding(crate::specs::Accepting::closes))]
fn closes(alloc: Global, owing: Owing, resp: &NegResp) -> Result<AcceptStep, NegRefusal>
    ensures short { IfOk result ShortAccept }
    ensures exact { Gives NegRefusal.NoMemory (λ s. s) result (step_of (closes owing resp.now)) }
{
    if rejects(resp.state) {
        drop(owing);
        return Err(NegRefusal::Rejected);
    }
    let Some(mic) = &resp.mic else {
        drop(owing);
        return Err(NegRefusal::MicMissing);
    };
    match mic_judged(alloc, &owing, mic) {
        Ok(()) => {
            let step = settled(alloc, owing, resp.state)?;
            Ok(step)
        }
        Err(refusal) => {
            drop(owing);
            Err(refusal)
        }
    }
}

/// What follows the initiator's next token while the mechanism isn't done.
fn carried_on(
    alloc: Global,
    setup: &AcceptSetup,
    running: Running,
    token: &[u8],
    now: Moment,
    draws: &[u8; 66],
) -> Result<AcceptStep, NegRefusal>
    ensures short { IfOk result ShortAccept }
    ensures exact { Gives NegRefusal.NoMemory (λ s. s) result
        (step_of (accept_step setup.now (ends.Runs running) token.now now draws.now)) }
{
    match resp_read(alloc, token) {
        Ok(resp) => {
            let step = proceeds(alloc, setup, token.len(), running, &resp, now, draws);
            drop(resp);
            step
        }
        Err(refusal) => {
            drop(running);
            Err(refusal)
        }
    }
}

/// What follows the initiator's next token once the mechanism is done.
fn closed(alloc: Global, owing: Owing, token: &[u8]) -> Result<AcceptStep, NegRefusal>
    ensures short { IfOk result ShortAccept }
    ensures exact { Gives NegRefusal.NoMemory (λ s. s) result
        (step_of (closed owing token.now)) }
{
    match resp_read(alloc, token) {
        Ok(resp) => {
            let step = closes(alloc, owing, &resp);
            drop(resp);
            step
        }
        Err(refusal) => {
            drop(owing);
            Err(refusal)
        }
    }
}

/// What follows the initiator's next token.
/// It stands apart, so that the other clauses are proved from what is said here.
fn stepped(
    alloc: Global,
    setup: &AcceptSetup,
    end: AcceptEnd,
    token: &[u8],
    now: Moment,
    draws: &[u8; 66],
) -> Result<AcceptStep, NegRefusal>
    ensures short { IfOk result ShortAccept }
    ensures exact { Gives NegRefusal.NoMemory (λ s. s) result
        (step_of (accept_step setup.now end token.now now draws.now)) }
{
    match end {
        AcceptEnd::New => first_taken(alloc, setup, token, now, draws),
        AcceptEnd::Runs(running) => carried_on(alloc, setup, running, token, now, draws),
        AcceptEnd::Owes(owing) => closed(alloc, owing, token),
    }
}

impl AcceptEnd {
    /// Takes the initiator's next token, at this moment, with random octets that serve no other step. The end is spent, whatever the answer.
    pub fn step(
        self,
        alloc: Global,
        setup: &AcceptSetup,
        token: &[u8],
        now: Moment,
        draws: &[u8; 66],
    ) -> Result<AcceptStep, NegRefusal>
        ensures exact { Gives NegRefusal.NoMemory (λ s. s) result
            (step_of (accept_step setup.now self token.now now draws.now)) }
        ensures short { IfOk result ShortAccept }
    {
        stepped(alloc, setup, self, token, now, draws)
    }
}
