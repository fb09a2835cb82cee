//! The initiator's steps, RFC 4178 sections 3.2, 4.2.2 and 5.

ghost use Rattle.std.specs.Prelude.{◌≡◌, IfOk, true, map, option_map};
ghost use Rattle.sec_base.specs.Answers.{Gives};
ghost use Rattle.spnego_core.specs.Sizes.{FitsBeside};
ghost use Rattle.mech_objects.specs.declared.ask.Stage.TheVariants.{Fresh};
ghost use Rattle.init_ends.specs.Objects.{all_fresh, mech_for, is_waiting};
ghost use Rattle.init_ends.specs.Ends.{opening_means, talking_means, end_means, step_means};
ghost use Rattle.init_ends.specs.Ends.{holds_opening, holds, holds_after, ShortStep};
ghost use Rattle.mech_objects.specs.Meaning.{starts as object_starts};
ghost use Rattle.init_ends.specs.Ends as means;
ghost use Rattle.init_ends.specs.Initiating.{sends, goes_on, run, switched, begins};
ghost use Rattle.init_ends.specs.Initiating.{switches, picks};
ghost use Rattle.init_ends.specs.Initiating.{opened, is_chosen, talk_after, talked, closed};
ghost use Rattle.init_ends.specs.Initiating.{end_step};

use crate::ends::{InitEnd, InitStep, Opening, Signed, Talk, Talking};
use crate::lists::{is_named, kind_at, mech_for, oid_at};
use crate::reply::{looks, looks_again};
use crate::start::start_of;
use mech_objects::{Mech, MechAsk, MechMove};
use sec_base::{NoMemory, Octets, Oid};
use spnego_core::tokens::{asks_mic, first_read, last_read, rejects, resp_read, says_completed};
use spnego_core::{NegRefusal, outcome_of, token_sent};
use spnego_msgs::{NegResp, NegState};
use std::alloc::Global;

/// A further token of the mechanism is sent.
fn sends(alloc: Global, talking: Talking, token: Octets) -> Result<InitStep, NoMemory>
    requires { is_waiting (talking_means meaning talking).mech.stage ≡ true }
    ensures exact { IfOk result
        (λ s. step_means meaning s ≡ sends (talking_means meaning talking) token) }
    ensures held { IfOk result (λ s. holds_after (step_means meaning s) ≡ true) }
    ensures short { FitsBeside token → IfOk result (λ s. ShortStep (step_means meaning s)) }
{
    match token_sent(alloc, token) {
        Ok(octets) => Ok(InitStep::More(InitEnd::Talks(talking), octets)),
        Err(refusal) => {
            drop(talking);
            Err(refusal)
        }
    }
}

/// The mechanism goes on, with a token.
fn goes_on(
    alloc: Global,
    talk: Talk,
    mech: Box<dyn Mech>,
    state: Option<NegState>,
    token: Octets,
) -> Result<InitStep, NegRefusal>
    requires { is_waiting (meaning mech).stage ≡ true }
    ensures exact { Gives NegRefusal.NoMemory (step_means meaning) result
        (goes_on talk (meaning mech) state token) }
    ensures held { IfOk result (λ s. holds_after (step_means meaning s) ≡ true) }
    ensures short { FitsBeside token → IfOk result (λ s. ShortStep (step_means meaning s)) }
{
    let talking = Talking { talk, mech };
    if says_completed(state) {
        drop(talking);
        drop(token);
        return Err(NegRefusal::Defective { at: 0 });
    }
    let step = sends(alloc, talking, token)?;
    Ok(step)
}

/// The mechanism takes the token of a reply of so many octets.
#[tactic(auto, unfolding(crate::specs::Initiating::run))]
fn run(
    alloc: Global,
    size: usize,
    talk: Talk,
    mech: Box<dyn Mech>,
    resp: &NegResp,
) -> Result<InitStep, NegRefusal>
    requires { is_waiting (meaning mech).stage ≡ true }
    ensures exact { Gives NegRefusal.NoMemory (step_means meaning) result
        (run size talk (meaning mech) resp.now.state resp.now.token resp.now.mic) }
    ensures held { IfOk result (λ s. holds_after (step_means meaning s) ≡ true) }
    ensures short { IfOk result (λ s. ShortStep (step_means meaning s)) }
{
    let Some(token) = &resp.token else {
        drop(talk);
        drop(mech);
        return Err(NegRefusal::Defective { at: size });
    };
    let mut mech = mech;
    let kind = kind_at(&mech);
    match mech.take(alloc, token.as_slice()) {
        Ok(MechMove::Token(octets)) => goes_on(alloc, talk, mech, resp.state, octets),
        Ok(MechMove::Done(made)) => {
            drop(mech);
            looks(alloc, talk, outcome_of(kind, &made), resp.state, &resp.mic)
        }
        Err(refusal) => {
            drop(talk);
            drop(mech);
            Err(refusal)
        }
    }
}

/// Another object than the own first starts.
fn starts(
    alloc: Global,
    talk: Talk,
    mech: Box<dyn Mech>,
    ask: &MechAsk,
) -> Result<InitStep, NegRefusal>
    requires { (meaning mech).stage ≡ Fresh }
    ensures exact { Gives NegRefusal.NoMemory (step_means meaning) result
        (switched talk (meaning mech) ask.now (object_starts (meaning mech) ask.now)) }
    ensures held { IfOk result (λ s. holds_after (step_means meaning s) ≡ true) }
    ensures short { IfOk result (λ s. ShortStep (step_means meaning s)) }
{
    let mut mech = mech;
    match start_of(alloc, &mut mech, ask) {
        Ok(token) => {
            let step = sends(alloc, Talking { talk, mech }, token)?;
            Ok(step)
        }
        Err(refusal) => {
            drop(talk);
            drop(mech);
            Err(refusal)
        }
    }
}

/// Another object than the own first begins: there can be no token of it yet, and nothing can be complete.
fn begins(
    alloc: Global,
    talk: Talk,
    mech: Box<dyn Mech>,
    ask: &MechAsk,
    state: Option<NegState>,
    token: Option<&Octets>,
) -> Result<InitStep, NegRefusal>
    requires { (meaning mech).stage ≡ Fresh }
    ensures exact { Gives NegRefusal.NoMemory (step_means meaning) result
        (begins talk (meaning mech) ask.now state (option_map (λ t. t.now) token.entry)) }
    ensures held { IfOk result (λ s. holds_after (step_means meaning s) ≡ true) }
    ensures short { IfOk result (λ s. ShortStep (step_means meaning s)) }
{
    match token {
        Some(_) => {
            drop(talk);
            drop(mech);
            Err(NegRefusal::Defective { at: 0 })
        }
        None => {
            if says_completed(state) {
                drop(talk);
                drop(mech);
                return Err(NegRefusal::Defective { at: 0 });
            }
            starts(alloc, talk, mech, ask)
        }
    }
}

/// The acceptor chose another mechanism than the own first, which is dropped.
fn switches(
    alloc: Global,
    talk: Talk,
    ask: &MechAsk,
    others: Vec<Box<dyn Mech>>,
    state: Option<NegState>,
    token: Option<&Octets>,
) -> Result<InitStep, NegRefusal>
    requires { all_fresh (map meaning others.items) ≡ true }
    ensures exact { Gives NegRefusal.NoMemory (step_means meaning) result
        (switches talk ask.now (mech_for (map meaning others.items) talk.chosen) state
        (option_map (λ t. t.now) token.entry)) }
    ensures held { IfOk result (λ s. holds_after (step_means meaning s) ≡ true) }
    ensures short { IfOk result (λ s. ShortStep (step_means meaning s)) }
{
    let Some(mech) = mech_for(others, &talk.chosen) else {
        drop(talk);
        return Err(NegRefusal::MechNotMine);
    };
    begins(alloc, talk, mech, ask, state, token)
}

/// What follows the acceptor's choice.
#[tactic(auto, unfolding(crate::specs::Initiating::picks))]
fn picks(
    alloc: Global,
    size: usize,
    opening: Opening,
    oid: Oid,
    resp: &NegResp,
) -> Result<InitStep, NegRefusal>
    requires { holds_opening (opening_means meaning opening) ≡ true }
    ensures exact { Gives NegRefusal.NoMemory (step_means meaning) result
        (picks size (opening_means meaning opening) oid resp.now.state resp.now.token
        resp.now.mic) }
    ensures held { IfOk result (λ s. holds_after (step_means meaning s) ≡ true) }
    ensures short { IfOk result (λ s. ShortStep (step_means meaning s)) }
{
    let Opening {
        list,
        ask,
        mech,
        others,
        negotiates: _,
    } = opening;
    let first = is_named(&oid, &oid_at(&mech));
    let talk = Talk {
        list,
        chosen: oid,
        asked: asks_mic(resp.state),
    };
    if first {
        drop(ask);
        drop(others);
        run(alloc, size, talk, mech, resp)
    } else {
        drop(mech);
        let step = switches(alloc, talk, &ask, others, resp.state, resp.token.as_ref());
        drop(ask);
        step
    }
}

/// What follows the first reply.
#[tactic(auto, unfolding(crate::specs::Initiating::opened))]
fn opened(
    alloc: Global,
    size: usize,
    opening: Opening,
    resp: &NegResp,
) -> Result<InitStep, NegRefusal>
    requires { holds_opening (opening_means meaning opening) ≡ true }
    ensures exact { Gives NegRefusal.NoMemory (step_means meaning) result
        (opened size (opening_means meaning opening) resp.now) }
    ensures held { IfOk result (λ s. holds_after (step_means meaning s) ≡ true) }
    ensures short { IfOk result (λ s. ShortStep (step_means meaning s)) }
{
    if rejects(resp.state) {
        drop(opening);
        return Err(NegRefusal::Rejected);
    }
    let (Some(_), Some(oid)) = (resp.state, resp.mech) else {
        drop(opening);
        return Err(NegRefusal::Defective { at: size });
    };
    picks(alloc, size, opening, oid, resp)
}

/// Whether a mechanism that is named again is the chosen one.
fn is_chosen(chosen: &Oid, mech: Option<Oid>) -> bool
    ensures { result ≡ is_chosen chosen.now mech }
{
    match mech {
        None => true,
        Some(oid) => is_named(&oid, chosen),
    }
}

/// The talk behind a further reply.
fn talk_after(talk: Talk, state: Option<NegState>) -> Talk
    ensures { result ≡ talk_after talk state }
{
    let Talk {
        list,
        chosen,
        asked,
    } = talk;
    Talk {
        list,
        chosen,
        asked: asked || asks_mic(state),
    }
}

/// What follows a later reply while the mechanism isn't done.
#[tactic(auto, unfolding(crate::specs::Initiating::talked))]
fn talked(
    alloc: Global,
    size: usize,
    talking: Talking,
    resp: &NegResp,
) -> Result<InitStep, NegRefusal>
    requires { is_waiting (talking_means meaning talking).mech.stage ≡ true }
    ensures exact { Gives NegRefusal.NoMemory (step_means meaning) result
        (talked size (talking_means meaning talking) resp.now) }
    ensures held { IfOk result (λ s. holds_after (step_means meaning s) ≡ true) }
    ensures short { IfOk result (λ s. ShortStep (step_means meaning s)) }
{
    if rejects(resp.state) {
        drop(talking);
        return Err(NegRefusal::Rejected);
    }
    if !is_chosen(&talking.talk.chosen, resp.mech) {
        drop(talking);
        return Err(NegRefusal::MechNotMine);
    }
    let talk = talk_after(talking.talk, resp.state);
    run(alloc, size, talk, talking.mech, resp)
}

/// What follows a reply to the own MIC.
#[tactic(auto, unfolding(crate::specs::Initiating::closed))]
fn closed(alloc: Global, signed: Signed, resp: &NegResp) -> Result<InitStep, NegRefusal>
    ensures exact { Gives NegRefusal.NoMemory (step_means meaning) result
        (closed signed resp.now) }
    ensures held { IfOk result (λ s. holds_after (step_means meaning s) ≡ true) }
    ensures short { IfOk result (λ s. ShortStep (step_means meaning s)) }
{
    if rejects(resp.state) {
        drop(signed);
        return Err(NegRefusal::Rejected);
    }
    if !is_chosen(&signed.talk.chosen, resp.mech) {
        drop(signed);
        return Err(NegRefusal::MechNotMine);
    }
    looks_again(alloc, signed, resp.state, &resp.mic)
}

/// What follows the first reply's octets.
fn first_reply(alloc: Global, opening: Opening, token: &[u8]) -> Result<InitStep, NegRefusal>
    requires { holds_opening (opening_means meaning opening) ≡ true }
    ensures exact { Gives NegRefusal.NoMemory (step_means meaning) result
        (end_step (means.Opens (opening_means meaning opening)) token.now) }
    ensures held { IfOk result (λ s. holds_after (step_means meaning s) ≡ true) }
    ensures short { IfOk result (λ s. ShortStep (step_means meaning s)) }
{
    match first_read(alloc, opening.negotiates, opening.list.as_slice(), token) {
        Ok(resp) => {
            let step = opened(alloc, token.len(), opening, &resp);
            drop(resp);
            step
        }
        Err(refusal) => {
            drop(opening);
            Err(refusal)
        }
    }
}

/// What follows a later reply's octets while the mechanism isn't done.
fn later_reply(alloc: Global, talking: Talking, token: &[u8]) -> Result<InitStep, NegRefusal>
    requires { is_waiting (talking_means meaning talking).mech.stage ≡ true }
    ensures exact { Gives NegRefusal.NoMemory (step_means meaning) result
        (end_step (means.Talks (talking_means meaning talking)) token.now) }
    ensures held { IfOk result (λ s. holds_after (step_means meaning s) ≡ true) }
    ensures short { IfOk result (λ s. ShortStep (step_means meaning s)) }
{
    match resp_read(alloc, token) {
        Ok(resp) => {
            let step = talked(alloc, token.len(), talking, &resp);
            drop(resp);
            step
        }
        Err(refusal) => {
            drop(talking);
            Err(refusal)
        }
    }
}

/// What follows the octets of a reply to the own MIC.
fn last_reply(alloc: Global, signed: Signed, token: &[u8]) -> Result<InitStep, NegRefusal>
    ensures exact { Gives NegRefusal.NoMemory (step_means meaning) result
        (end_step (means.Signed signed) token.now) }
    ensures held { IfOk result (λ s. holds_after (step_means meaning s) ≡ true) }
    ensures short { IfOk result (λ s. ShortStep (step_means meaning s)) }
{
    match last_read(alloc, token) {
        Ok(resp) => {
            let step = closed(alloc, signed, &resp);
            drop(resp);
            step
        }
        Err(refusal) => {
            drop(signed);
            Err(refusal)
        }
    }
}

impl InitEnd {
    /// Takes the acceptor's reply. The end is spent, whatever the answer.
    pub fn step(self, alloc: Global, token: &[u8]) -> Result<InitStep, NegRefusal>
        requires { holds (end_means meaning self) ≡ true }
        ensures exact { Gives NegRefusal.NoMemory (step_means meaning) result
            (end_step (end_means meaning self) token.now) }
        ensures held { IfOk result (λ s. holds_after (step_means meaning s) ≡ true) }
        ensures short { IfOk result (λ s. ShortStep (step_means meaning s)) }
    {
        match self {
            InitEnd::Opens(opening) => first_reply(alloc, opening, token),
            InitEnd::Talks(talking) => later_reply(alloc, talking, token),
            InitEnd::Signed(signed) => last_reply(alloc, signed, token),
        }
    }
}
