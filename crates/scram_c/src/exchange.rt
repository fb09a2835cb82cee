//! What a handle holds: an exchange, and how a step changes it.

ghost use Rattle.std.specs.Prelude.{◌≡◌, ◌≢◌, IfOk, option_map};
ghost use Rattle.scram_mech.specs.declared.refusal.ScramRefusal.TheVariants as refusals;
ghost use Rattle.scram_c.specs.Status.{status_number, no_memory};
ghost use Rattle.scram_c.specs.Steps.{goes_on, stands, standing, refused_by, unchanged, changed};
ghost use Rattle.scram_c.specs.Steps.{first_went, wait_went, due_went, accept_went, stepped};

use crate::status::Status;
use gss_base::{Bindings, Label};
use krb_tokens::{MechDone, Side, TokenEnd};
use scram_mech::{ScramAccept, ScramInit, ScramRefusal, ScramWait, Verifiers};
use sec_base::{Moment, NoMemory, Octets};
use std::alloc::Global;

/// A context that stands.
#[derive(Drop)]
pub struct Standing {
    pub end: TokenEnd,
    pub initiator: Label,
    /// The number of the next token that is made.
    pub number: u64,
    pub ends: Moment,
}

/// How far an exchange is.
#[derive(Drop)]
pub enum Stage {
    /// The initiator's first text is out, and the acceptor's is due.
    First(ScramInit),
    /// The initiator's proof is out, and the acceptor's signature is due.
    Wait(ScramWait),
    /// An acceptor to whom nothing came.
    Due,
    /// The acceptor's first text is out, and the proof is due.
    Accept(ScramAccept),
    /// The context stands.
    Stands(Standing),
    /// It was refused.
    Over,
}

/// An exchange, the channel bindings of this end, and the token that is to be sent.
#[derive(Drop)]
pub struct Exchange {
    pub stage: Stage,
    pub bindings: Option<Bindings>,
    pub token: Option<Octets>,
}

/// What a step puts into an exchange.
#[derive(Drop)]
pub struct Change {
    pub stage: Stage,
    pub token: Option<Octets>,
}

/// What came of a step. Without a change the exchange is as it was.
#[derive(Drop)]
pub struct Went {
    pub status: Status,
    pub change: Option<Change>,
}

/// Another token is due.
fn goes_on(stage: Stage, token: Octets) -> Went
    ensures { result ≡ goes_on stage token }
{
    let token = Some(token);
    Went {
        status: Status::More,
        change: Some(Change { stage, token }),
    }
}

/// The context stands.
fn stands(side: Side, done: &MechDone, token: Option<Octets>) -> Went
    ensures { result ≡ stands (standing side done.now) token }
{
    let end = TokenEnd {
        key: done.key,
        side,
        subkey: done.subkey,
    };
    let stage = Stage::Stands(Standing {
        end,
        initiator: done.initiator,
        number: 0,
        ends: done.ends,
    });
    Went {
        status: Status::Done,
        change: Some(Change { stage, token }),
    }
}

/// The exchange is over, by this cause.
fn over(refusal: ScramRefusal) -> Went
    ensures { result ≡ refused_by refusal }
{
    Went {
        status: Status::Scram(refusal),
        change: Some(Change {
            stage: Stage::Over,
            token: None,
        }),
    }
}

/// What a refusal brings: want of memory leaves the exchange as it was, each other cause ends it.
fn refused(refusal: ScramRefusal) -> Result<Went, NoMemory>
    ensures over { IfOk result (λ w. w ≡ refused_by refusal) }
    ensures cause { IfOk result (λ _. refusal ≢ refusals.NoMemory) }
    ensures told { IfOk result (λ w. status_number w.status ≢ no_memory) }
{
    match refusal {
        ScramRefusal::Text { at } => Ok(over(ScramRefusal::Text { at })),
        ScramRefusal::Mandatory => Ok(over(ScramRefusal::Mandatory)),
        ScramRefusal::Nonce => Ok(over(ScramRefusal::Nonce)),
        ScramRefusal::Rounds => Ok(over(ScramRefusal::Rounds)),
        ScramRefusal::NoUser => Ok(over(ScramRefusal::NoUser)),
        ScramRefusal::Bindings => Ok(over(ScramRefusal::Bindings)),
        ScramRefusal::Proof => Ok(over(ScramRefusal::Proof)),
        ScramRefusal::Signature => Ok(over(ScramRefusal::Signature)),
        ScramRefusal::PeerError => Ok(over(ScramRefusal::PeerError)),
        ScramRefusal::NoMemory => Err(NoMemory),
    }
}

/// Nothing changes.
fn unchanged(status: Status) -> Went
    ensures { result ≡ unchanged status }
{
    Went {
        status,
        change: None,
    }
}

/// The acceptor's first text.
fn after_first(alloc: Global, end: &ScramInit, token: &[u8]) -> Result<Went, NoMemory>
    ensures went { IfOk result (λ w. w ≡ first_went end.now token.now) }
    ensures told { IfOk result (λ w. status_number w.status ≢ no_memory) }
{
    match end.answered(alloc, token) {
        Ok((end, token)) => Ok(goes_on(Stage::Wait(end), token)),
        Err(refusal) => refused(refusal),
    }
}

/// The acceptor's signature.
fn after_wait(alloc: Global, end: &ScramWait, token: &[u8]) -> Result<Went, NoMemory>
    ensures went { IfOk result (λ w. w ≡ wait_went end.now token.now) }
    ensures told { IfOk result (λ w. status_number w.status ≢ no_memory) }
{
    match end.finished(alloc, token) {
        Ok(done) => Ok(stands(Side::Initiator, &done, None)),
        Err(refusal) => refused(refusal),
    }
}

/// The initiator's first token.
fn after_due(
    alloc: Global,
    users: Option<&Verifiers>,
    token: &[u8],
    nonce: &[u8; 18],
) -> Result<Went, NoMemory>
    ensures went { IfOk result (λ w. w
        ≡ due_went (option_map (λ v. v.now) users.entry) token.now nonce.now) }
    ensures told { IfOk result (λ w. status_number w.status ≢ no_memory) }
{
    let Some(users) = users else {
        return Ok(unchanged(Status::NoVerifiers));
    };
    match ScramAccept::start(alloc, users, token, nonce) {
        Ok((end, token)) => Ok(goes_on(Stage::Accept(end), token)),
        Err(refusal) => refused(refusal),
    }
}

/// The initiator's proof.
fn after_accept(
    alloc: Global,
    end: &ScramAccept,
    bindings: Option<&Bindings>,
    token: &[u8],
    now: Moment,
) -> Result<Went, NoMemory>
    ensures went { IfOk result (λ w. w
        ≡ accept_went end.now (option_map (λ b. b.now) bindings.entry) token.now now) }
    ensures told { IfOk result (λ w. status_number w.status ≢ no_memory) }
{
    match end.finished(alloc, token, bindings, now) {
        Ok((done, token)) => Ok(stands(Side::Acceptor, &done, Some(token))),
        Err(refusal) => refused(refusal),
    }
}

impl Exchange {
    /// What comes of the other end's token. Only an acceptor to whom nothing came looks at the verifiers and at the drawn octets, and
    /// only one that has sent its text at the moment.
    pub fn stepped(
        &self,
        alloc: Global,
        users: Option<&Verifiers>,
        token: &[u8],
        now: Moment,
        nonce: &[u8; 18],
    ) -> Result<Went, NoMemory>
        ensures went { IfOk result (λ w. w
            ≡ stepped self.now (option_map (λ v. v.now) users.entry) token.now now nonce.now) }
        // want of memory is the Err alone
        ensures told { IfOk result (λ w. status_number w.status ≢ no_memory) }
    {
        match &self.stage {
            Stage::First(end) => after_first(alloc, end, token),
            Stage::Wait(end) => after_wait(alloc, end, token),
            Stage::Due => after_due(alloc, users, token, nonce),
            Stage::Accept(end) => after_accept(alloc, end, self.bindings.as_ref(), token, now),
            Stage::Stands(_) => Ok(unchanged(Status::NotDue)),
            Stage::Over => Ok(unchanged(Status::NotDue)),
        }
    }

    /// Puts in what came of a step, and tells its status.
    pub fn change(&mut self, went: Went) -> Status
        ensures told { result ≡ went.status }
        ensures changed { self.new ≡ changed self.old went }
    {
        let Went { status, change } = went;
        if let Some(change) = change {
            let Change { stage, token } = change;
            self.stage = stage;
            self.token = token;
        }
        status
    }
}
