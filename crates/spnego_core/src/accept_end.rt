//! The acceptor's end and its states.

ghost use Rattle.std.specs.Prelude.{◌≡◌};
ghost use Rattle.spnego_core.specs.Sizes.{ShortAnswered, ShortAccept};
ghost use Rattle.spnego_core.specs.Accepting.{gone_on, mark_asked, step_after, IsSettled};

use crate::accept_mech::AcceptMech;
use crate::outcome::Outcome;
use gss_base::{Mark, MechKind};
use sec_base::{Items, Moment, Octets, Oid};

/// Which of its replies an acceptor gives.
#[derive(Clone, Copy)]
pub enum Turn {
    First,
    Later,
    /// The one of a mechanism that came without negotiation.
    Bare,
}

/// A mechanism was chosen.
#[derive(Drop)]
pub struct Chosen {
    /// The initiator's list, as it came.
    pub(crate) received: Items<Oid>,
    pub(crate) kind: MechKind,
    /// The list's MIC must come.
    pub(crate) due: bool,
}

/// The chosen mechanism isn't done.
#[derive(Drop)]
pub struct Running {
    pub(crate) chosen: Chosen,
    pub(crate) mech: AcceptMech,
}

/// The mechanism is done, the own MIC went with its last token, and the initiator's is due.
#[derive(Drop)]
pub struct Owing {
    pub(crate) received: Items<Oid>,
    pub(crate) outcome: Outcome,
    /// When the context ends.
    pub(crate) lasts: Moment,
}

/// An acceptor's end, by what is due next.
#[derive(Drop)]
pub enum AcceptEnd {
    /// The initiator's first token.
    New,
    /// A token of the mechanism.
    Runs(Running),
    /// The initiator's MIC over the list.
    Owes(Owing),
}

/// What comes of a step once nothing is to be asked.
#[derive(Drop)]
pub enum Answered {
    More(AcceptEnd, Octets),
    Done(Outcome, Moment, Octets),
}

/// A step that is made but for one question: whether the initiator's request was taken before.
#[derive(Drop)]
pub struct AcceptPause {
    pub(crate) mark: Mark,
    pub(crate) after: Answered,
}

/// What comes of a step.
#[derive(Drop)]
pub enum AcceptStep {
    /// The token is for the initiator, and another of its tokens is due.
    More(AcceptEnd, Octets),
    /// The context stands until this moment. The token is for the initiator; an empty one says that it has all it needs.
    Done(Outcome, Moment, Octets),
    /// Nothing may be answered before the repeat test.
    WantsAuth(AcceptPause),
}

impl AcceptEnd {
    /// The end before the first token.
    pub fn new() -> AcceptEnd
        ensures { result ≡ AcceptEnd.New }
    {
        AcceptEnd::New
    }
}

/// The step that follows once nothing is to be asked.
pub(crate) fn gone_on(after: Answered) -> AcceptStep
    ensures exact { result ≡ gone_on after }
    ensures short { ShortAnswered after → ShortAccept result }
{
    match after {
        Answered::More(end, token) => AcceptStep::More(end, token),
        Answered::Done(outcome, lasts, token) => AcceptStep::Done(outcome, lasts, token),
    }
}

impl AcceptPause {
    /// The mark of the request.
    pub fn mark(&self) -> Mark
        ensures { result ≡ mark_asked self.now }
    {
        self.mark
    }

    /// The step, already made: the repeat test is the last thing that can refuse it.
    pub fn go_on(self) -> AcceptStep
        ensures value { result ≡ step_after self }
        ensures settled { IsSettled result }
    {
        gone_on(self.after)
    }
}
