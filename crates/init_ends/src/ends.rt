//! The initiator's end and its states.

use mech_objects::{Mech, MechAsk};
use sec_base::{Items, Octets, Oid};
use spnego_core::Outcome;

/// What an initiator is begun with, and what each of its objects is begun with. Each call that takes one asks that each object is armed and fresh.
#[derive(Drop)]
pub enum InitSetup {
    /// It negotiates: one to three mechanisms with different object identifiers, the preferred first. Two of them may be one, under its two names.
    Negotiating(Vec<Box<dyn Mech>>, MechAsk),
    /// It doesn't negotiate: one mechanism, whose first token is sent as it stands, and which is done by the reply.
    Bare(Box<dyn Mech>, MechAsk),
}

/// The first token was sent.
#[derive(Drop)]
pub struct Opening {
    /// The own list as it was sent.
    pub(crate) list: Items<Oid>,
    pub(crate) ask: MechAsk,
    /// The own first mechanism.
    pub(crate) mech: Box<dyn Mech>,
    /// Those behind it.
    pub(crate) others: Vec<Box<dyn Mech>>,
    /// The list was sent with it.
    pub(crate) negotiates: bool,
}

/// What is known once the acceptor chose.
#[derive(Drop)]
pub struct Talk {
    /// The own list as it was sent.
    pub(crate) list: Items<Oid>,
    /// The identifier by which the acceptor chose a mechanism.
    pub(crate) chosen: Oid,
    /// Some reply said request-mic.
    pub(crate) asked: bool,
}

/// The chosen mechanism isn't done.
#[derive(Drop)]
pub struct Talking {
    pub(crate) talk: Talk,
    pub(crate) mech: Box<dyn Mech>,
}

/// The mechanism is done, and the own MIC was sent.
#[derive(Drop)]
pub struct Signed {
    pub(crate) talk: Talk,
    pub(crate) outcome: Outcome,
    /// The acceptor's MIC over the own list was verified.
    pub(crate) listed: bool,
}

/// An initiator's end, by what was done last.
#[derive(Drop)]
pub enum InitEnd {
    /// The first token was sent.
    Opens(Opening),
    /// A further token of the mechanism was sent.
    Talks(Talking),
    /// The own MIC was sent.
    Signed(Signed),
}

/// What comes of a step.
#[derive(Drop)]
pub enum InitStep {
    /// The token is for the acceptor, and its reply is due.
    More(InitEnd, Octets),
    /// The context stands.
    Done(Outcome),
}
