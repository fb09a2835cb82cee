//! Mechanisms at the initiator as objects that somebody hands in: the trait, and the objects of Kerberos and SCRAM.
#![tactic(auto)]

mod ask;
mod laws;
mod made;
mod mech;
mod objects;
mod run;
mod state;

pub use ask::{MechAsk, MechMove, Stage};
pub use laws::prove_standard;
pub use made::{MadeMechs, make_mechs};
pub use mech::Mech;
pub use objects::{KerberosMech, ScramMech};
