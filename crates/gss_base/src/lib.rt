//! What all mechanisms speak of: their kinds, texts of names, marks of authenticators, status numbers.
#![tactic(auto)]

mod bindings;
mod label;
mod mark;
mod mech;
mod principal;
pub mod status;

pub use bindings::{Bindings, EmptyBindings, binding_hash};
pub use label::Label;
pub use mark::{Mark, mark_of};
pub use mech::{KerberosName, MechKind, MechName};
pub use principal::{NameRefusal, Principal};
