//! The objects of Kerberos and SCRAM that a program makes, each in a box.

ghost use Rattle.std.specs.Prelude.{IfSome};
ghost use Rattle.mech_objects.specs.Made.{AreMade};

use crate::objects::{KerberosMech, ScramMech};
use std::alloc::Global;

/// An object of Kerberos under each of its names, and one of SCRAM.
#[derive(Drop)]
pub struct MadeMechs {
    pub kerberos: Box<KerberosMech>,
    pub microsoft: Box<KerberosMech>,
    pub scram: Box<ScramMech>,
}

/// Objects that have no credentials, None where memory wants. A program makes them ahead of what else it holds, and hands each on as an
/// object of the trait.
pub fn make_mechs(alloc: Global) -> Option<MadeMechs>
    ensures { IfSome result AreMade }
{
    let kerberos = Box::new(alloc, KerberosMech::new(alloc)).ok();
    let microsoft = Box::new(alloc, KerberosMech::new_ms(alloc)).ok();
    let scram = Box::new(alloc, ScramMech::new(alloc)).ok();
    let ((kerberos, microsoft), scram) = kerberos.zip(microsoft).zip(scram)?;
    Some(MadeMechs {
        kerberos,
        microsoft,
        scram,
    })
}
