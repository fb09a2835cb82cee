//! The blank objects of a drill's sessions.

ghost use Rattle.std.specs.Prelude.{◌≡◌, ◌+◌, OnOk, map};
ghost use Rattle.mech_objects.specs.Standard.{blank_of};
ghost use Rattle.drill_plan.specs.Sessions.{kind_of, own_name, blank_objects};

use mech_objects::Mech;
use std::alloc::AllocError;

/// Adds the blank object of a session, counted from 0, to those of the sessions before it.
pub fn add_object(
    mechs: &mut Vec<Box<dyn Mech>>,
    number: u32,
    mech: Box<dyn Mech>,
) -> Result<(), AllocError>
    requires before { map meaning mechs.old.items ≡ blank_objects number }
    requires blank { meaning mech ≡ blank_of (own_name (kind_of number)) }
    ensures { OnOk result (map meaning mechs.new.items ≡ blank_objects (number + 1)) }
{
    mechs.push(mech)?;
    Ok(())
}
