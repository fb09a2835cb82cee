//! The object of Kerberos among those that are handed in.

ghost use Rattle.std.specs.Prelude.{◌≡◌, IfSome, IfOk, map, option_map, true};
ghost use Rattle.sec_base.specs.Answers.{Gives};
ghost use Rattle.mech_objects.specs.Meaning.{starts, started};
ghost use Rattle.spnego_core.specs.Sizes.{FitsBeside};
ghost use Rattle.mech_objects.specs.declared.ask.Stage.TheVariants.{Fresh};
ghost use Rattle.sasl_gssapi.specs.Objects.{is_kerberos, kerberos_in, all_fresh};

use gss_base::MechKind;
use mech_objects::{Mech, MechAsk};
use sec_base::Octets;
use spnego_core::NegRefusal;
use std::alloc::Global;

/// The mechanism of one object.
fn kind_at(object: &Box<dyn Mech>) -> MechKind
    ensures { result ≡ (meaning object.now).kind }
{
    object.kind()
}

fn is_kerberos(kind: MechKind) -> bool
    ensures { result ≡ is_kerberos kind }
{
    match kind {
        MechKind::Kerberos => true,
        MechKind::Scram => false,
    }
}

/// The first object of Kerberos; the others are dropped.
pub(crate) fn kerberos_in(list: Vec<Box<dyn Mech>>) -> Option<Box<dyn Mech>>
    requires { all_fresh (map meaning list.items) ≡ true }
    ensures fresh { IfSome result (λ b. (meaning b).stage ≡ Fresh) }
    ensures exact { option_map meaning result ≡ kerberos_in (map meaning list.items) }
{
    for object in list {
        let found = is_kerberos(kind_at(&object));
        if found {
            return Some(object);
        }
    }
    None
}

/// An object starts.
pub(crate) fn start_of(
    alloc: Global,
    object: &mut Box<dyn Mech>,
    ask: &MechAsk,
) -> Result<Octets, NegRefusal>
    requires { (meaning object.old).stage ≡ Fresh }
    ensures exact { Gives NegRefusal.NoMemory (λ o. o) result
        (starts (meaning object.old) ask.now) }
    ensures after { meaning object.new ≡ started (meaning object.old) ask.now result }
    ensures short { IfOk result FitsBeside }
{
    object.start(alloc, ask)
}
