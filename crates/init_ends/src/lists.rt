//! The objects of an initiator as a list.

ghost use Rattle.std.specs.Prelude.{◌≡◌, IfOk, IfSome, map, option_map, true};
ghost use Rattle.mech_objects.specs.declared.ask.Stage.TheVariants.{Fresh};
ghost use Rattle.init_ends.specs.Objects.{are_one, is_named, oids_of, all_fresh, mech_for};
ghost use Rattle.init_ends.specs.Objects.{are_oids};

use gss_base::MechKind;
use mech_objects::Mech;
use sec_base::{NoMemory, Oid};
use spnego_core::same_kind;
use std::alloc::Global;

/// Whether both are one mechanism, where there is one.
fn are_one(named: Option<MechKind>, own: Option<MechKind>) -> bool
    ensures { result ≡ are_one named own }
{
    match own {
        None => false,
        Some(own) => match named {
            None => false,
            Some(named) => same_kind(named, own),
        },
    }
}

/// Whether this identifier names what stands under that one: it is the same, or another of the same mechanism (RFC 4178 section 4.2.2).
pub fn is_named(oid: &Oid, own: &Oid) -> bool
    ensures { result ≡ is_named oid.now own.now }
{
    *oid == *own || are_one(MechKind::of(oid), MechKind::of(own))
}

/// The mechanism of one object.
pub fn kind_at(object: &Box<dyn Mech>) -> MechKind
    ensures { result ≡ (meaning object.now).kind }
{
    object.kind()
}

/// The identifier of one object.
pub fn oid_at(object: &Box<dyn Mech>) -> Oid
    ensures { result ≡ (meaning object.now).oid }
{
    object.oid()
}

/// The identifiers of the objects, as the list is sent.
pub fn own_list(alloc: Global, list: &[Box<dyn Mech>]) -> Result<Vec<Oid>, NoMemory>
    ensures { IfOk result (λ v. v.items ≡ oids_of (map meaning list.now)) }
{
    let mut found = Vec::new(alloc);
    for object in list {
        found.push(oid_at(object))?;
    }
    Ok(found)
}

/// The first object that an identifier names; the others are dropped.
pub fn mech_for(list: Vec<Box<dyn Mech>>, oid: &Oid) -> Option<Box<dyn Mech>>
    requires { all_fresh (map meaning list.items) ≡ true }
    ensures fresh { IfSome result (λ b. (meaning b).stage ≡ Fresh) }
    ensures exact { option_map meaning result ≡ mech_for (map meaning list.items) oid.now }
{
    for object in list {
        let own = oid_at(&object);
        let named = is_named(oid, &own);
        if named {
            return Some(object);
        }
    }
    None
}

/// Does nothing; its contract says that each of these is an object identifier, of at most 32 octets.
pub fn tell_oids(list: &[Oid])
    ensures { are_oids list.now ≡ true }
{
    for oid in list {
        let _content = oid.content();
    }
}
