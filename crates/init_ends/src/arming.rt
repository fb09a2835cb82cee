//! Objects that are handed in blank, armed and put in the order of their credentials.

ghost use Rattle.std.specs.Prelude.{◌≡◌, [], ◌∷◌, IfOk, length, map, true, false};
ghost use Rattle.spnego_core.specs.Ends.{setup_of};
ghost use Rattle.spnego_core.specs.InitMech as plain_lists;
ghost use Rattle.spnego_core.specs.InitMech.{kind_of, name_of, oid_listed};
ghost use Rattle.mech_objects.specs.Meaning.{armed};
ghost use Rattle.gss_base.specs.declared.mech.KerberosName.TheVariants.{Standard, Microsoft};
ghost use Rattle.gss_base.specs.declared.mech.MechName.TheVariants.{Kerberos, Scram};
ghost use Rattle.mech_objects.specs.Standard.{blank_of};
ghost use Rattle.mech_objects.specs.declared.ask.Stage.TheVariants.{Blank};
ghost use Rattle.init_ends.specs.Arming.{AreBlank, AreStandard, has_oid, place_of, without};
ghost use Rattle.init_ends.specs.Ends.{setup_means};
ghost use Rattle.init_ends.specs.Objects.{is_own_list};
ghost use Rattle.init_ends.specs.Plain.{fresh_of, objects_of};

use crate::ends::InitSetup;
use crate::lists::oid_at;
use mech_objects::{Mech, MechAsk};
use sec_base::{Items, NoMemory, Oid};
use spnego_core::{InitFacts, MechCred};
use std::alloc::Global;

/// The blank objects of Kerberos under its own identifier, of Kerberos under Microsoft's, and of SCRAM, as `InitSetup::armed` takes them.
pub fn standard_mechs(
    alloc: Global,
    kerberos: Box<dyn Mech>,
    microsoft: Box<dyn Mech>,
    scram: Box<dyn Mech>,
) -> Result<Vec<Box<dyn Mech>>, NoMemory>
    requires kerberos { meaning kerberos ≡ blank_of (Kerberos Standard) }
    requires microsoft { meaning microsoft ≡ blank_of (Kerberos Microsoft) }
    requires scram { meaning scram ≡ blank_of Scram }
    ensures { IfOk result (λ v. AreStandard (map meaning v.items)) }
{
    let mut list = Vec::new(alloc);
    list.push(kerberos)?;
    list.push(microsoft)?;
    list.push(scram)?;
    Ok(list)
}

/// A blank object, armed with a credential of its mechanism.
pub fn armed_with(object: Box<dyn Mech>, cred: MechCred) -> Box<dyn Mech>
    requires blank { (meaning object).stage ≡ Blank }
    requires same { kind_of cred ≡ (meaning object).kind }
    ensures { meaning result ≡ armed (meaning object) cred }
{
    let mut object = object;
    object.arm(cred);
    object
}

/// Where the first object under an identifier stands; there is one.
fn place_of(mechs: &[Box<dyn Mech>], oid: &Oid) -> usize
    requires { has_oid (map meaning mechs.now) oid.now ≡ true }
    ensures { result ≡ place_of (map meaning mechs.now) oid.now }
{
    for (place, object) in mechs.iter().enumerate() {
        if oid_at(object) == *oid {
            return place;
        }
    }
    unreachable!()
}

/// The first object under a credential's identifier, and the others; there is one.
fn taken(mechs: Vec<Box<dyn Mech>>, cred: &MechCred) -> (Box<dyn Mech>, Vec<Box<dyn Mech>>)
    requires blank { AreBlank (map meaning mechs.items) }
    requires there { has_oid (map meaning mechs.items) (oid_listed cred.now) ≡ true }
    ensures object { meaning result.0 ≡ blank_of (name_of cred.now) }
    ensures others { map meaning result.1.items
        ≡ without (map meaning mechs.items) (oid_listed cred.now) }
{
    let place = place_of(mechs.as_slice(), &cred.name().oid());
    let mut mechs = mechs;
    let object = mechs.remove(place);
    (object, mechs)
}

/// The blank object under a credential's identifier, armed with it.
#[tactic(auto, using(crate::proofs::Taking::named_kind))]
fn armed_for(object: Box<dyn Mech>, cred: MechCred) -> Box<dyn Mech>
    requires { meaning object ≡ blank_of (name_of cred) }
    ensures { meaning result ≡ fresh_of cred }
{
    armed_with(object, cred)
}

/// The objects of these credentials, armed, in their order: each under the identifier of its credential. One that gets no credential is
/// dropped. `mechs` has blank objects in any order, and at least one under each name.
pub fn armed_list(
    alloc: Global,
    mechs: Vec<Box<dyn Mech>>,
    creds: Items<MechCred>,
) -> Result<Vec<Box<dyn Mech>>, NoMemory>
    requires blank { AreStandard (map meaning mechs.items) }
    requires list { plain_lists.is_own_list creds ≡ true }
    ensures { IfOk result (λ v. map meaning v.items ≡ map fresh_of creds) }
{
    let mut mechs = mechs;
    let mut list = Vec::new(alloc);
    for cred in creds.into_vec() {
        let (object, others) = taken(mechs, &cred);
        mechs = others;
        list.push(armed_for(object, cred))?;
    }
    Ok(list)
}

/// The one object of a list.
fn only(list: Vec<Box<dyn Mech>>) -> Box<dyn Mech>
    requires { length list.items ≡ 1 }
    ensures { map meaning list.items ≡ meaning result ∷ [] }
{
    let mut list = list;
    list.remove(0)
}

impl InitSetup {
    /// The setup over the objects of these facts' credentials, in their order. `mechs` has blank objects in any order, and at least one under
    /// each name. An initiator that doesn't negotiate has one credential.
    #[tactic(auto, using(crate::proofs::PlainNames::own_objects))]
    pub fn armed(
        alloc: Global,
        mechs: Vec<Box<dyn Mech>>,
        facts: InitFacts,
    ) -> Result<InitSetup, NoMemory>
        requires blank { AreStandard (map meaning mechs.items) }
        requires list { plain_lists.is_own_list facts.list ≡ true }
        requires bare { facts.negotiates ≡ false → plain_lists.is_bare_list facts.list ≡ true }
        ensures objects { IfOk result (λ s. setup_means meaning s ≡ objects_of (setup_of facts)) }
        ensures own { IfOk result (λ s. is_own_list (setup_means meaning s).list ≡ true) }
    {
        let InitFacts {
            list,
            bindings,
            stamp,
            draws,
            negotiates,
        } = facts;
        let list = armed_list(alloc, mechs, list)?;
        let ask = MechAsk {
            stamp,
            draws,
            bindings,
        };
        if negotiates {
            Ok(InitSetup::Negotiating(list, ask))
        } else {
            Ok(InitSetup::Bare(only(list), ask))
        }
    }
}
