//! The initiator's first token, RFC 4178 sections 3.2 and 4.2.1.

ghost use Rattle.std.specs.Prelude.{◌≡◌, [], ◌∷◌, IfOk, true, map};
ghost use Rattle.sec_base.specs.Answers.{Gives};
ghost use Rattle.spnego_core.specs.Tokens.{init_octets, first_octets};
ghost use Rattle.spnego_core.specs.Sizes.{IsShort, FitsBeside};
ghost use Rattle.mech_objects.specs.Meaning.{starts, started};
ghost use Rattle.mech_objects.specs.declared.ask.Stage.TheVariants.{Fresh};
ghost use Rattle.spnego_core.specs.Choice.{are_few};
ghost use Rattle.init_ends.specs.Objects.{is_own_list, is_waiting, all_fresh};
ghost use Rattle.init_ends.specs.Ends.{setup_means, end_means, holds};
ghost use Rattle.init_ends.specs.Ends as means;
ghost use Rattle.init_ends.specs.Initiating.{first_sent, end_start};

use crate::ends::{InitEnd, InitSetup, Opening};
use crate::lists::{own_list, tell_oids};
use mech_objects::{Mech, MechAsk};
use sec_base::{Items, NoMemory, Octets, Oid};
use spnego_core::NegRefusal;
use spnego_core::tokens::init_octets;
use spnego_msgs::NegInit;
use std::alloc::Global;

/// An object starts.
pub fn start_of(
    alloc: Global,
    object: &mut Box<dyn Mech>,
    ask: &MechAsk,
) -> Result<Octets, NegRefusal>
    requires { (meaning object.old).stage ≡ Fresh }
    ensures exact { Gives NegRefusal.NoMemory (λ o. o) result
        (starts (meaning object.old) ask.now) }
    ensures after { meaning object.new ≡ started (meaning object.old) ask.now result }
    ensures short { IfOk result FitsBeside }
{
    object.start(alloc, ask)
}

/// The first token of an initiator that negotiates: the own list, which is given back, and the first token of its first mechanism.
fn first_sent(
    alloc: Global,
    list: Items<Oid>,
    token: Octets,
) -> Result<(Items<Oid>, Octets), NoMemory>
    requires { are_few list ≡ true }
    ensures list { IfOk result (λ p. p.0 ≡ list) }
    ensures exact { IfOk result (λ p. p.1 ≡ init_octets (first_sent list token)) }
    ensures short { FitsBeside token → IfOk result (λ p. IsShort p.1) }
{
    tell_oids(list.as_slice());
    let init = NegInit {
        list,
        flags: None,
        token: Some(token),
        mic: None,
    };
    let octets = init_octets(alloc, &init)?;
    let NegInit {
        list,
        flags: _,
        token: _,
        mic: _,
    } = init;
    Ok((list, octets))
}

/// The first token, by whether the initiator negotiates, and the own list.
fn first_written(
    alloc: Global,
    negotiates: bool,
    list: Items<Oid>,
    token: Octets,
) -> Result<(Items<Oid>, Octets), NoMemory>
    requires { are_few list ≡ true }
    ensures list { IfOk result (λ p. p.0 ≡ list) }
    ensures exact { IfOk result (λ p. p.1 ≡ first_octets negotiates (first_sent list token)) }
    ensures short { FitsBeside token → IfOk result (λ p. IsShort p.1) }
{
    if negotiates {
        first_sent(alloc, list, token)
    } else {
        Ok((list, token))
    }
}

/// The end behind the first token, which has the token of its first mechanism.
fn opens(
    alloc: Global,
    negotiates: bool,
    own: Vec<Oid>,
    token: Octets,
    ask: MechAsk,
    mech: Box<dyn Mech>,
    others: Vec<Box<dyn Mech>>,
) -> Result<(InitEnd, Octets), NoMemory>
    requires few { are_few own.items ≡ true }
    requires waits { is_waiting (meaning mech).stage ≡ true }
    requires fresh { all_fresh (map meaning others.items) ≡ true }
    ensures end { IfOk result (λ p. end_means meaning p.0
        ≡ means.Opens (record {
          list = own.items;
          ask = ask;
          mech = meaning mech;
          others = map meaning others.items;
          negotiates = negotiates;
        })) }
    ensures token { IfOk result
        (λ p. p.1 ≡ first_octets negotiates (first_sent own.items token)) }
    ensures short { FitsBeside token → IfOk result (λ p. IsShort p.1) }
{
    match first_written(alloc, negotiates, Items::of(own), token) {
        Ok((list, octets)) => {
            let opening = Opening {
                list,
                ask,
                mech,
                others,
                negotiates,
            };
            Ok((InitEnd::Opens(opening), octets))
        }
        Err(refusal) => {
            drop(ask);
            drop(mech);
            drop(others);
            Err(refusal)
        }
    }
}

/// The list of one object.
fn list_of(alloc: Global, mech: Box<dyn Mech>) -> Result<Vec<Box<dyn Mech>>, NoMemory>
    ensures { IfOk result (λ v. map meaning v.items ≡ meaning mech ∷ []) }
{
    let mut list = Vec::new(alloc);
    list.push(mech)?;
    Ok(list)
}

/// The end over these objects, and its first token.
fn started(
    alloc: Global,
    negotiates: bool,
    list: Vec<Box<dyn Mech>>,
    ask: MechAsk,
) -> Result<(InitEnd, Octets), NegRefusal>
    requires { is_own_list (map meaning list.items) ≡ true }
    ensures exact { Gives NegRefusal.NoMemory (λ p. (end_means meaning p.0, p.1)) result
        (end_start (record {
          list = map meaning list.items;
          ask = ask;
          negotiates = negotiates;
        })) }
    ensures held { IfOk result (λ p. holds (end_means meaning p.0) ≡ true) }
    ensures short { IfOk result (λ p. IsShort p.1) }
{
    let Ok(own) = own_list(alloc, list.as_slice()) else {
        drop(list);
        drop(ask);
        return Err(NegRefusal::NoMemory);
    };
    let mut others = list;
    let mut mech = others.remove(0);
    match start_of(alloc, &mut mech, &ask) {
        Ok(token) => {
            let begun = opens(alloc, negotiates, own, token, ask, mech, others)?;
            Ok(begun)
        }
        Err(refusal) => {
            drop(ask);
            drop(mech);
            drop(others);
            Err(refusal)
        }
    }
}

impl InitEnd {
    /// The end and its first token.
    pub fn start(alloc: Global, setup: InitSetup) -> Result<(InitEnd, Octets), NegRefusal>
        requires { is_own_list (setup_means meaning setup).list ≡ true }
        ensures exact { Gives NegRefusal.NoMemory (λ p. (end_means meaning p.0, p.1)) result
            (end_start (setup_means meaning setup)) }
        ensures held { IfOk result (λ p. holds (end_means meaning p.0) ≡ true) }
        ensures short { IfOk result (λ p. IsShort p.1) }
    {
        match setup {
            InitSetup::Negotiating(list, ask) => started(alloc, true, list, ask),
            InitSetup::Bare(mech, ask) => match list_of(alloc, mech) {
                Ok(list) => started(alloc, false, list, ask),
                Err(_) => {
                    drop(ask);
                    Err(NegRefusal::NoMemory)
                }
            },
        }
    }
}
