//! What the types of an initiator's facts say, as contracts over lists of facts need it.

ghost use Rattle.std.specs.Prelude.{◌≡◌, ℕ, IfOk, map, slice_get, Option, Some, option_map, List};
ghost use Rattle.base64.specs.GeneralPurpose.{IsBytes};
ghost use Rattle.scram_mech.specs.Grammar.{AreOctets};
ghost use Rattle.spnego_core.specs.Ends.{PlainSetup, setup_of};
ghost use Rattle.spnego_core.specs.declared.setup.MechCred.{MechCred as MechCredIs};
ghost use Rattle.world_laws.specs.Setups.{IsSetup, IsSpelled};

use ap_exchange::ApInit;
use gss_base::Bindings;
use sec_base::{Moment, NoMemory};
use spnego_core::{InitFacts, MechCred};
use std::alloc::Global;

/// Does nothing that stays: a request with this credential has a spelling.
fn tell_credential(
    alloc: Global,
    cred: &MechCred,
    stamp: Moment,
    draws: &[u8; 66],
    bindings: Option<&Bindings>,
) -> Result<(), NoMemory>
    ensures { IfOk result
        (λ _. IsSpelled cred.now stamp draws.now (option_map (λ b. b.now) bindings.entry)) }
{
    match cred {
        MechCred::Kerberos { credential, .. } => {
            ApInit::told_spelling(alloc, credential, stamp, draws, bindings)
        }
        MechCred::Scram { .. } => Ok(()),
    }
}

/// Does nothing that stays: requests with these credentials have a spelling.
fn tell_credentials(alloc: Global, own: &InitFacts) -> Result<(), NoMemory>
    ensures { IfOk result (λ _. (i : ℕ) (cred : MechCredIs) → slice_get own.now.list i ≡ Some cred
        → IsSpelled cred own.now.stamp own.now.draws own.now.bindings) }
{
    for cred in own.list.as_slice() {
        tell_credential(alloc, cred, own.stamp, &own.draws, own.bindings.as_ref())?;
    }
    Ok(())
}

/// Does nothing: these are 66 octets.
fn tell_draws(draws: &[u8; 66])
    ensures { AreOctets 66 66 draws.now }
{
    let _first = draws[0];
}

/// Does nothing: these are octets.
fn tell_octets(octets: &[u8])
    ensures { IsBytes octets.now }
{
    let _count = octets.len();
}

/// Does nothing: application data are octets, and as many as may be.
fn tell_data(bindings: &Bindings)
    ensures { AreOctets 1 32768 bindings.now }
{
    tell_octets(bindings.application());
}

/// Does nothing: the bindings, where there are some, may be.
fn tell_bindings(bindings: Option<&Bindings>)
    ensures { (application : List ℕ) → option_map (λ b. b.now) bindings.entry ≡ Some application
        → AreOctets 1 32768 application }
{
    if let Some(bindings) = bindings {
        tell_data(bindings);
    }
}

/// Does nothing that stays: the setup of these facts is one that their types allow.
fn tell_setup(alloc: Global, own: &InitFacts) -> Result<(), NoMemory>
    ensures { IfOk result (λ _. IsSetup (setup_of own.now)) }
{
    tell_draws(&own.draws);
    tell_bindings(own.bindings.as_ref());
    tell_credentials(alloc, own)
}

/// Does nothing that stays: each setup of these facts is one that their types allow.
pub(crate) fn tell_setups(alloc: Global, facts: &[InitFacts]) -> Result<(), NoMemory>
    ensures { IfOk result
        (λ _. (i : ℕ) (own : PlainSetup) → slice_get (map setup_of facts.now) i ≡ Some own
        → IsSetup own) }
{
    for own in facts {
        tell_setup(alloc, own)?;
    }
    Ok(())
}
