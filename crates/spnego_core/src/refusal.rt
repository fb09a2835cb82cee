//! What a negotiating end refuses.

ghost use Rattle.std.specs.Prelude.{◌≡◌, ◌≢◌};
ghost use Rattle.der_core.specs.declared.refusal.DerWhy.TheVariants as whys;
ghost use Rattle.ap_exchange.specs.declared.refusal.ApRefusal.TheVariants as aps;
ghost use Rattle.scram_mech.specs.declared.refusal.ScramRefusal.TheVariants as scrams;
ghost use Rattle.spnego_core.specs.Numbers.{neg_number};
ghost use Rattle.spnego_core.specs.declared.refusal.NegRefusal.TheVariants as refusals;

use ap_exchange::ApRefusal;
use der_core::{DerRefusal, DerWhy};
use scram_mech::ScramRefusal;
use sec_base::NoMemory;

/// Why a mechanism refuses.
#[derive(Clone, Copy, Debug, PartialEq, Eq)]
pub enum MechRefusal {
    /// Kerberos's exchange. Want of memory is never in it (`prove_init_laws`, `prove_accept_laws`): that is the end's own answer.
    Ap(ApRefusal),
    /// SCRAM's exchange. Want of memory is never in it.
    Scram(ScramRefusal),
}

/// Why an end refuses.
#[derive(Clone, Copy, Debug, PartialEq, Eq)]
pub enum NegRefusal {
    /// The token isn't in its grammar from the place `at` on, or what must be in it isn't: then `at` is its length. What may not be in it is
    /// refused at 0.
    Defective { at: usize },
    /// The other end said reject.
    Rejected,
    /// The acceptor names a mechanism that isn't in the own list, or another than it chose.
    MechNotMine,
    /// None of the list's mechanisms is offered.
    NoCommonMech,
    /// The list's MIC is due and isn't there.
    MicMissing,
    /// The list's MIC doesn't verify.
    MicBad,
    /// The mechanism refuses its token.
    Mech(MechRefusal),
    /// No memory was to be had.
    NoMemory,
}

impl NegRefusal {
    /// The number by which it is told: the minor status that an acceptor sends, and what a client prints.
    pub fn number(self) -> u32
        ensures { result ≡ neg_number self }
    {
        match self {
            NegRefusal::Defective { at: _ } => 1,
            NegRefusal::Rejected => 2,
            NegRefusal::MechNotMine => 3,
            NegRefusal::NoCommonMech => 4,
            NegRefusal::MicMissing => 5,
            NegRefusal::MicBad => 6,
            NegRefusal::Mech(MechRefusal::Ap(refusal)) => refusal.number(),
            NegRefusal::Mech(MechRefusal::Scram(refusal)) => refusal.number(),
            NegRefusal::NoMemory => 0,
        }
    }
}

impl From<NoMemory> for NegRefusal {
    ghost use Rattle.spnego_core.specs.declared.refusal.NegRefusal.{NegRefusal};

    ghost from_gives = { λ _ e. e ≡ refusals.NoMemory };

    fn from(_error: NoMemory) -> NegRefusal {
        NegRefusal::NoMemory
    }
}

/// The refusal of a token's octets.
pub(crate) fn unread(refusal: DerRefusal) -> NegRefusal
    ensures defective { refusal.why ≢ whys.NoMemory → result ≡ NegRefusal.Defective refusal.at }
    ensures memory { refusal.why ≡ whys.NoMemory → result ≡ NegRefusal.NoMemory }
{
    match refusal.why {
        DerWhy::NoMemory => NegRefusal::NoMemory,
        _ => NegRefusal::Defective { at: refusal.at },
    }
}

/// The refusal of Kerberos's exchange.
pub fn ap_refused(refusal: ApRefusal) -> NegRefusal
    ensures mech { refusal ≢ aps.NoMemory → result ≡ NegRefusal.Mech (MechRefusal.Ap refusal) }
    ensures memory { refusal ≡ aps.NoMemory → result ≡ NegRefusal.NoMemory }
{
    match refusal {
        ApRefusal::NoMemory => NegRefusal::NoMemory,
        refusal => NegRefusal::Mech(MechRefusal::Ap(refusal)),
    }
}

/// The refusal of SCRAM's exchange.
pub fn scram_refused(refusal: ScramRefusal) -> NegRefusal
    ensures mech { refusal ≢ scrams.NoMemory
        → result ≡ NegRefusal.Mech (MechRefusal.Scram refusal) }
    ensures memory { refusal ≡ scrams.NoMemory → result ≡ NegRefusal.NoMemory }
{
    match refusal {
        ScramRefusal::NoMemory => NegRefusal::NoMemory,
        refusal => NegRefusal::Mech(MechRefusal::Scram(refusal)),
    }
}
