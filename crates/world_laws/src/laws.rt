//! What holds after every run of a world.

ghost use Rattle.gss_base.specs.declared.mech.MechKind.TheVariants as kinds;
ghost use Rattle.world_laws.specs.Agreement.{AgreementLaw};
ghost use Rattle.world_laws.specs.OneMechanism.{AgreementLawBy};
ghost use Rattle.world_laws.specs.Below.{Below};
ghost use Rattle.world_laws.specs.Headline.{Headline};
ghost use Rattle.world_laws.specs.KnownList.{KnownListLaw, UnforgedListLaw};
ghost use Rattle.world_laws.specs.Origin.{OriginLaw};

use accept_book::laws::prove_book_laws;
use spnego_core::{prove_accept_laws, prove_init_laws};

/// Does nothing; its contract holds the laws of the crates below.
pub fn tell_below()
    ensures { Below }
{
    krb_derive::prove_laws();
    krb_tokens::prove_laws();
    ap_exchange::prove_laws();
    scram_mech::prove_laws();
    prove_init_laws();
    prove_accept_laws();
    prove_book_laws();
}

/// Does nothing; its contract holds agreement. After every list of events, for every marking under whose guarded keys nothing is forged, and where
/// what is drawn is fresh: an initiator that completed on a guarded key has one partner, no two share one, and both have one outcome (mechanism,
/// names, key, binding hash), the mechanism being the first of its own list that the acceptor offers; and a context that is fixed on a guarded key has
/// one initiator, whose facts give its names and hash, and whose outcome, where it completed on a guarded key, is the context's.
///
/// `kerberos` and `scram` say it of one mechanism alone, and rest on no MIC.
pub fn prove_agreement()
    ensures kerberos { AgreementLawBy kinds.Kerberos }
    ensures scram { AgreementLawBy kinds.Scram }
    ensures agreement { AgreementLaw }
{
    tell_below();
}

/// Does nothing; its contract holds origin. After every list of events, for every marking as in `prove_agreement`: each call in the log, and each end by
/// a call, of a context that is fixed on a guarded key was made by the context's initiator. It called with that number; and the call in the log has its
/// procedure, and the digest of its arguments.
pub fn prove_origin()
    ensures { OriginLaw }
{
    tell_below();
}

/// Does nothing; its contract holds what an acceptor knows of the list. After every list of events, for every marking as in `prove_agreement`, and where
/// MICs over lists are no calls' and no other initiator's: a settled context on a guarded key has the acceptor's first choice, or the list that it
/// received is its initiator's own.
pub fn prove_known_list()
    ensures { KnownListLaw }
{
    tell_below();
}

/// Does nothing; its contract holds that a run meets what `prove_known_list` asks of it beside the premises of the headline. In the run nothing is
/// forged, nobody calls, and nobody ends before its context stands; after it, one whose mechanism is done with the key of a context on a guarded key is
/// on a guarded key itself, and contexts on proofs have keys of their own.
pub fn prove_unforged_list()
    ensures { UnforgedListLaw }
{
    tell_below();
}

/// Does nothing; its contract holds the headline: agreement and origin, at each point of a run; that no number of a context and no authenticator
/// stands twice in the log; and that what is refused asks nothing of the premises.
pub fn prove_headline()
    ensures { Headline }
{
    tell_below();
}
