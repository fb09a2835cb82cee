//! The receipts of a run's answers, and its log.

ghost use Rattle.server_laws.specs.KeptReceipts.{KeptLaw, KeepsReceipts, KeptReceiptsLaw};
ghost use Rattle.server_laws.specs.Receipts.{OfAllDesksLaw};

use gss_server::{KeepReceipts, Keeper, Kept, Served};
use rpc_program::{Program, Speller};
use sec_base::{Clock, Draw, Port};

/// Does nothing; its contract holds that the receipts of all desks' answers together are the entries of the log, each once.
pub fn prove_receipts<T>()
    ensures { OfAllDesksLaw T }
{}

/// Does nothing; its contract holds that the receipts which the desks of a run keep are the entries of the log that `run_server` returns, each once,
/// none missing and none invented: each keeper has those of its desk's questions, in order (`booked` of `run_server` gives the history). `keeps` says
/// that `KeepReceipts` is such a keeper.
pub fn prove_kept_receipts<
    V: Program<Ticket = T>,
    T,
    W: Speller<T>,
    P: Port,
    C: Clock,
    D: Draw,
    S: Keeper<Served<P::Link>>,
>()
    ensures record { KeptLaw }
    ensures keeps { KeepsReceipts ⟦<KeepReceipts as Keeper<Kept>>⟧ }
    ensures run { KeptReceiptsLaw V.Program W.Speller P.Port P.Link.Link C.Clock D.Draw
        ⟦<KeepReceipts as Keeper<Kept>>⟧ S.Keeper }
{}
