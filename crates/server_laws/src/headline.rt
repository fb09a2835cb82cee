//! The headline, of the log that a run of the server returns.

ghost use Rattle.server_laws.specs.ServerHeadline.{ServerHeadline};

use gss_server::{Keeper, Kept, Served};
use rpc_program::{Program, Speller};
use sec_base::{Clock, Draw, Port, Shelf};
use world_laws::prove_headline;

/// Does nothing; its contract holds the headline of the log that `run_server` returns, from what `run_server` promises of it (`booked`, `legal`).
/// For any initiators, whatever they do while the server runs, there is a run of the world that leads to this log. By its premises, that nothing was
/// forged under guarded keys and that draws were fresh, agreement and origin hold of this very log; and without any premise no number of a context
/// and no authenticator stands in it twice. It holds of any program whose arguments and results can't be taken for something else that is signed.
pub fn prove_server_headline<
    F: Shelf,
    V: Program<Ticket = T>,
    T,
    W: Speller<T>,
    P: Port,
    C: Clock,
    D: Draw,
    K: Keeper<Kept>,
    S: Keeper<Served<P::Link>>,
>()
    ensures { ServerHeadline F.Shelf V.Program W.Speller P.Port P.Link.Link C.Clock
        D.Draw K.Keeper S.Keeper }
{
    scram_mech::prove_laws();
    prove_headline();
}
