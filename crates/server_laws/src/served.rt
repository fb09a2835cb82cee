//! What a server did, as the world sees it.

ghost use Rattle.server_laws.specs.Served.{ServedLaw, AllServedLaw};
ghost use Rattle.server_laws.specs.ServerRun.{OpenedLaw, BookRunLaw, ServerIsRun};
ghost use Rattle.server_laws.specs.Questions.{QuestionsLaw};

use gss_server::{Keeper, Kept, Served};
use rpc_program::{Program, Speller};
use sec_base::{Clock, Draw, Port};

/// Does nothing; its contract holds that records which a book answered are events of a lane of the world, whatever width its replies tell.
pub fn prove_served()
    ensures record { ServedLaw }
    ensures records { AllServedLaw }
{}

/// Does nothing; its contract holds that the log which a run of the server returns is that of a run of the world, from the book that it opened.
pub fn prove_server_run<
    V: Program<Ticket = T>,
    T,
    W: Speller<T>,
    P: Port,
    C: Clock,
    D: Draw,
    K: Keeper<Kept>,
    S: Keeper<Served<P::Link>>,
>()
    ensures opened { OpenedLaw }
    ensures book { BookRunLaw }
    ensures run { ServerIsRun V.Program W.Speller P.Port P.Link.Link C.Clock D.Draw
        K.Keeper S.Keeper }
{}

/// Does nothing; its contract holds that the questions of a desk in the history of a run are those of the desk's records, in order, each as the rule
/// of its record asks it.
pub fn prove_questions<
    T,
    W: Speller<T>,
    P: Port,
    C: Clock,
    D: Draw,
    K: Keeper<Kept>,
    S: Keeper<Served<P::Link>>,
>()
    ensures { QuestionsLaw W.Speller P.Port P.Link.Link C.Clock D.Draw K.Keeper S.Keeper }
{}
