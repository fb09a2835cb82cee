//! The laws.
ghost use Rattle.again_laws.specs.Below.{BelowLaw};
ghost use Rattle.again_laws.specs.Laws.{log_of, GateAnswers, WithinLaw, ActsOnce, AnsweredOnce};
ghost use Rattle.again_laws.specs.Laws.{EachOnce};
ghost use Rattle.again_laws.specs.Sole.{IsSole};

use gss_server::Gate;

/// Does nothing; its contract holds that the gate below answered one chain of questions, each one of the gate's own, and that the receipts
/// of both are the same.
pub fn prove_below<G: Gate>()
    ensures { BelowLaw G.Gate.answers }
{}

/// Does nothing; its contract holds that a book's log grows by the receipts of its answers alone, and that no more contexts live in it than
/// may.
pub fn prove_sole()
    ensures sole { IsSole GateAnswers log_of }
    ensures within { WithinLaw }
{}

/// Does nothing; its contract holds that a call which is sent again acts once, and is answered what it was answered when it acted.
pub fn prove_acts_once()
    // No call that acts has a transaction number that stands among the last calls of its context that acted.
    ensures acts_once { ActsOnce }
    // What is answered is the outcome of a call that acted, with the record's transaction number, unless memory was wanted.
    ensures answered { AnsweredOnce }
    // There is one such call alone, where enough are kept, and the records are a session's.
    ensures each_once { EachOnce }
{}
