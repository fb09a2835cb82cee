//! A book's history: its questions and answers, and its log.

ghost use Rattle.history_laws.specs.Counting.{FullOfOne};
ghost use Rattle.history_laws.specs.Examples.{Examples};
ghost use Rattle.history_laws.specs.Receipts.{InPlaceLaw};
ghost use Rattle.history_laws.specs.Says.{SaysLaw};
ghost use Rattle.history_laws.specs.Seen.{SeenLaw};

/// Does nothing; its contract holds that the receipts of a book's answers are the entries of its log, each with its place.
pub fn prove_receipts()
    ensures { InPlaceLaw }
{}

/// Does nothing; its contract holds what a legal log says of an id: never opened, opened, settled or ended, by the entries that it has.
pub fn prove_says()
    ensures { SaysLaw }
{}

/// Does nothing; its contract holds that each answer of a book which was opened without entries is what the log before it, and the questions
/// before it, say.
pub fn prove_history()
    ensures { SeenLaw }
{}

/// Does nothing; its contract holds that where as many contexts live as may, and none negotiates, one may live at most.
pub fn prove_full_of_one()
    ensures { FullOfOne }
{}

/// Short histories by hand: what an answer has to be, and what it can't be.
pub fn histories_by_hand()
    ensures { Examples }
{}
