//! What holds of a session and of a book together.

ghost use Rattle.pair_laws.specs.EqualCalls.{EqualCalls};
ghost use Rattle.pair_laws.specs.Creation.{CreationLaw};
ghost use Rattle.pair_laws.specs.Ending.{EndLaw};
ghost use Rattle.pair_laws.specs.HonestCalls.{CallLaw};
ghost use Rattle.pair_laws.specs.Laws.{PairLaw};
ghost use Rattle.pair_laws.specs.Linked.{CreatedLaw, LinkedLaw};
ghost use Rattle.pair_laws.specs.Opening.{StepTurnLaw};
ghost use Rattle.pair_laws.specs.Posts.{PostsLaw};
ghost use Rattle.pair_laws.specs.Resting.{RestLaw};
ghost use Rattle.pair_laws.specs.Rows.{ChainLaw, RowLaw};
ghost use Rattle.pair_laws.specs.Running.{RunLaw};
ghost use Rattle.pair_laws.specs.Sessions.{SessionLaw};
ghost use Rattle.pair_laws.specs.Whole.{WholeLaw};
ghost use Rattle.pair_laws.specs.Turns.{CallTurnLaw, EndTurnLaw};

use accept_book::Lease;
use accept_book::laws::honest_records;
use krb_derive::{Key, SealKeys};

/// Does nothing; its contract holds the completeness of the pair: where the octets that a session hears are the replies of the rule of a
/// record to what it writes, over a book, and the facts of both ends fit, the book settles the context, the session is created, and both have
/// one outcome; over a link nothing else comes of the creation but its fault and want of memory.
pub fn prove_pair()
    ensures { PairLaw }
{}

/// Does nothing that stays; its contract says that an honest call of a session on this context, which the server shows, whose number it admits and
/// which comes to a result, is answered by rule 23, and that the session takes this result from the reply.
pub fn prove_calls(lease: &Lease)
    ensures { CallLaw lease.now }
{
    honest_records(lease);
    let _keys = SealKeys::of(&lease.outcome.key, 22);
}

/// Does nothing; its contract says that a session's end on a context that the server shows, and whose number it takes, is answered by rule 24, and
/// that the session hears that the context is destroyed.
pub fn prove_ends()
    ensures { EndLaw }
{}

/// Does nothing that stays; its contract says what a book answers to a call of a session on a live context: it shows the context, admits the next
/// number, and has the call in its log.
pub fn prove_call_turns(lease: &Lease)
    ensures { CallTurnLaw lease.now }
{
    let _keys = SealKeys::of(&lease.outcome.key, 24);
}

/// Does nothing; its contract says what a book answers to a session's end on a live context: it shows the context, takes the end, and has it in its
/// log, and the context is gone.
pub fn prove_end_turns()
    ensures { EndTurnLaw }
{}

/// Does nothing that stays; its contract says that a session on this key, whose creation an honest server completes and whose records it then answers,
/// is answered what its calls came to, parts with all its calls made or its numbers spent, and has its context destroyed.
pub fn prove_runs(key: &Key)
    ensures { RunLaw key.now }
{
    let _answers = SealKeys::of(key, 22);
    let _calls = SealKeys::of(key, 24);
}

/// Does nothing; its contract says that a talk of so many equal calls is that of a list which repeats one call.
pub fn prove_equal_calls()
    ensures { EqualCalls }
{}

/// Does nothing that stays; its contract says of a session on this key what `prove_runs` says, where its calls may differ: it makes each call of a list,
/// as far as it has numbers, and is answered what each came to.
pub fn prove_sessions(key: &Key)
    ensures { SessionLaw key.now }
{
    let _answers = SealKeys::of(key, 22);
    let _calls = SealKeys::of(key, 24);
}

/// Does nothing; its contract says that records which a book answered one after the other, whatever cuts their stream has, are turns in a row.
pub fn prove_chains()
    ensures { ChainLaw }
{}

/// Does nothing that stays; its contract says that a session on this key, whose turns are a row from a book with its context live and places in the log,
/// is served as `prove_sessions` asks for, and what its row leaves of the book.
pub fn prove_rows(key: &Key)
    ensures { RowLaw key.now }
{
    let _answers = SealKeys::of(key, 22);
    let _calls = SealKeys::of(key, 24);
}

/// Does nothing; its contract says that a book which has places for a token of a creation books it, as an honest exchange asks for.
pub fn prove_step_turns()
    ensures { StepTurnLaw }
{}

/// Does nothing; its contract says that a book in which no context lives has places for the next session: for its context, and for its mark.
pub fn prove_rests()
    ensures { RestLaw }
{}

/// Does nothing; its contract says that a creation by an honest pair, whose turns are a row from a book at rest with places, all at the moment of the
/// client's stamp, is an honest exchange: each token is taken, the session is created, and its context lasts. It says what that leaves of the book.
pub fn prove_creations()
    ensures { CreationLaw }
{}

/// Does nothing that stays; its contract says that a whole session on this key, whose turns are a row from a book at rest with places, is done: it is
/// created, is answered what its calls came to, and ends, and the book rests again, with all of it in its log.
pub fn prove_wholes(key: &Key)
    ensures { WholeLaw key.now }
{
    let _answers = SealKeys::of(key, 22);
    let _calls = SealKeys::of(key, 24);
}

/// Does nothing; its contract says that a session of an honest pair over a link that answers by a book at rest, all at the moment of the client's stamp,
/// is created: it tells an outcome.
pub fn prove_created()
    ensures { CreatedLaw }
{}

/// Does nothing that stays; its contract says that a whole session on this key over a link that answers by a book at rest is done, by the link's records
/// and the answers that were kept for them: it is created, is answered what its calls came to, and ends, and the book rests again.
pub fn prove_links(key: &Key)
    ensures { LinkedLaw key.now }
{
    let _answers = SealKeys::of(key, 22);
    let _calls = SealKeys::of(key, 24);
}

/// Does nothing; its contract says that what the program of posts gives, by whatever count, is a result of what its client asks.
pub fn prove_posts()
    ensures { PostsLaw }
{}
