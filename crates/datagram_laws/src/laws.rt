//! The laws.
ghost use Rattle.datagram_laws.specs.Done.{DoneLaw};
ghost use Rattle.datagram_laws.specs.Replies.{RepliesLaw};
ghost use Rattle.datagram_laws.specs.Sessions.{SendsLaw, MadeLaw};

use again_laws::prove_acts_once;
use datagram_post::Post;
use sec_base::Draw;

/// Does nothing; its contract holds that a call which is done was admitted, and that its reply says the outcome of that answer.
pub fn prove_done()
    ensures { DoneLaw }
{}

/// Does nothing; its contract holds that each reply to a call that is done says the outcome of a call that acted with its
/// transaction number, and of that one alone where enough calls are kept and the records are a session's.
pub fn prove_replies()
    ensures { RepliesLaw }
{
    prove_acts_once()
}

/// Does nothing; its contract holds that what a session's calls send over datagrams are records of a session, as `prove_replies` wants them:
/// their numbers rise from record to record, their transaction numbers never fall, and the octets say both.
pub fn prove_sends()
    ensures { SendsLaw }
{}

/// Does nothing; its contract holds that each call which is answered sends such records, and leaves the session behind it.
pub fn prove_made<P: Post, D: Draw>()
    ensures { MadeLaw P.Post D.Draw }
{}
