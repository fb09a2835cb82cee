//! What a lane does with the record that it has in hand.

ghost use Rattle.std.specs.Prelude.{◌≡◌};
ghost use Rattle.world_runs.specs.Served.{served};
ghost use Rattle.world_runs.specs.Turning.{Turned, happened_of, said_by};

use crate::turn::Turn;
use accept_book::{Lease, LookRefusal, OwnSeat};
use gss_server::{Answered, Reply, answer_record};
use posts_program::Posts;
use sec_base::{Moment, NoMemory, Octets};
use std::alloc::Global;
use std::marker::Model;
use world_laws::Happened;

/// The width of the windows that replies tell.
const TOLD_WIDTH: u32 = 128;

/// A record in hand, the moment and the draws that were taken with it, and what a look was answered, where one was.
///
/// Contracts see an `InHand` of the world.
#[derive(Drop)]
pub(crate) struct InHand {
    pub bytes: Octets,
    pub now: Moment,
    pub draws: [u8; 82],
    pub looked: Option<Result<Lease, LookRefusal>>,
}

impl Model for InHand {
    ghost use Rattle.std.specs.Prelude.{None};
    ghost use Rattle.world_laws.specs.State.{InHand};

    ghost Value = { InHand };

    ghost view = { λ h. record {
      octets = h.bytes;
      kept = record {
        now = h.now;
        draws =
            h.draws;
        negotiated = None;
        looked = h.looked;
        admitted = None;
        ended = None;
      };
    } };
}

/// What an event of a lane leaves, and what came of it.
#[derive(Drop)]
pub(crate) struct LaneMoves {
    pub book: OwnSeat,
    /// The state of the program that is served.
    pub posts: Posts,
    pub lane: Option<InHand>,
    pub happened: Result<Happened, NoMemory>,
}

/// What came of a record by its rule and its reply.
fn said(rule: u8, reply: Reply) -> Result<Happened, NoMemory>
    ensures { happened_of result ≡ said_by rule reply }
{
    match reply {
        Reply::Silent => Ok(Happened::Stepped(rule)),
        Reply::Bytes(octets) => Ok(Happened::Sent(octets)),
        Reply::Gone => Ok(Happened::Stepped(rule)),
        Reply::NoMemory => Err(NoMemory),
    }
}

/// Goes on with the record in hand: it is answered, or one question of it is asked.
pub(crate) fn step(alloc: Global, book: OwnSeat, posts: Posts, hand: InHand) -> LaneMoves
    ensures { Turned served book hand result.book result.lane (happened_of result.happened) }
{
    let InHand {
        bytes,
        now,
        draws,
        looked,
    } = hand;
    let mut turn = Turn {
        book,
        posts,
        looked,
        asked: false,
        further: false,
    };
    let answered = answer_record(alloc, &mut turn, bytes.as_slice(), now, &draws, TOLD_WIDTH);
    let Answered { rule, kept, reply } = answered;
    let Turn {
        book,
        posts,
        further,
        ..
    } = turn;
    if further {
        let looked = kept.looked;
        let lane = Some(InHand {
            bytes,
            now,
            draws,
            looked,
        });
        let happened = Ok(Happened::Stepped(0));
        return LaneMoves {
            book,
            posts,
            lane,
            happened,
        };
    }
    let happened = said(rule, reply);
    LaneMoves {
        book,
        posts,
        lane: None,
        happened,
    }
}
