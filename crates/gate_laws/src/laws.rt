//! Laws of the answers of a book, by a seat of its own or by the seats of several desks.

ghost use Rattle.gate_laws.specs.GateSeen.{SeatSeenLaw, OwnSeen};

use book_seats::Begins;
use gss_server::OwnGate;
use rpc_program::{Program, Speller};

/// Does nothing; its contract holds that each answer of a desk's seat is what the log before it says, together with the questions of all desks before
/// it, from a book that began as the room says, where each such book has no entries.
pub fn prove_seats_see<P: Program<Ticket = T>, T, S: Speller<T>, J: Begins<P>>()
    ensures { SeatSeenLaw P.Program S.Speller J.begins }
{}

/// Does nothing; its contract holds that each answer which this gate gave since its book had no entries is what the log before it says, together
/// with the questions before it.
pub fn prove_own_seen<P: Program, S: Speller<P::Ticket>>(gate: &OwnGate<P, S>)
    ensures { OwnSeen P.Program S.Speller (record {
      book = gate.now.seat;
      program = gate.now.program;
      speller = gate.now.speller;
    }) }
{
    let _ = gate.seat.log();
}
