//! Laws of the first arrival of an honest call.

ghost use Rattle.arrival_laws.specs.FirstArrival.{ArrivalInHandLaw, FirstArrivalLaw};
ghost use Rattle.arrival_laws.specs.SeenArrival.{SeenArrivalLaw};

use world_laws::tell_below;

/// Does nothing; its contract holds that an honest call which comes to an idle lane, of a context that lives by the log, is done: the lane's next event
/// but one replies to it by rule 23, and the log has it, unless memory is wanted, as long as the context isn't ended meanwhile, its number may be
/// called, and the log has a place.
pub fn prove_first_arrival()
    ensures { FirstArrivalLaw }
{
    tell_below();
}

/// Does nothing; its contract holds the same of a history whose answers are what the log before them says, as `run_server` has one of all its desks.
pub fn prove_seen_arrival()
    ensures { SeenArrivalLaw }
{}

/// Does nothing; its contract holds that in every world an honest call which a lane has in hand, of a context that the book showed it, is done by the
/// lane's next event, unless memory is wanted: where its number may be called, and the log has a place.
pub fn prove_arrival_in_hand()
    ensures { ArrivalInHandLaw }
{}
