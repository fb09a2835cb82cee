//! What holds of runs of many.

ghost use Rattle.world_many.specs.Lists.{FreshByListsLaw};
ghost use Rattle.world_many.specs.Carried.{MetByManyLaw};

use world_laws::tell_below;

/// Does nothing; its contract holds that what is listed pairwise different is fresh. After every list of events, for every marking of tickets that
/// were issued and of users: where no two initiators have one session key and stamp, or one nonce, no two contexts have one key, or one of the
/// acceptor's nonces, and each initiator that completed has a partner, all is fresh.
pub fn prove_fresh_by_lists()
    ensures { FreshByListsLaw }
{
    tell_below();
}

/// Does nothing; its contract holds that runs of many meet the premises. Of any number of initiators, each an honest pair with the acceptor, by either
/// mechanism, with the list's MICs where they are due and after a switch, whose records a network carries as they are, in any order among them: nothing
/// is forged, whatever the reader marks, and all is fresh where the world's lists are apart. What `prove_known_list` of `world_laws` asks beside these is
/// met too, where nobody ended early, each initiator that is done with its mechanism has a partner, and a marked user's name comes with its password.
pub fn prove_met_by_many()
    ensures { MetByManyLaw }
{
    tell_below();
}
