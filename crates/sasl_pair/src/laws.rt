//! What holds of both ends after every list of events.

ghost use Rattle.sasl_pair.specs.Courses.{HistoryLaw, SaslPair};

/// Does nothing. Its contract says of both ends, over whatever octets somebody delivers: where nothing is forged under guarded keys, two ends
/// that are done have one layer and each other's sizes, and what an end read under a layer is a prefix of what the other sent.
pub fn prove_pair()
    ensures history { HistoryLaw }
    ensures pair { SaslPair }
{}
