//! Laws of lists of identifiers, of which Kerberos has two.

ghost use Rattle.listed_pairs.specs.Listed.{ListedLaw};
ghost use Rattle.listed_pairs.specs.NamedPairs.{NamedPairLaws};

/// Does nothing; its contract holds the laws of an honest pair whose initiator begins its list with Kerberos, under its own identifier or
/// Microsoft's, alone or before others: it completes with one outcome, at once where Kerberos is the first choice of both, else after the MICs of
/// the list.
pub fn prove_named_pairs()
    ensures { NamedPairLaws }
{}

/// Does nothing; its contract holds that the chosen mechanism is named by the first identifier of the list whose mechanism the acceptor offers.
pub fn prove_listed()
    ensures { ListedLaw }
{}
