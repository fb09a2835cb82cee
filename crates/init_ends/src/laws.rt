//! What holds of the definitions alone.

ghost use Rattle.init_ends.specs.EndLaws.{EndLaws};
ghost use Rattle.init_ends.specs.Plain.{PlainLaw};

/// Does nothing; its contract holds the laws of an initiator over any objects: a context stands by an object of its list, and by another than
/// the first only where a reply that was taken has the acceptor's MIC over the list.
pub fn prove_end_laws()
    ensures { EndLaws }
{}

/// Does nothing; its contract holds the law that an initiator over the objects of Kerberos and SCRAM begins as one over their credentials
/// does, and answers each reply as that does.
pub fn prove_plain_law()
    ensures { PlainLaw }
{}
