//! What holds of the objects of Kerberos and SCRAM by the definitions alone.

ghost use Rattle.mech_objects.specs.Laws.{StandardLaws};

/// Does nothing; its contract holds the laws of these objects: which state one is in after each token, and that what it answers is what the
/// negotiating end makes of that token.
pub fn prove_standard()
    ensures { StandardLaws }
{}
