//! What stands behind a result, and how many turns a creation takes.

ghost use Rattle.gss_client.specs.Laws.{CountLaw, PlainCreation, ResultLaw};

/// A result stands in a reply with the call's transaction number, whose verifier is the acceptor's MIC over the call's number, and in a
/// body that verifies or opens under the context's key and has this number, unless the service is none.
pub fn prove_result_law()
    ensures { ResultLaw }
{}

/// A creation whose turns are counted by the replies that its end takes is the one of every greater count, so that none is refused for its
/// length.
pub fn prove_count_law()
    ensures { CountLaw }
{}

/// A creation by the objects of Kerberos and SCRAM is the one by their credentials: each reply leads to the same, and so does the whole.
pub fn prove_plain_creation()
    ensures { PlainCreation }
{}
