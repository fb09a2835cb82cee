//! SCRAM-SHA-1 as a GSS-API mechanism (RFC 5802 sections 3, 5, 7 and 8) at both ends, and the verifiers of users.
#![tactic(auto)]

mod acceptor;
mod cursor;
mod digits;
mod encoding;
mod final_text;
mod first_text;
mod further;
mod initiator;
mod judging;
mod laws;
mod name;
mod refusal;
mod run;
mod second_text;
mod secrets;
mod signs;
mod state;
mod symbols;
mod texts;
mod third_text;
mod user_places;
mod verifiers;

pub use acceptor::ScramAccept;
pub use initiator::{ScramInit, ScramWait};
pub use laws::prove_laws;
pub use refusal::{ScramRefusal, VerifierRefusal};
pub use verifiers::{Verifiers, make_verifier, read_verifiers};
