//! The acceptor's end of a negotiation (SPNEGO, RFC 4178), a machine whose states are types that a step consumes; the tokens of both ends; and both
//! machines as definitions, with their laws. The initiator's end steps objects, in a crate above.
#![tactic(auto)]

mod accept_end;
mod accept_mech;
mod accept_reply;
mod accept_step;
mod bare;
mod choice;
mod exchange_laws;
mod init_reply;
mod laws;
pub mod list_mic;
mod outcome;
mod pair_laws;
mod refusal;
mod setup;
pub mod tokens;

pub use accept_end::{AcceptEnd, AcceptPause, AcceptStep};
pub use choice::same_kind;
pub use exchange_laws::prove_exchange;
pub use init_reply::{completes_later, completes_now, token_sent};
pub use laws::{prove_accept_laws, prove_init_laws};
pub use outcome::{Outcome, outcome_of};
pub use pair_laws::prove_pair_laws;
pub use refusal::{MechRefusal, NegRefusal, ap_refused, scram_refused};
pub use setup::{AcceptSetup, InitFacts, MechCred};
