//! Both ends of the AP exchange of Kerberos (RFC 4120 section 3.2, RFC 4121 section 4.1).
#![tactic(auto)]

mod answer;
mod draws;
mod judge;
mod judged;
mod keys;
mod laws;
mod message;
mod names;
mod refusal;
mod reply;
mod request;
mod stamps;
mod ticket;
mod times;
mod token;

pub use draws::nonce_of;
pub use judge::judge_request;
pub use judged::Judged;
pub use laws::prove_laws;
pub use names::names_of;
pub use refusal::{ApRefusal, Part};
pub use request::ApInit;
pub use stamps::Stamps;
pub use ticket::seal_ticket;
