//! The client: a session of RPCSEC_GSS over a link.
#![tactic(auto)]

mod again;
mod answer;
mod calling;
mod conference;
mod conversation;
mod creation;
mod establish;
mod exchange;
mod laws;
mod octets;
mod query;
mod refusal;
mod results;
mod session;
mod start;
mod terms;

pub use again::{Judged, answers_call};
pub use calling::creation_call;
pub use conference::{DueCall, hold_calls};
pub use conversation::{Conversation, Parting, Talk};
pub use creation::{Created, Offer, creation_step};
pub use establish::MOST_REPLIES;
pub use laws::{prove_count_law, prove_plain_creation, prove_result_law};
pub use query::Query;
pub use refusal::{ClientRefusal, Denial, ReplyWhy};
pub use rpcsec_bodies::Service;
pub use session::{Session, xid_after};
pub use start::Start;
pub use terms::Terms;
