//! The bodies of calls and replies under RPCSEC_GSS: made and opened by an end of a context, RFC 2203 section 5.3.2.
#![tactic(auto)]

mod opening;
mod protection;
mod refusal;
mod service;

pub use opening::unprotect;
pub use protection::{protect, protect_onto};
pub use refusal::BodyRefusal;
pub use service::Service;
