//! The client over datagrams: a session of RPCSEC_GSS whose calls are sent again until they are answered.
#![tactic(auto)]

mod calling;
mod creating;
mod hearing;
mod refusal;
mod session;

pub use hearing::{FLOOD, MOST_OCTETS};
pub use refusal::PostRefusal;
pub use session::DatagramSession;
