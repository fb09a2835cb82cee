//! The tokens of SPNEGO (RFC 4178), read and written, and the octets of the mechanism list that both ends sign.
#![tactic(auto)]

mod choice;
mod lists;
mod neg_init;
mod neg_resp;
mod neg_state;
mod state_values;

pub use lists::{list_bytes, prove_one_list};
pub use neg_init::{NegInit, read_init, write_init};
pub use neg_resp::{NegResp, read_resp, write_resp};
pub use neg_state::NegState;
