//! The messages of RPCSEC_GSS version 1 (RFC 2203): credentials, the results of creation calls, and bodies.
#![tactic(auto)]

mod bodies;
mod cred;
mod init_res;
pub mod numbers;

pub use bodies::{join_checked, join_sealed, split_checked, split_sealed};
pub use cred::{CredRefusal, GssCred, read_cred, write_cred};
pub use init_res::{InitRes, read_init_res, write_init_res};
