//! Keytabs and credential caches of Kerberos, as its tools write them.
#![tactic(auto)]

mod ccache;
mod fields;
mod keys;
mod keytab;
mod names;
mod pieces;
mod refusal;

pub use ccache::{Ccache, Credential, read_ccache};
pub use keytab::{Keytab, read_keytab};
pub use refusal::{FileRefusal, FileWhy};
