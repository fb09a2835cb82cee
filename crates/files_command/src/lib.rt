//! The command that makes files for examples and tests: what its words ask for, a keytab of one key, a credential cache of one ticket, a line
//! of a verifier file, and the run.
#![tactic(auto)]

mod ccache_file;
mod fields;
mod keytab_file;
mod making;
mod refusal;
mod running;
mod words;

pub use keytab_file::{ServiceKey, write_keytab};
pub use making::{DRAWS, credential_for};
pub use refusal::NoFile;
pub use running::{FilesEnd, run_files};
