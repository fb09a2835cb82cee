//! The client's command: the credentials of its mechanisms, the session, and its run.
#![tactic(auto)]

mod client;
mod credential;
mod files;
mod parting;

pub use client::{ClientEnd, names_in, run_client, server_label};
pub use client_options::{
    ClientWords, Plan, RunEnd, Sources, WordFile, WordsRefusal, address_of, read_words,
};
pub use credential::creds_given;
pub use parting::end_link;
