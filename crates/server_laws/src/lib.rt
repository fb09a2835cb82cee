//! That what a server did is a run of the world, and what follows of the log that it returns.
#![tactic(auto)]

mod headline;
mod posts;
mod receipts;
mod served;

pub use headline::prove_server_headline;
pub use posts::prove_posts_headline;
pub use receipts::{prove_kept_receipts, prove_receipts};
pub use served::{prove_questions, prove_served, prove_server_run};
