//! The completeness of the pair: an honest session against an acceptor's book is created, and both ends have one outcome.
#![tactic(auto)]

mod kept;
mod laws;
mod meeting;
mod told;

pub use kept::tell_kept;
pub use laws::{
    prove_call_turns, prove_calls, prove_chains, prove_created, prove_creations, prove_end_turns,
    prove_ends, prove_equal_calls, prove_links, prove_pair, prove_posts, prove_rests, prove_rows,
    prove_runs, prove_sessions, prove_step_turns, prove_wholes,
};
pub use meeting::prove_meeting;
pub use told::tell_name;
