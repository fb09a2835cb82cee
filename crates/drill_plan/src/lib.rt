//! What a drill is asked, begins with and prints: its words, its generator, both ends' settings, and the lines of its sessions.
#![tactic(auto)]

mod generator;
mod lines;
mod numbers;
mod objects;
mod session;
mod setting;
mod words;

pub use generator::Generator;
pub use lines::{served, summary};
pub use objects::add_object;
pub use session::DrillSession;
pub use setting::{LIMITS, WIDTH, acceptor, facts_of, kind_of, moment_of, start_of};
pub use words::{Plan, SESSION_CALLS, drill_sessions, is_drill, read_plan, session_count};
