//! The server's desks: each serves the links of its port one after the other, and several do so side by side.
#![tactic(auto)]

mod course;
mod desk;
mod desks;
mod jobs;

pub use course::{Course, course_of, starved};
pub use desk::{AtGate, Desk, DeskEnd, serve_desk};
pub use desks::{count_connections, count_records, run_limit};
pub use jobs::{Job, end_of, run_desks};
