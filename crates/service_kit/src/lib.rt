//! What who builds a service or a client of their own needs, under one name: the traits of a program and of who spells its results, a server
//! over the system's devices, a bench in memory, and a client's session.
#![tactic(auto)]

mod bench;
mod calling;
mod devices;
mod listening;
mod running;

pub use bench::{AtStart, BenchLink, link_in_memory};
pub use calling::{dial, hold_by_password};
pub use devices::hold_memory;
pub use gss_base::MechKind;
pub use gss_client::{ClientRefusal, DueCall, Parting, Query, Talk, Terms};
pub use listening::serve;
pub use rpc_msgs::{XdrReader, XdrWriter, opaque_alone};
pub use rpc_program::{
    Answerer, Caller, Fault, Outcome, Program, ProgramId, Spelled, Speller, Unserved,
};
pub use rpcsec_bodies::Service;
pub use running::{Ending, Ran};
pub use scram_mech::ScramRefusal;
pub use sec_base::{Draw, Link, MemDraw, NoMemory, Octets, Text};
pub use server_options::{KeyFile, RunEnd};
pub use system_devices::{HeldStreams, RandDraw, StdSink, SystemClock, WordsRefusal, command_line};
pub use told_apart::prove_told_apart;
