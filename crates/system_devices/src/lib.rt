//! The devices of the real system: files, the clock, random octets, standard streams, TCP, and the words of the command line. Each is
//! thin, and tells nothing of what is to come.
#![tactic(auto)]

mod again;
mod control;
mod dialed_link;
mod file_disk;
mod file_shelf;
mod moments;
mod patient_link;
mod rand_draw;
mod setback;
mod std_sink;
mod stdio_port;
mod system_clock;
mod tcp_link;
mod tcp_port;
mod words;

pub use control::{ControlDoor, ControlPeer, LINE};
pub use dialed_link::DialedLink;
pub use file_disk::FileDisk;
pub use file_shelf::FileShelf;
pub use patient_link::PatientLink;
pub use rand_draw::RandDraw;
pub use std_sink::StdSink;
pub use stdio_port::{StdioLink, StdioPort};
pub use stream_buffers::{Buffered, BufferedPort, HeldStreams};
pub use system_clock::SystemClock;
pub use tcp_link::TcpLink;
pub use tcp_port::{TcpDoor, TcpPort};
pub use words::{WordsRefusal, command_line};
