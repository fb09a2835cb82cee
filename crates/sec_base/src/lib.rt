//! Values that every layer uses, and the outside world as traits: moments, object identifiers, octets and texts that contracts see
//! as lists; links, ports, sinks, shelves, clocks and sources of octets, each in memory.
#![tactic(auto)]

mod clock;
mod draw;
mod failing;
mod items;
mod link;
mod mem_clock;
mod mem_draw;
mod mem_link;
mod mem_port;
mod mem_shelf;
mod mem_sink;
mod memory;
mod moment;
mod octets;
mod oid;
mod port;
mod shelf;
mod sink;
mod text;
mod trail;
pub mod transfer;

pub use clock::Clock;
pub use draw::Draw;
pub use items::Items;
pub use link::{Link, LinkFault};
pub use mem_clock::MemClock;
pub use mem_draw::MemDraw;
pub use mem_link::MemLink;
pub use mem_port::MemPort;
pub use mem_shelf::MemShelf;
pub use mem_sink::MemSink;
pub use memory::NoMemory;
pub use moment::Moment;
pub use octets::Octets;
pub use oid::Oid;
pub use port::{Port, PortFault};
pub use shelf::{LoadRefusal, NamedFile, Shelf};
pub use sink::{Sink, SinkFault};
pub use text::Text;
pub use trail::Trail;
