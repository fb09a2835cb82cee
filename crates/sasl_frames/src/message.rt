//! A message with its length in front, in 32 bits with the most significant octet first.

ghost use Rattle.std.specs.Prelude.{◌≡◌, ◌^◌, ◌<◌, ◌≤◌, false, IsTrue, OnErr, IsErrOf};
ghost use Rattle.sec_base.specs.Answers.{Rose};
ghost use Rattle.sec_base.specs.Streams.{Sends};
ghost use Rattle.sasl_frames.specs.Messages.{word, framed, Hears, HearsHeader, HearsOctets};

use sec_base::transfer::{ContentRefusal, fill, read_content, send};
use sec_base::{Link, LinkFault, Octets};
use std::alloc::Global;

/// Why no message was read.
#[derive(Clone, Copy, Debug, PartialEq, Eq)]
pub enum ReadEnd {
    /// The stream ended before a message.
    Ended,
    /// It ended inside one.
    Torn,
    /// The link failed, and its count of faults rose.
    LinkFault,
    /// There was no memory for the message's octets.
    NoMemory,
}

/// The number that four octets spell.
fn word_of(cells: &[u8; 4]) -> u32
    ensures { word result ≡ cells.now }
{
    u32::from_be_bytes(*cells)
}

/// The length in front of a message.
fn read_header<L: Link>(link: &mut L) -> Result<u32, ReadEnd>
    requires { L.closed link.old ≡ false }
    ensures told { IsTrue (L.tells link.old)
        → HearsHeader (L.wire link.old) (L.wire link.new) result }
    ensures tells { L.tells link.new ≡ L.tells link.old }
    ensures unclosed { L.closed link.new ≡ false }
    ensures fault { IsErrOf result ReadEnd.LinkFault
        → Rose (L.faults link.old) (L.faults link.new) }
    ensures faults { L.faults link.old ≤ L.faults link.new }
{
    let mut cells = [0; 4];
    match fill(link, &mut cells) {
        Ok(4) => Ok(word_of(&cells)),
        Ok(0) => Err(ReadEnd::Ended),
        Ok(_) => Err(ReadEnd::Torn),
        Err(LinkFault) => Err(ReadEnd::LinkFault),
    }
}

/// So many octets.
fn read_octets<L: Link>(alloc: Global, link: &mut L, count: usize) -> Result<Octets, ReadEnd>
    requires unclosed { L.closed link.old ≡ false }
    requires room { count < 2 ^ 32 }
    ensures told { IsTrue (L.tells link.old)
        → HearsOctets count (L.wire link.old) (L.wire link.new) result }
    ensures tells { L.tells link.new ≡ L.tells link.old }
    ensures unclosed { L.closed link.new ≡ false }
    ensures fault { IsErrOf result ReadEnd.LinkFault
        → Rose (L.faults link.old) (L.faults link.new) }
    ensures faults { L.faults link.old ≤ L.faults link.new }
{
    let mut octets = Vec::new(alloc);
    match read_content(link, &mut octets, count) {
        Ok(true) => Ok(Octets::from_vec(octets)),
        Ok(false) => Err(ReadEnd::Torn),
        Err(ContentRefusal::LinkFault) => Err(ReadEnd::LinkFault),
        Err(ContentRefusal::NoMemory) => Err(ReadEnd::NoMemory),
    }
}

/// The next message. Of one that has more octets than `limit` the first ones come, one more than the limit; nothing further is read of it.
/// Memory is taken for octets that were read and for the next piece, and not for all that a length announces.
pub fn next_message<L: Link>(alloc: Global, link: &mut L, limit: u32) -> Result<Octets, ReadEnd>
    requires { L.closed link.old ≡ false }
    ensures told { IsTrue (L.tells link.old)
        → Hears limit (L.wire link.old) (L.wire link.new) result }
    ensures tells { L.tells link.new ≡ L.tells link.old }
    ensures unclosed { L.closed link.new ≡ false }
    ensures fault { IsErrOf result ReadEnd.LinkFault
        → Rose (L.faults link.old) (L.faults link.new) }
    ensures faults { L.faults link.old ≤ L.faults link.new }
{
    match read_header(link) {
        Ok(length) => read_octets(alloc, link, (length as usize).min(limit as usize + 1)),
        Err(end) => Err(end),
    }
}

/// The length in front of a message.
fn header_of(count: usize) -> [u8; 4]
    ensures { result ≡ word count }
{
    [
        (count / 16_777_216 % 256) as u8,
        (count / 65_536 % 256) as u8,
        (count / 256 % 256) as u8,
        (count % 256) as u8,
    ]
}

/// Writes a message with its length in front, of which the last 32 bits are written: no message of an end has as many octets as those can't
/// say. After a fault a front of it was written.
pub fn write_message<L: Link>(link: &mut L, bytes: &[u8]) -> Result<(), LinkFault>
    requires { L.closed link.old ≡ false }
    ensures told { Sends (L.tells link.old) (L.wire link.old) (L.wire link.new) result
        (framed bytes.now) }
    ensures tells { L.tells link.new ≡ L.tells link.old }
    ensures unclosed { L.closed link.new ≡ false }
    ensures fault { OnErr result (Rose (L.faults link.old) (L.faults link.new)) }
    ensures faults { L.faults link.old ≤ L.faults link.new }
{
    match send(link, &header_of(bytes.len())) {
        Ok(()) => send(link, bytes),
        Err(fault) => Err(fault),
    }
}
