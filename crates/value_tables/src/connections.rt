//! Connections of this machine to itself, at a port that the system chooses. A connection is made before it is accepted, so both of its
//! ends are in one thread.

ghost use Rattle.std.specs.Prelude.{◌≡◌, false};

use sec_base::transfer::{fill, send};
use sec_base::{Link, Port};
use std::alloc::Global;
use std::net::{Net, TcpListener, TcpStream};
use std::rt::Clock;
use std::sync::Wait;
use system_devices::{Buffered, BufferedPort, DialedLink, TcpDoor, TcpPort};

/// This machine, at whatever port is free.
const ANY_PORT: &str = "127.0.0.1:0";

/// What is written on a link that is dialed, and what on the one that is accepted.
const QUESTION: &[u8] = b"what is written on one link";

const ANSWER: &[u8] = b"comes out of the other";

/// How many connections a door may give, and for how many seconds one of them may be silent.
const MOST: u64 = 16;

const IDLE: u32 = 60;

/// How many octets are compared at most.
const ROOM: usize = 64;

/// The address at which a door listens.
fn address<R: Net<Stream = TcpStream, Listener = TcpListener> + Wait + Drop>(
    alloc: Global,
    door: &TcpDoor<'_, R>,
) -> Option<String> {
    let port = door.port()?;
    format!(in alloc; "127.0.0.1:{port}").ok()
}

/// Whether the next octets of a link are these.
fn gives<L: Link>(link: &mut L, octets: &[u8]) -> bool
    requires { L.closed link.old ≡ false }
    ensures { L.closed link.new ≡ false }
{
    let mut room = [0; ROOM];
    let count = octets.len().min(ROOM);
    fill(link, &mut room[..count]) == Ok(octets.len()) && &room[..count] == octets
}

/// Whether a link is at its end.
fn is_at_end<L: Link>(link: &mut L) -> bool
    requires { L.closed link.old ≡ false }
    ensures { L.closed link.new ≡ false }
{
    fill(link, &mut [0]) == Ok(0)
}

/// Whether a question goes from a dialed link to one that the port accepts, its answer back, and behind it the end of the link that is
/// closed.
fn is_answered<P: Port, L: Link>(port: &mut P, dialed: &mut L) -> bool
where
    P::Link: Drop,
    requires { L.closed dialed.old ≡ false }
{
    if send(dialed, QUESTION).is_err() {
        return false;
    }
    let Ok(Some(mut accepted)) = port.accept() else {
        return false;
    };
    let is_asked = gives(&mut accepted, QUESTION);
    let is_sent = send(&mut accepted, ANSWER).is_ok();
    accepted.close();
    is_asked && is_sent && gives(dialed, ANSWER) && is_at_end(dialed)
}

/// Whether a link that was dialed, written on and closed before the port accepts it has its octets there, and then its end.
fn is_left<P: Port, L: Link>(port: &mut P, dialed: &mut L) -> bool
where
    P::Link: Drop,
    requires { L.closed dialed.old ≡ false }
{
    if send(dialed, QUESTION).is_err() {
        return false;
    }
    dialed.close();
    match port.accept() {
        Ok(Some(mut accepted)) => gives(&mut accepted, QUESTION) && is_at_end(&mut accepted),
        _ => false,
    }
}

/// What a door was asked.
#[derive(Clone, Copy)]
pub struct Asked {
    /// Whether octets go both ways over a connection, up to its end.
    pub is_carried: bool,
    /// The same of links that read ahead and write behind, on which the octets wait until a link is closed.
    pub is_late: bool,
    /// Whether the ports of the door share its listener, and a second door can't have it.
    pub is_shared: bool,
}

/// Whether octets go both ways over a connection to a door, up to its end.
fn carries<R>(rt: R, door: &TcpDoor<'_, R>, address: &str) -> bool
where
    R: Net<Stream = TcpStream, Listener = TcpListener> + Clock + Wait + Copy + Drop,
{
    let mut port = TcpPort::at(door);
    is_answered(&mut port, &mut DialedLink::new(rt, address))
        && is_left(&mut port, &mut DialedLink::new(rt, address))
}

/// The same of links that read ahead and write behind.
fn carries_late<R>(rt: R, alloc: Global, door: &TcpDoor<'_, R>, address: &str) -> bool
where
    R: Net<Stream = TcpStream, Listener = TcpListener> + Clock + Wait + Copy + Drop,
{
    let mut port = BufferedPort::new(alloc, TcpPort::at(door));
    let mut late = Buffered::over(alloc, DialedLink::new(rt, address));
    is_answered(&mut port, &mut DialedLink::new(rt, address)) && is_left(&mut port, &mut late)
}

/// Whether two ports of a door accept, and a second door can't have its address.
fn is_shared<R>(rt: R, door: &TcpDoor<'_, R>, address: &str) -> bool
where
    R: Net<Stream = TcpStream, Listener = TcpListener> + Clock + Wait + Copy + Drop,
{
    let taken = TcpDoor::at(rt, address, MOST, IDLE);
    is_answered(&mut TcpPort::at(door), &mut DialedLink::new(rt, address))
        && is_answered(&mut TcpPort::at(door), &mut DialedLink::new(rt, address))
        && taken.port().is_none()
        && TcpPort::at(&taken).accept().is_err()
}

/// Asks a door at this machine; None where it doesn't listen.
pub fn ask<R>(rt: R, alloc: Global) -> Option<Asked>
where
    R: Net<Stream = TcpStream, Listener = TcpListener> + Clock + Wait + Copy + Drop,
{
    let door = TcpDoor::at(rt, ANY_PORT, MOST, IDLE);
    let address = address(alloc, &door)?;
    Some(Asked {
        is_carried: carries(rt, &door, address.as_str()),
        is_late: carries_late(rt, alloc, &door, address.as_str()),
        is_shared: is_shared(rt, &door, address.as_str()),
    })
}

/// Whether two ports at a door that is no address fail.
pub fn ports_fail<R>(rt: R) -> bool
where
    R: Net<Stream = TcpStream, Listener = TcpListener> + Clock + Wait + Copy + Drop,
{
    let door = TcpDoor::at(rt, "not an address", MOST, IDLE);
    let mut one = TcpPort::at(&door);
    let mut other = TcpPort::at(&door);
    one.accept().is_err() && other.accept().is_err()
}
