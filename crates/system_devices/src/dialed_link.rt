//! A TCP connection that is made when it is first used.

ghost use Rattle.std.specs.Prelude.{◌≡◌, ◌≤◌, false, length};
ghost use Rattle.system_devices.specs.Devices.{dialed_address};
ghost use Rattle.system_devices.specs.Moves.{wire_of};

use crate::tcp_link::TcpLink;
use sec_base::{Link, LinkFault};
use std::net::{Net, TcpStream, ToSocketAddrs};
use std::rt::Clock as SystemTimeSource;
use std::time::Duration;

/// How many milliseconds the tries to connect may take, all together.
const PATIENCE: usize = 10_000;

/// A TCP connection to an address, a host and a port with a colon between them, which is made at the first read or write. Where it can't
/// be made within 10 seconds, each call answers a fault. What it took and wrote is what its calls answered; it tells nothing of octets to come.
#[derive(Drop)]
pub struct DialedLink<'a, R: SystemTimeSource + Drop> {
    rt: R,
    address: &'a str,
    dialed: bool,
    link: TcpLink<R>,
}

/// A connection to the first of the host's addresses that takes one; each of them has the same share of the time.
fn connected<R: Net<Stream = TcpStream>>(rt: &R, address: &str) -> Option<TcpStream> {
    let addresses = address.to_socket_addrs(rt).ok()?;
    let share = (PATIENCE / addresses.len().max(1)) as u64;
    for address in addresses {
        match TcpStream::connect_timeout(rt, &address, Duration::from_millis(share)) {
            Ok(stream) => return Some(stream),
            Err(_) => {}
        }
    }
    None
}

impl<'a, R: Net<Stream = TcpStream> + SystemTimeSource + Copy + Drop> DialedLink<'a, R> {
    /// The link to `address`, which isn't looked for yet.
    pub fn new(rt: R, address: &'a str) -> DialedLink<'a, R>
        ensures address { dialed_address result ≡ address.now }
        ensures closed { ⟦<DialedLink<'a, R> as Link>⟧.closed result ≡ false }
    {
        DialedLink {
            rt,
            address,
            dialed: false,
            link: TcpLink::none(rt),
        }
    }

    /// Connects, unless that was tried before.
    fn dial(&mut self)
        ensures wire { wire_of self.new.link ≡ wire_of self.old.link }
        ensures faults { self.new.link.faults ≡ self.old.link.faults }
        ensures closed { self.new.link.closed ≡ self.old.link.closed }
    {
        if !self.dialed {
            self.dialed = true;
            self.link.take(connected(&self.rt, self.address));
        }
    }
}

impl<'a, R: Net<Stream = TcpStream> + SystemTimeSource + Copy + Drop> Link for DialedLink<'a, R> {
    ghost use Rattle.std.specs.Prelude.{false};

    ghost faults = { λ l. l.link.faults };

    ghost tells = { λ _. false };

    ghost wire = { λ l. wire_of l.link };

    ghost closed = { λ l. l.link.closed };

    ghost closes = { λ old new. new.link.faults ≡ old.link.faults };

    fn read(&mut self, buf: &mut [u8]) -> Result<usize, LinkFault> {
        self.dial();
        self.link.read(buf)
    }

    fn write(&mut self, buf: &[u8]) -> Result<usize, LinkFault> {
        self.dial();
        self.link.write(buf)
    }

    fn close(&mut self) {
        self.link.close();
    }
}
