//! A UDP socket.

ghost use Rattle.std.specs.Prelude.{◌≡◌, [], IsTrue, length};
ghost use Rattle.udp_post.specs.Received.{FitsRoom};

use crate::noted::Noted;
use datagram_post::{Post, PostFault};
use std::io::ErrorKind;
use std::net::{Net, SocketAddr, UdpSocket};
use std::time::Duration;

/// How many milliseconds a `recv` waits for a datagram.
const PATIENCE: u64 = 1_000;

/// Whom a socket sends to.
#[derive(Clone, Copy, Drop)]
enum Peer {
    /// A client's server, to which the socket is connected.
    Server,
    /// The sender of a server's last datagram, None before the first.
    Sender(Option<SocketAddr>),
}

/// A UDP socket of a server, or of a client. A `recv` waits for one second, and one that a signal, a stop or a tracer broke off is made
/// again. A socket that couldn't be bound answers a fault at each call, and a client's does where its server's port is closed. A server's
/// datagram that the system doesn't take for its receiver is lost, as any may be on its way. What was heard is what its `recv` answered, and what was sent is what its `send` took.
#[derive(Drop)]
pub struct UdpPost {
    socket: Option<UdpSocket>,
    peer: Peer,
    faults: u64,
    heard: Noted,
    sent: Noted,
}

/// The socket with its wait, None where that can't be set.
fn patient(socket: UdpSocket) -> Option<UdpSocket> {
    match socket.set_read_timeout(Some(Duration::from_millis(PATIENCE))) {
        Ok(()) => Some(socket),
        Err(_) => None,
    }
}

/// A socket of this own address that is connected to a server's; None where that can't be.
fn connected<R: Net>(net: &R, own: &str, address: &str) -> Option<UdpSocket> {
    let socket = UdpSocket::bind(net, own).ok()?;
    match socket.connect(address) {
        Ok(()) => patient(socket),
        Err(_) => None,
    }
}

/// What a socket gave.
#[derive(Drop)]
enum Received {
    From(usize, SocketAddr),
    Nothing,
    Fault,
}

/// The next datagram of a socket, where one comes within its wait.
fn receive(socket: &UdpSocket, buf: &mut [u8]) -> Received
    ensures fits { FitsRoom result buf.new }
    ensures size { length buf.new ≡ length buf.old }
{
    for _ in 0..u64::MAX {
        match socket.recv_from(buf) {
            Ok((count, sender)) => return Received::From(count, sender),
            Err(error) => match error.kind() {
                ErrorKind::WouldBlock => return Received::Nothing,
                ErrorKind::Interrupted => {}
                _ => return Received::Fault,
            },
        }
    }
    Received::Fault
}

impl UdpPost {
    /// A server's, bound to `address`, a host and a port with a colon between them.
    pub fn serve<R: Net>(net: &R, address: &str) -> UdpPost
        ensures heard { ⟦<UdpPost as Post>⟧.heard result ≡ [] }
        ensures sent { ⟦<UdpPost as Post>⟧.sent result ≡ [] }
        ensures tells { IsTrue (⟦<UdpPost as Post>⟧.tells result) }
    {
        let socket = match UdpSocket::bind(net, address) {
            Ok(socket) => patient(socket),
            Err(_) => None,
        };
        UdpPost {
            socket,
            peer: Peer::Sender(None),
            faults: 0,
            heard: Noted::new(),
            sent: Noted::new(),
        }
    }

    /// A client's, whose server is at `address`, a host and a port with a colon between them.
    pub fn ask<R: Net>(net: &R, address: &str) -> UdpPost
        ensures heard { ⟦<UdpPost as Post>⟧.heard result ≡ [] }
        ensures sent { ⟦<UdpPost as Post>⟧.sent result ≡ [] }
        ensures tells { IsTrue (⟦<UdpPost as Post>⟧.tells result) }
    {
        let socket = match connected(net, "0.0.0.0:0", address) {
            Some(socket) => Some(socket),
            None => connected(net, "[::]:0", address),
        };
        UdpPost {
            socket,
            peer: Peer::Server,
            faults: 0,
            heard: Noted::new(),
            sent: Noted::new(),
        }
    }

    /// The number of the port to which it is bound, which the system chooses for an address whose port is 0. None where it isn't bound.
    pub fn port(&self) -> Option<u16> {
        match &self.socket {
            Some(socket) => match socket.local_addr() {
                Ok(address) => Some(address.port()),
                Err(_) => None,
            },
            None => None,
        }
    }
}

impl Post for UdpPost {
    ghost use Rattle.std.specs.Prelude.{true};
    ghost use Rattle.udp_post.specs.Noted.{datagrams_in};

    ghost faults = { λ p. p.faults };

    ghost tells = { λ _. true };

    ghost heard = { λ p. p.heard.datagrams };

    ghost sent = { λ p. datagrams_in p.sent.datagrams };

    fn recv(&mut self, buf: &mut [u8]) -> Result<Option<usize>, PostFault> {
        let received = match &self.socket {
            Some(socket) => receive(socket, buf),
            None => Received::Fault,
        };
        match received {
            Received::From(count, sender) => {
                if let Peer::Sender(_) = self.peer {
                    self.peer = Peer::Sender(Some(sender));
                }
                self.heard = self.heard.then(&buf[..count]);
                Ok(Some(count))
            }
            Received::Nothing => {
                self.heard = self.heard.then_none();
                Ok(None)
            }
            Received::Fault => {
                self.faults = self.faults.saturating_add(1);
                Err(PostFault)
            }
        }
    }

    fn send(&mut self, bytes: &[u8]) -> Result<(), PostFault> {
        let sent = match (&self.socket, self.peer) {
            (Some(socket), Peer::Server) => socket.send(bytes).is_ok(),
            (Some(socket), Peer::Sender(Some(sender))) => {
                let _ = socket.send_to(bytes, sender);
                true
            }
            (Some(_), Peer::Sender(None)) => false,
            (None, _) => false,
        };
        if sent {
            self.sent = self.sent.then(bytes);
            Ok(())
        } else {
            self.faults = self.faults.saturating_add(1);
            Err(PostFault)
        }
    }
}
