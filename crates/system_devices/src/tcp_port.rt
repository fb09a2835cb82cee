//! Where TCP connections come in.

ghost use Rattle.std.specs.Prelude.{◌≡◌};
ghost use Rattle.system_devices.specs.Devices.{door_address};

use crate::patient_link::PatientLink;
use crate::setback::{PASSING_TRIES, SCARCE_TRIES, Setback, pause, setback_of};
use sec_base::{Link, Port, PortFault};
use std::net::{Net, Shutdown, TcpListener, TcpStream};
use std::os::fd::OwnedFd;
use std::rt::Clock;
use std::sync::atomic::{AtomicBool, AtomicU64, Ordering};
use std::sync::{OnceLock, Wait};
use std::thread;

/// A listener, and another handle of its socket, by which its accepts are ended.
#[derive(Drop)]
struct Listening {
    listener: TcpListener,
    bell: TcpStream,
}

/// A listener at this address; None where there can't be one.
fn open_at<R: Net<Stream = TcpStream, Listener = TcpListener>>(
    rt: &R,
    address: &str,
) -> Option<Listening> {
    let listener = TcpListener::bind(rt, address).ok()?;
    let other = listener.try_clone().ok()?;
    Some(Listening {
        listener,
        bell: TcpStream::from(OwnedFd::from(other)),
    })
}

/// A TCP listener for several ports, on threads of their own or on one, which listens from the first accept of one of them on, or from
/// where its number is asked for. Its connections are counted for all of them together. Once it is stopped, it gives no further
/// connection, and those that it gave read as ended.
#[derive(Drop)]
pub struct TcpDoor<'a, R: Drop> {
    rt: R,
    address: &'a str,
    listener: OnceLock<Option<Listening>>,
    most: u64,
    given: AtomicU64,
    idle: u32,
    stopped: AtomicBool,
}

impl<'a, R: Net<Stream = TcpStream, Listener = TcpListener> + Wait + Drop> TcpDoor<'a, R> {
    /// The listener at `address`, a host and a port with a colon between them, which doesn't listen yet. It gives at most so many
    /// connections in all, each of which may be silent for `idle` seconds.
    pub fn at(rt: R, address: &'a str, most: u64, idle: u32) -> TcpDoor<'a, R>
        ensures { door_address result ≡ address.now }
    {
        TcpDoor {
            rt,
            address,
            listener: OnceLock::new(),
            most,
            given: AtomicU64::new(0),
            idle,
            stopped: AtomicBool::new(false),
        }
    }

    /// Stops it. Accepts that wait are ended: a socket that is shut down takes no more (shutdown(2)). A read that waits sees it within half
    /// a second.
    pub fn stop(&self) {
        self.stopped.store(true, Ordering::SeqCst);
        if let Some(Some(listening)) = self.listener.get() {
            let _ = listening.bell.shutdown(Shutdown::Both);
        }
    }

    /// Whether it was stopped.
    fn is_stopped(&self) -> bool {
        self.stopped.load(Ordering::SeqCst)
    }

    /// Takes the place of one more connection; false where as many as there may be are taken.
    fn take_place(&self) -> bool {
        if self.given.fetch_add(1, Ordering::SeqCst) < self.most {
            return true;
        }
        self.give_back();
        false
    }

    /// Gives a place back that no connection came to.
    fn give_back(&self) {
        self.given.fetch_sub(1, Ordering::SeqCst);
    }

    /// The listener, which is bound where that wasn't tried before; None where it can't be.
    fn listener(&self) -> Option<&TcpListener> {
        match self
            .listener
            .get_or_init(&self.rt, || open_at(&self.rt, self.address))
        {
            Some(listening) => Some(&listening.listener),
            None => None,
        }
    }

    /// The number of the port at which it listens, which the system chooses for an address whose port is 0. It listens from this call
    /// on, where it didn't before. None where it can't listen.
    pub fn port(&self) -> Option<u16> {
        match self.listener() {
            Some(listener) => match listener.local_addr() {
                Ok(address) => Some(address.port()),
                Err(_) => None,
            },
            None => None,
        }
    }
}

/// A port at a listener. Where that can't be bound, each call answers a fault. It tells nothing of its links.
#[derive(Drop)]
pub struct TcpPort<'a, R: Drop> {
    door: &'a TcpDoor<'a, R>,
    faults: u64,
}

impl<'a, R: Net<Stream = TcpStream, Listener = TcpListener> + Clock + Wait + Copy + Drop> TcpPort<
    'a,
    R,
> {
    /// A port at this listener.
    pub fn at(door: &'a TcpDoor<'a, R>) -> TcpPort<'a, R>
        ensures { ⟦<TcpPort<'a, R> as Port>⟧.faults result ≡ 0 }
    {
        TcpPort { door, faults: 0 }
    }

    /// The next connection. An error that passes with one connection is followed by a further accept at once, and one for want of
    /// descriptors or memory by one after a pause, each at most so many times in a row; None after that, at any other error, and where
    /// the listener was stopped, which is asked once it listens: then a stop ends the accept.
    fn next_stream(&self) -> Option<TcpStream> {
        let listener = self.door.listener()?;
        let mut passing = 0;
        let mut scarce = 0;
        for _ in 0..=PASSING_TRIES + SCARCE_TRIES {
            if self.door.is_stopped() {
                return None;
            }
            match listener.accept() {
                Ok((stream, _)) => return Some(stream),
                Err(error) => match setback_of(&error) {
                    Setback::Passing if passing < PASSING_TRIES => passing += 1,
                    Setback::Scarce if scarce < SCARCE_TRIES => {
                        scarce += 1;
                        thread::sleep(&self.door.rt, pause());
                    }
                    _ => return None,
                },
            }
        }
        None
    }
}

impl<'a, R: Net<Stream = TcpStream, Listener = TcpListener> + Clock + Wait + Copy + Drop> Port
    for TcpPort<'a, R> {
    ghost use Rattle.std.specs.Prelude.{false, []};

    type Link = PatientLink<'a, R>;

    ghost faults = { λ p. p.faults };

    ghost tells = { λ _. false };

    ghost links = { λ _. [] };

    fn accept(&mut self) -> Result<Option<PatientLink<'a, R>>, PortFault> {
        if !self.door.take_place() {
            return Ok(None);
        }
        match self.next_stream() {
            Some(stream) => Ok(Some(PatientLink::over(
                self.door.rt,
                stream,
                self.door.idle,
                &self.door.stopped,
            ))),
            None => {
                self.door.give_back();
                if self.door.is_stopped() {
                    return Ok(None);
                }
                self.faults = self.faults.saturating_add(1);
                Err(PortFault)
            }
        }
    }
}
