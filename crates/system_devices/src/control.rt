//! Where a server is asked to stop: a UNIX socket.

use crate::again::{read_on, write_on};
use crate::setback::{Setback, pause, setback_of};
use std::fs::Permissions;
use std::io::ErrorKind;
use std::net::{Net, Shutdown};
use std::os::fd::OwnedFd;
use std::os::unix::fs::{FileTypeExt, PermissionsExt};
use std::os::unix::net::{UnixListener, UnixStream};
use std::rt::{Clock, Files};
use std::sync::atomic::{AtomicBool, Ordering};
use std::time::{Duration, Instant};
use std::{fs, thread};

/// The mode of the socket's file: its owner may connect, and nobody else but the superuser.
const OWNERS: u32 = 0o600;

/// How many connections from before the mode was set are dropped at most. (The system queues 4,096 by itself.)
const MOST_EARLY: u32 = 65_536;

/// How many milliseconds a peer has for its line, and for the answer.
const PATIENCE: u64 = 1000;

/// How many octets of a line are read at most.
pub const LINE: usize = 16;

/// A UNIX socket at a path, of mode 0600, whose peers are answered one after the other.
#[derive(Drop)]
pub struct ControlDoor<'a, R: Files + Drop> {
    rt: R,
    path: &'a str,
    listener: UnixListener,
    // another handle of its socket, by which an accept is ended
    bell: UnixStream,
    closed: AtomicBool,
}

/// Whether a socket's file stands at this path, at which nobody listens.
fn is_left<R: Files + Net>(rt: &R, path: &str) -> bool {
    match fs::symlink_metadata(rt, path) {
        Ok(found) if found.file_type().is_socket() => {
            match UnixStream::connect(rt, path) {
                Ok(_) => false,
                Err(error) => error.kind() == ErrorKind::ConnectionRefused,
            }
        }
        _ => false,
    }
}

/// A listener at this path, where nothing stands, or the socket's file of a run that ended, which is removed.
fn bound<R: Files + Net>(rt: &R, path: &str) -> Option<UnixListener> {
    if let Ok(listener) = UnixListener::bind(rt, path) {
        return Some(listener);
    }
    if !is_left(rt, path) {
        return None;
    }
    fs::remove_file(rt, path).ok()?;
    UnixListener::bind(rt, path).ok()
}

/// The same for the owner alone: who connected before the mode was set is let go.
fn guarded<R: Files + Net>(rt: &R, path: &str) -> Option<UnixListener> {
    let listener = bound(rt, path)?;
    fs::set_permissions(rt, path, Permissions::from_mode(OWNERS)).ok()?;
    listener.set_nonblocking(true).ok()?;
    for _ in 0..MOST_EARLY {
        if listener.accept().is_err() {
            break;
        }
    }
    listener.set_nonblocking(false).ok()?;
    Some(listener)
}

impl<'a, R: Files + Clock + Copy + Drop> ControlDoor<'a, R> {
    /// A socket that listens at this path; None where it can't.
    pub fn bind<N: Files + Net>(net: &N, rt: R, path: &'a str) -> Option<ControlDoor<'a, R>> {
        let listener = guarded(net, path)?;
        let other = listener.try_clone().ok()?;
        Some(ControlDoor {
            rt,
            path,
            listener,
            bell: UnixStream::from(OwnedFd::from(other)),
            closed: AtomicBool::new(false),
        })
    }

    /// The next peer; None once it was closed, or where no further one can come.
    pub fn next(&self) -> Option<ControlPeer<R>> {
        for _ in 0..u64::MAX {
            if self.closed.load(Ordering::SeqCst) {
                return None;
            }
            match self.listener.accept() {
                Ok((stream, _)) => {
                    return Some(ControlPeer {
                        rt: self.rt,
                        stream,
                    });
                }
                Err(error) => match setback_of(&error) {
                    Setback::Lasting => return None,
                    _ => thread::sleep(&self.rt, pause()),
                },
            }
        }
        None
    }

    /// Lets go who waits for a peer, and removes the file.
    pub fn close(&self) {
        self.closed.store(true, Ordering::SeqCst);
        let _ = self.bell.shutdown(Shutdown::Both);
        let _ = fs::remove_file(&self.rt, self.path);
    }
}

/// One who connected to a control address.
#[derive(Drop)]
pub struct ControlPeer<R: Clock + Drop> {
    rt: R,
    stream: UnixStream,
}

impl<R: Clock + Drop> ControlPeer<R> {
    /// Has the next call wait for what is left of the peer's time; false where nothing is.
    fn hurry(&self, since: &Instant) -> bool {
        let Ok(gone) = since.elapsed(&self.rt) else {
            return false;
        };
        let left = Duration::from_millis(PATIENCE).saturating_sub(gone);
        !left.is_zero()
            && self.stream.set_read_timeout(Some(left)).is_ok()
            && self.stream.set_write_timeout(Some(left)).is_ok()
    }

    /// The octets of its first line, with the line feed: as many as came within a second, at most 16. Behind them are zeros.
    pub fn line(&mut self) -> [u8; LINE] {
        let mut line = [0; LINE];
        let Ok(since) = Instant::now(&self.rt) else {
            return line;
        };
        let mut octet = [0];
        for at in 0..LINE {
            if !self.hurry(&since) {
                return line;
            }
            match read_on(&mut self.stream, &mut octet) {
                Some(count) if count > 0 => line[at] = octet[0],
                _ => return line,
            }
            if octet[0] == b'\n' {
                return line;
            }
        }
        line
    }

    /// Writes it a line, as far as it takes it within a second, and ends the connection.
    pub fn answer(self, line: &str) {
        let mut peer = self;
        let Ok(since) = Instant::now(&peer.rt) else {
            return;
        };
        let mut left = line.as_bytes();
        for _ in 0..line.len() {
            if left.is_empty() || !peer.hurry(&since) {
                return;
            }
            match write_on(&mut peer.stream, left) {
                Some(count) if count <= left.len() => left = &left[count..],
                _ => return,
            }
        }
    }
}
