//! A TCP connection.

ghost use Rattle.std.specs.Prelude.{◌≡◌, ◌<◌, ◌≤◌, ℕ, true, false, length, IfSome};

use crate::again::{Moved, read_in_time, read_on, write_in_time, write_on};
use sec_base::{Link, LinkFault, Trail};
use std::net::{Shutdown, TcpStream};
use std::rt::Clock as SystemTimeSource;
use std::sync::atomic::{AtomicBool, Ordering};
use std::time::{Duration, Instant};

/// How many seconds a read or a write may wait.
const PATIENCE: u64 = 60;

/// How many milliseconds a close waits for the peer's end, and how many where the listener was stopped.
const PARTING: u64 = 2000;

const PARTING_AT_STOP: u64 = 500;

/// How many milliseconds a call waits before it looks whether the listener was stopped.
pub(crate) const SLICE: u64 = 500;

/// How many octets a close reads and drops before it waits no more for the peer's end.
const MOST_DROPPED: usize = 4_194_304;

/// How many octets a close reads at a time.
const PIECE: usize = 16_384;

/// A TCP connection. One that could not be made answers a fault at each call, and so does a call that waits for 60 seconds in which
/// nothing comes or nothing can be written. A call that a signal, a stop or a tracer broke off is made again. A close ends the writing
/// side first, and then reads and drops what still comes, until the peer's end, for at most 2 seconds and 4,194,304 octets: a connection
/// that is closed before its octets were read is reset, and takes with it what was written and didn't arrive yet. One that was closed
/// holds no descriptor. What it took and wrote is what its calls answered; it tells nothing of octets to come.
#[derive(Drop)]
pub struct TcpLink<R: SystemTimeSource + Drop> {
    rt: R,
    stream: Option<TcpStream>,
    faults: u64,
    closed: bool,
    taken: Trail,
    written: Trail,
}

/// The stream with its options: what is written goes out at once, no octets wait for more behind them, and no read or write waits
/// for longer than 60 seconds. None where these can't be set.
fn prepared(stream: TcpStream) -> Option<TcpStream> {
    let _ = stream.set_nodelay(true);
    let patience = Some(Duration::from_secs(PATIENCE));
    match (
        stream.set_read_timeout(patience),
        stream.set_write_timeout(patience),
    ) {
        (Ok(()), Ok(())) => Some(stream),
        _ => None,
    }
}

/// Whether a listener was stopped, where there is one.
fn is_stopped(stopped: Option<&AtomicBool>) -> bool {
    match stopped {
        Some(stopped) => stopped.load(Ordering::SeqCst),
        None => false,
    }
}

/// How long a close that began then may wait before it looks again; None where its time is over, or the clock can't be read.
fn time_left<R: SystemTimeSource>(
    rt: &R,
    since: &Instant,
    stopped: Option<&AtomicBool>,
) -> Option<Duration> {
    let gone = since.elapsed(rt).ok()?;
    let most = if is_stopped(stopped) {
        PARTING_AT_STOP
    } else {
        PARTING
    };
    let left = Duration::from_millis(most).saturating_sub(gone);
    if left.is_zero() {
        None
    } else {
        Some(left.min(Duration::from_millis(SLICE)))
    }
}

/// Reads and drops what still comes, until the peer's end, or for as long as a close may.
fn drop_rest<R: SystemTimeSource>(rt: &R, stream: &mut TcpStream, stopped: Option<&AtomicBool>) {
    let Ok(since) = Instant::now(rt) else {
        return;
    };
    let mut piece = [0; PIECE];
    let mut left = MOST_DROPPED;
    for _ in 0..MOST_DROPPED {
        let wait = time_left(rt, &since, stopped);
        if wait.is_none() || stream.set_read_timeout(wait).is_err() {
            return;
        }
        match read_in_time(stream, &mut piece) {
            Moved::Octets(count) if 0 < count && count < left => left -= count,
            Moved::None => {}
            _ => return,
        }
    }
}

/// Reads octets of a connection, where there is one.
fn read_of(stream: &mut Option<TcpStream>, buf: &mut [u8]) -> Option<usize>
    ensures { IfSome result (λ count. count ≤ length buf.old) }
{
    match stream {
        Some(stream) => read_on(stream, buf),
        None => None,
    }
}

/// Writes the first octets of `buf` to a connection, where there is one.
fn write_of(stream: &mut Option<TcpStream>, buf: &[u8]) -> Option<usize>
    ensures count { IfSome result (λ count. count ≤ length buf.now) }
    ensures some { IfSome result (λ count. 0 < length buf.now → 0 < count) }
{
    match stream {
        Some(stream) => write_on(stream, buf),
        None => None,
    }
}

/// The same as `read_of`, and says where none came while it waited.
fn read_where(stream: &mut Option<TcpStream>, buf: &mut [u8]) -> Moved
    ensures { (count : ℕ) → result ≡ Moved.Octets count → count ≤ length buf.old }
{
    match stream {
        Some(stream) => read_in_time(stream, buf),
        None => Moved::Fault,
    }
}

/// The same as `write_of`, and says where none were taken while it waited.
fn write_where(stream: &mut Option<TcpStream>, buf: &[u8]) -> Moved
    ensures count { (count : ℕ) → result ≡ Moved.Octets count → count ≤ length buf.now }
    ensures some { (count : ℕ) → result ≡ Moved.Octets count → 0 < length buf.now → 0 < count }
{
    match stream {
        Some(stream) => write_in_time(stream, buf),
        None => Moved::Fault,
    }
}

impl<R: SystemTimeSource + Drop> TcpLink<R> {
    ghost use Rattle.system_devices.specs.Moves.{wire_of, TakesMoved, WritesMoved};

    /// A link without a connection.
    pub(crate) fn none(rt: R) -> TcpLink<R>
        ensures closed { result.closed ≡ false }
        ensures faults { result.faults ≡ 0 }
    {
        TcpLink {
            rt,
            stream: None,
            faults: 0,
            closed: false,
            taken: Trail::new(),
            written: Trail::new(),
        }
    }

    /// From now on the link is over this connection, where there is one.
    pub(crate) fn take(&mut self, stream: Option<TcpStream>)
        ensures wire { wire_of self.new ≡ wire_of self.old }
        ensures faults { self.new.faults ≡ self.old.faults }
        ensures closed { self.new.closed ≡ self.old.closed }
    {
        self.stream = match stream {
            Some(stream) => prepared(stream),
            None => None,
        };
    }

    /// Has each later read and write wait for at most so long; false where that can't be set.
    pub(crate) fn wait_for(&self, most: Duration) -> bool {
        match &self.stream {
            Some(stream) => {
                stream.set_read_timeout(Some(most)).is_ok()
                    && stream.set_write_timeout(Some(most)).is_ok()
            }
            None => false,
        }
    }

    /// Reads octets, and says where none came while it waited.
    pub(crate) fn read_waiting(&mut self, buf: &mut [u8]) -> Moved
        ensures count { (count : ℕ) → result ≡ Moved.Octets count → count ≤ length buf.old }
        ensures taken { TakesMoved (wire_of self.old) (wire_of self.new) result buf.new }
        ensures closed { self.new.closed ≡ self.old.closed }
    {
        match read_where(&mut self.stream, buf) {
            Moved::Octets(count) => {
                self.taken = self.taken.then(&buf[..count]);
                Moved::Octets(count)
            }
            Moved::None => Moved::None,
            Moved::Fault => Moved::Fault,
        }
    }

    /// Writes the first octets of `buf`, and says where none were taken while it waited.
    pub(crate) fn write_waiting(&mut self, buf: &[u8]) -> Moved
        ensures count { (count : ℕ) → result ≡ Moved.Octets count → count ≤ length buf.now }
        ensures some { (count : ℕ) → result ≡ Moved.Octets count → 0 < length buf.now → 0 < count }
        ensures written { WritesMoved (wire_of self.old) (wire_of self.new) result buf.now }
        ensures closed { self.new.closed ≡ self.old.closed }
    {
        match write_where(&mut self.stream, buf) {
            Moved::Octets(count) => {
                self.written = self.written.then(&buf[..count]);
                Moved::Octets(count)
            }
            Moved::None => Moved::None,
            Moved::Fault => Moved::Fault,
        }
    }

    /// Ends the connection. The wait for the peer's end is short where the listener was or is stopped, of which the flag tells.
    pub(crate) fn part(&mut self, stopped: Option<&AtomicBool>)
        ensures wire { wire_of self.new ≡ wire_of self.old }
        ensures closed { self.new.closed ≡ true }
        ensures faults { self.new.faults ≡ self.old.faults }
    {
        if let Some(stream) = &mut self.stream {
            if stream.shutdown(Shutdown::Write).is_ok() {
                drop_rest(&self.rt, stream, stopped);
            }
        }
        self.stream = None;
        self.closed = true;
    }
}

impl<R: SystemTimeSource + Drop> Link for TcpLink<R> {
    ghost use Rattle.system_devices.specs.Moves.{wire_of};
    ghost use Rattle.std.specs.Prelude.{false};

    ghost faults = { λ l. l.faults };

    ghost tells = { λ _. false };

    ghost wire = { λ l. wire_of l };

    ghost closed = { λ l. l.closed };

    ghost closes = { λ old new. new.faults ≡ old.faults };

    fn read(&mut self, buf: &mut [u8]) -> Result<usize, LinkFault> {
        match read_of(&mut self.stream, buf) {
            Some(count) => {
                self.taken = self.taken.then(&buf[..count]);
                Ok(count)
            }
            None => {
                self.faults = self.faults.saturating_add(1);
                Err(LinkFault)
            }
        }
    }

    fn write(&mut self, buf: &[u8]) -> Result<usize, LinkFault> {
        match write_of(&mut self.stream, buf) {
            Some(count) => {
                self.written = self.written.then(&buf[..count]);
                Ok(count)
            }
            None => {
                self.faults = self.faults.saturating_add(1);
                Err(LinkFault)
            }
        }
    }

    fn close(&mut self) {
        self.part(None);
    }
}
