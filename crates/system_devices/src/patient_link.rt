//! A TCP connection with a time for each record and each reply.

ghost use Rattle.std.specs.Prelude.{◌≡◌, ◌≤◌, false, length};
ghost use Rattle.sec_base.specs.Answers.{Rose};

use crate::again::Moved;
use crate::tcp_link::{SLICE, TcpLink};
use sec_base::{Link, LinkFault};
use std::net::TcpStream;
use std::rt::Clock;
use std::sync::atomic::{AtomicBool, Ordering};
use std::time::{Duration, Instant};

/// For each so many octets of a record or of a reply its time is a second longer.
const OCTETS_A_SECOND: u64 = 1024;

/// The shortest wait, in milliseconds. (The system takes none at all for a wait without end.)
const SHORTEST: u64 = 1;

/// How many milliseconds a reply that was begun has once the listener was stopped.
const GRACE: u64 = 500;

/// What moved last.
#[derive(Clone, Copy)]
enum Turn {
    Nothing,
    Record,
    Reply,
}

/// A TCP connection whose peer can't hold it by an octet now and then. It may be silent for so many seconds. So many seconds, and a
/// second more for each 1,024 octets, may go by from a record's first octets to its reply's, and from those to the reply's last. After
/// that each call answers a fault. Once its listener was stopped, which a call that waits sees within half a second, it reads as ended,
/// and what is written has half a second more. What it took and wrote is what its calls answered; it tells nothing of octets to come.
#[derive(Drop)]
pub struct PatientLink<'a, R: Clock + Drop> {
    link: TcpLink<R>,
    rt: R,
    idle: Duration,
    stopped: &'a AtomicBool,
    turn: Turn,
    // when that began to move, and how many octets of it moved so far
    since: Option<Instant>,
    octets: u64,
    // when a write first saw that the listener was stopped
    parting: Option<Instant>,
    // for how long the connection's calls wait now
    wait: Duration,
    faults: u64,
}

impl<'a, R: Clock + Copy + Drop> PatientLink<'a, R> {
    /// A link over this connection, which may be silent for `idle` seconds. The flag is its listener's.
    pub(crate) fn over(
        rt: R,
        stream: TcpStream,
        idle: u32,
        stopped: &'a AtomicBool,
    ) -> PatientLink<'a, R>
        ensures { ⟦<PatientLink<'a, R> as Link>⟧.closed result ≡ false }
    {
        let mut link = TcpLink::none(rt);
        link.take(Some(stream));
        PatientLink {
            link,
            rt,
            idle: Duration::from_secs(idle as u64),
            stopped,
            turn: Turn::Nothing,
            since: None,
            octets: 0,
            parting: None,
            wait: Duration::ZERO,
            faults: 0,
        }
    }

    /// Whether the listener was stopped.
    fn is_stopped(&self) -> bool {
        self.stopped.load(Ordering::SeqCst)
    }

    /// How long what moves may take.
    fn time(&self) -> Duration {
        self.idle
            .saturating_add(Duration::from_secs(self.octets / OCTETS_A_SECOND))
    }

    /// How many waits that takes, of half a second each.
    fn waits(&self) -> u64 {
        self.time().as_secs().saturating_mul(1000 / SLICE)
    }

    /// How much is left of so long since then; None where nothing is. Where the clock can't be read, it is all of it.
    fn left(&self, whole: Duration, since: Option<Instant>) -> Option<Duration> {
        match (since, Instant::now(&self.rt)) {
            (Some(since), Ok(now)) => whole.checked_sub(now.duration_since(since)),
            _ => Some(whole),
        }
    }

    /// Has the next call wait for so long, and for at most half a second; false where that can't be set.
    fn allow(&mut self, left: Duration) -> bool
        ensures link { self.new.link ≡ self.old.link }
        ensures faults { self.new.faults ≡ self.old.faults }
    {
        let wait = left
            .min(Duration::from_millis(SLICE))
            .max(Duration::from_millis(SHORTEST));
        if wait == self.wait {
            return true;
        }
        self.wait = wait;
        self.link.wait_for(wait)
    }

    /// Takes note of what begins to move.
    fn begin(&mut self, turn: Turn)
        ensures link { self.new.link ≡ self.old.link }
        ensures faults { self.new.faults ≡ self.old.faults }
    {
        self.turn = turn;
        self.since = Instant::now(&self.rt).ok();
        self.octets = 0;
    }

    /// Has a read wait as long as it may; false where its time is over.
    fn await_record(&mut self) -> bool
        ensures link { self.new.link ≡ self.old.link }
        ensures faults { self.new.faults ≡ self.old.faults }
    {
        let left = match self.turn {
            Turn::Record => self.left(self.time(), self.since),
            _ => Some(self.idle),
        };
        match left {
            Some(left) => self.allow(left),
            None => false,
        }
    }

    /// Has a write wait as long as it may; false where its time is over.
    fn await_reply(&mut self) -> bool
        ensures link { self.new.link ≡ self.old.link }
        ensures faults { self.new.faults ≡ self.old.faults }
    {
        if self.is_stopped() && self.parting.is_none() {
            self.parting = Instant::now(&self.rt).ok();
        }
        let left = if self.is_stopped() {
            self.left(Duration::from_millis(GRACE), self.parting)
        } else {
            self.left(self.time(), self.since)
        };
        match left {
            Some(left) => self.allow(left),
            None => false,
        }
    }

    /// Takes note of octets that were read.
    fn took(&mut self, count: usize)
        ensures link { self.new.link ≡ self.old.link }
        ensures faults { self.new.faults ≡ self.old.faults }
    {
        match self.turn {
            Turn::Record => {}
            _ => self.begin(Turn::Record),
        }
        self.octets = self.octets.saturating_add(count as u64);
    }

    /// Takes note of octets that are written.
    fn gives(&mut self)
        ensures link { self.new.link ≡ self.old.link }
        ensures faults { self.new.faults ≡ self.old.faults }
    {
        match self.turn {
            Turn::Reply => {}
            _ => self.begin(Turn::Reply),
        }
    }

    /// Counts a fault.
    fn fault(&mut self) -> LinkFault
        ensures link { self.new.link ≡ self.old.link }
        ensures fault { Rose self.old.faults self.new.faults }
        ensures faults { self.old.faults ≤ self.new.faults }
    {
        self.faults = self.faults.saturating_add(1);
        LinkFault
    }
}

impl<R: Clock + Copy + Drop> Link for PatientLink<'_, R> {
    ghost use Rattle.std.specs.Prelude.{false};
    ghost use Rattle.system_devices.specs.Moves.{wire_of};

    ghost faults = { λ l. l.faults };

    ghost tells = { λ _. false };

    ghost wire = { λ l. wire_of l.link };

    ghost closed = { λ l. ⟦<TcpLink<R> as Link>⟧.closed l.link };

    ghost closes = { λ old new. new.faults ≡ old.faults };

    fn read(&mut self, buf: &mut [u8]) -> Result<usize, LinkFault> {
        for _ in 0..self.waits() {
            if self.is_stopped() {
                return Ok(0);
            }
            if !self.await_record() {
                break;
            }
            match self.link.read_waiting(buf) {
                Moved::Octets(count) => {
                    self.took(count);
                    return Ok(count);
                }
                Moved::None => {}
                Moved::Fault => break,
            }
        }
        Err(self.fault())
    }

    fn write(&mut self, buf: &[u8]) -> Result<usize, LinkFault> {
        self.gives();
        for _ in 0..=self.waits() {
            if !self.await_reply() {
                break;
            }
            match self.link.write_waiting(buf) {
                Moved::Octets(count) => {
                    self.octets = self.octets.saturating_add(count as u64);
                    return Ok(count);
                }
                Moved::None => {}
                Moved::Fault => break,
            }
        }
        Err(self.fault())
    }

    fn close(&mut self) {
        self.link.part(Some(self.stopped));
    }
}
