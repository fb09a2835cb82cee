//! Links that read ahead and write behind, for those whose reads and writes are calls of the system.

ghost use Rattle.std.specs.Prelude.{◌≡◌, ◌<◌, ◌≤◌, ◌==◌, ◌++◌, true, false, [], length, take};
ghost use Rattle.std.specs.Prelude.{IfOk, OnOk, OnErr};
ghost use Rattle.sec_base.specs.Answers.{Rose};
ghost use Rattle.sec_base.specs.Link.{Reads, Writes};
ghost use Rattle.sec_base.specs.Streams.{Sends};
ghost use Rattle.stream_buffers.specs.Ahead.{waiting, waiting_in, AreLast, Gives};
ghost use Rattle.stream_buffers.specs.Behind.{held, unwritten, Queues, LetGo};

use crate::ahead::{Ahead, ROOM, read_from};
use crate::behind::Behind;
use sec_base::{Link, LinkFault, Port, PortFault, Trail};
use std::alloc::Global;

/// A link that reads ahead, as many octets as are there and fit into 4,096, where fewer are wanted; where as many are wanted and none
/// wait, they are read to where they are wanted. It writes behind: up to 8,192 octets wait until the link below is read, or closed, or
/// until more come, so that the replies to calls that came together go out together. Where there was no memory for either, and once it is closed, it keeps
/// none. A write that fails late is answered by the call that it was late for. What it took and wrote is what its calls were asked and answered; it
/// tells nothing of octets to come.
#[derive(Drop)]
pub struct Buffered<L: Link> {
    link: L,
    ahead: Option<Ahead>,
    behind: Option<Behind>,
    may_wait: bool,
    taken: Trail,
    written: Trail,
    ghost unclosed: { may_wait ≡ true → L.closed link ≡ false },
    ghost idle: { may_wait ≡ false → held behind ≡ [] },
    // until it is closed: what it gave and what waits are the last octets that the link below took
    ghost in_order: { L.closed link ≡ false
        → AreLast (taken.octets ++ waiting_in ahead) (L.wire link).taken },
}

/// Gives the octets that wait, and reads ahead before where none do.
fn read_by<L: Link>(ahead: &mut Ahead, link: &mut L, buf: &mut [u8]) -> Result<usize, LinkFault>
    requires { L.closed link.old ≡ false }
    ensures count { IfOk result (λ count. count ≤ length buf.old) }
    ensures given { IfOk result (λ count. Gives (L.wire link.old) (L.wire link.new)
        (waiting ahead.old) (waiting ahead.new) (take count buf.new)) }
    ensures kept { OnErr result (waiting ahead.new ≡ waiting ahead.old) }
    ensures untaken { OnErr result ((L.wire link.new).taken ≡ (L.wire link.old).taken) }
    ensures unclosed { L.closed link.new ≡ false }
    ensures written { (L.wire link.new).written ≡ (L.wire link.old).written }
    ensures fault { OnErr result (Rose (L.faults link.old) (L.faults link.new)) }
    ensures steady { OnOk result (L.faults link.new ≡ L.faults link.old) }
    ensures faults { L.faults link.old ≤ L.faults link.new }
{
    if ahead.is_empty() && !buf.is_empty() {
        match ahead.fill(link) {
            Ok(()) => {}
            Err(fault) => return Err(fault),
        }
    }
    Ok(ahead.move_to(buf))
}

/// Gives the next octets, those that were read ahead first, and writes none. Where many are wanted and none wait, or where none are kept, they
/// are read to where they are wanted.
fn give<L: Link>(
    ahead: &mut Option<Ahead>,
    link: &mut L,
    buf: &mut [u8],
) -> Result<usize, LinkFault>
    requires { L.closed link.old ≡ false }
    ensures count { IfOk result (λ count. count ≤ length buf.old) }
    ensures given { IfOk result (λ count. Gives (L.wire link.old) (L.wire link.new)
        (waiting_in ahead.old) (waiting_in ahead.new) (take count buf.new)) }
    ensures kept { OnErr result (waiting_in ahead.new ≡ waiting_in ahead.old) }
    ensures untaken { OnErr result ((L.wire link.new).taken ≡ (L.wire link.old).taken) }
    ensures written { (L.wire link.new).written ≡ (L.wire link.old).written }
    ensures unclosed { L.closed link.new ≡ false }
    ensures fault { OnErr result (Rose (L.faults link.old) (L.faults link.new)) }
    ensures steady { OnOk result (L.faults link.new ≡ L.faults link.old) }
    ensures faults { L.faults link.old ≤ L.faults link.new }
{
    match ahead {
        Some(ahead) if buf.len() < ROOM || !ahead.is_empty() => read_by(ahead, link, buf),
        _ => read_from(link, buf),
    }
}

/// Takes octets that are to be written. They wait, behind those that wait already. If there is no room for both, the first of them fill
/// the room, and all that wait is written, so that no octets go out alone; octets behind which none wait, and for which there is no room,
/// are written at once.
fn write_by<L: Link>(behind: &mut Behind, link: &mut L, buf: &[u8]) -> Result<usize, LinkFault>
    requires { L.closed link.old ≡ false }
    ensures count { IfOk result (λ count. count ≤ length buf.now) }
    ensures some { IfOk result (λ count. 0 < length buf.now → 0 < count) }
    ensures in_order { IfOk result
        (λ count. Queues (L.wire link.old) (L.wire link.new) (unwritten behind.old)
        (unwritten behind.new) (take count buf.now)) }
    ensures untaken { (L.wire link.new).taken ≡ (L.wire link.old).taken }
    ensures unclosed { L.closed link.new ≡ false }
    ensures fault { OnErr result (Rose (L.faults link.old) (L.faults link.new)) }
    ensures steady { OnOk result (L.faults link.new ≡ L.faults link.old) }
    ensures faults { L.faults link.old ≤ L.faults link.new }
{
    if behind.has_room(buf) {
        behind.keep(buf);
        return Ok(buf.len());
    }
    let front = behind.keep_front(buf);
    behind.flush(link)?;
    if front > 0 {
        return Ok(front);
    }
    link.write(buf)
}

impl<L: Link> Buffered<L> {
    ghost use Rattle.stream_buffers.specs.Buffered.{link_below, read_ahead, written_behind};

    /// A link over `link`, of which nothing was read ahead, and for which nothing waits.
    pub fn over(alloc: Global, link: L) -> Buffered<L>
        ensures below { link_below result ≡ link }
        ensures ahead { read_ahead result ≡ [] }
        ensures behind { written_behind result ≡ [] }
    {
        Buffered {
            link,
            ahead: Ahead::none(alloc),
            behind: Behind::none(alloc),
            may_wait: false,
            taken: Trail::new(),
            written: Trail::new(),
        }
    }

    /// Whether no octets wait that were read ahead, so that the next read asks the link below.
    fn is_drained(&self) -> bool
        ensures { result ≡ (length (waiting_in self.now.ahead) == 0) }
    {
        match &self.ahead {
            Some(ahead) => ahead.is_empty(),
            None => true,
        }
    }

    /// Writes what waits.
    fn flush(&mut self) -> Result<(), LinkFault>
        requires { L.closed self.old.link ≡ false }
        ensures none { held self.new.behind ≡ [] }
        ensures ahead { self.new.ahead ≡ self.old.ahead }
        ensures told { Sends (L.tells self.old.link) (L.wire self.old.link) (L.wire self.new.link)
            result (held self.old.behind) }
        ensures trails { (self.new.taken ≡ self.old.taken) × (self.new.written ≡ self.old.written) }
        ensures tells { L.tells self.new.link ≡ L.tells self.old.link }
        ensures unclosed { L.closed self.new.link ≡ false }
        ensures fault { OnErr result (Rose (L.faults self.old.link) (L.faults self.new.link)) }
        ensures steady { OnOk result (L.faults self.new.link ≡ L.faults self.old.link) }
        ensures faults { L.faults self.old.link ≤ L.faults self.new.link }
    {
        self.may_wait = false;
        match &mut self.behind {
            Some(behind) => behind.flush(&mut self.link),
            None => Ok(()),
        }
    }

    /// Closes the link below, for which nothing waits. From now on nothing is kept.
    fn shut(&mut self)
        requires { held self.old.behind ≡ [] }
        ensures told { L.wire self.new.link ≡ L.wire self.old.link }
        ensures trails { (self.new.taken ≡ self.old.taken) × (self.new.written ≡ self.old.written) }
        ensures closed { L.closed self.new.link ≡ true }
        ensures none { held self.new.behind ≡ [] }
        ensures faults { L.faults self.old.link ≤ L.faults self.new.link }
    {
        self.may_wait = false;
        self.ahead = None;
        self.behind = None;
        self.link.close();
    }

    /// Writes what waits, and closes the link. An answer other than Ok says that a front of it was written; the link is closed whatever is
    /// answered.
    pub fn end(&mut self) -> Result<(), LinkFault>
        requires { L.closed (link_below self.old) ≡ false }
        ensures sent { Sends (L.tells (link_below self.old)) (L.wire (link_below self.old))
            (L.wire (link_below self.new)) result (written_behind self.old) }
        ensures closed { L.closed (link_below self.new) ≡ true }
        ensures fault { OnErr result
            (Rose (L.faults (link_below self.old)) (L.faults (link_below self.new))) }
        ensures faults { L.faults (link_below self.old) ≤ L.faults (link_below self.new) }
    {
        let sent = self.flush();
        self.shut();
        sent
    }

    /// Writes what waits, if the next read asks the link below.
    fn drain(&mut self) -> Result<(), LinkFault>
        requires { L.closed self.old.link ≡ false }
        ensures ahead { self.new.ahead ≡ self.old.ahead }
        ensures taken { (L.wire self.new.link).taken ≡ (L.wire self.old.link).taken }
        ensures trails { (self.new.taken ≡ self.old.taken) × (self.new.written ≡ self.old.written) }
        ensures none { waiting_in self.old.ahead ≡ [] → held self.new.behind ≡ [] }
        ensures written { waiting_in self.old.ahead ≡ []
            → OnOk result ((L.wire self.new.link).written
            ≡ (L.wire self.old.link).written ++ held self.old.behind) }
        ensures tells { L.tells self.new.link ≡ L.tells self.old.link }
        ensures unclosed { L.closed self.new.link ≡ false }
        ensures fault { OnErr result (Rose (L.faults self.old.link) (L.faults self.new.link)) }
        ensures steady { OnOk result (L.faults self.new.link ≡ L.faults self.old.link) }
        ensures faults { L.faults self.old.link ≤ L.faults self.new.link }
    {
        if self.is_drained() {
            return self.flush();
        }
        Ok(())
    }

    /// Gives the next octets, and notes them. Before the link below is asked, what waits to be written is written to it.
    fn fetch(&mut self, buf: &mut [u8]) -> Result<usize, LinkFault>
        requires { L.closed self.old.link ≡ false }
        ensures count { IfOk result (λ count. count ≤ length buf.old) }
        ensures given { IfOk result (λ count. Gives (L.wire self.old.link) (L.wire self.new.link)
            (waiting_in self.old.ahead) (waiting_in self.new.ahead) (take count buf.new)) }
        ensures drained { waiting_in self.old.ahead ≡ [] → held self.new.behind ≡ [] }
        ensures written { waiting_in self.old.ahead ≡ []
            → OnOk result ((L.wire self.new.link).written
            ≡ (L.wire self.old.link).written ++ held self.old.behind) }
        ensures noted { IfOk result (λ count. self.new.taken.octets
            ≡ self.old.taken.octets ++ take count buf.new) }
        ensures unnoted { OnErr result (self.new.taken ≡ self.old.taken) }
        ensures writes { self.new.written ≡ self.old.written }
        ensures unclosed { L.closed self.new.link ≡ false }
        ensures fault { OnErr result (Rose (L.faults self.old.link) (L.faults self.new.link)) }
        ensures steady { OnOk result (L.faults self.new.link ≡ L.faults self.old.link) }
        ensures faults { L.faults self.old.link ≤ L.faults self.new.link }
    {
        self.drain()?;
        let count = give(&mut self.ahead, &mut self.link, buf)?;
        self.taken = self.taken.then(&buf[..count]);
        Ok(count)
    }

    /// Takes octets that are to be written, as many first ones as it answers.
    fn pass(&mut self, buf: &[u8]) -> Result<usize, LinkFault>
        requires { L.closed self.old.link ≡ false }
        ensures count { IfOk result (λ count. count ≤ length buf.now) }
        ensures some { IfOk result (λ count. 0 < length buf.now → 0 < count) }
        ensures queued { IfOk result (λ count. Queues (L.wire self.old.link)
            (L.wire self.new.link) (held self.old.behind) (held self.new.behind)
            (take count buf.now)) }
        ensures trails { (self.new.taken ≡ self.old.taken) × (self.new.written ≡ self.old.written) }
        ensures unclosed { L.closed self.new.link ≡ false }
        ensures fault { OnErr result (Rose (L.faults self.old.link) (L.faults self.new.link)) }
        ensures steady { OnOk result (L.faults self.new.link ≡ L.faults self.old.link) }
        ensures faults { L.faults self.old.link ≤ L.faults self.new.link }
    {
        self.may_wait = true;
        match &mut self.behind {
            Some(behind) => write_by(behind, &mut self.link, buf),
            None => self.link.write(buf),
        }
    }
}

impl<L: Link> Link for Buffered<L> {
    ghost use Rattle.std.specs.Prelude.{false, []};
    ghost use Rattle.stream_buffers.specs.Buffered.{link_below, read_ahead, written_behind};

    ghost faults = { λ b. L.faults b.link };

    ghost tells = { λ _. false };

    ghost wire = { λ b. record {
      taken = b.taken.octets;
      coming = [];
      written = b.written.octets;
    } };

    ghost closed = { λ b. L.closed b.link };

    // what still waited may be lost by a fault
    ghost closes = { λ old new. L.faults old.link ≤ L.faults new.link };

    fn read(&mut self, buf: &mut [u8]) -> Result<usize, LinkFault>
        requires { ⟦<Buffered<L> as Link>⟧.closed self.old ≡ false }
        ensures count { IfOk result (λ count. count ≤ length buf.old) }
        ensures told { Reads (⟦<Buffered<L> as Link>⟧.tells self.old)
            (⟦<Buffered<L> as Link>⟧.wire self.old) (⟦<Buffered<L> as Link>⟧.wire self.new)
            result buf.new }
        ensures tells { ⟦<Buffered<L> as Link>⟧.tells self.new
            ≡ ⟦<Buffered<L> as Link>⟧.tells self.old }
        ensures unclosed { ⟦<Buffered<L> as Link>⟧.closed self.new ≡ false }
        ensures fault { OnErr result (Rose (⟦<Buffered<L> as Link>⟧.faults self.old)
            (⟦<Buffered<L> as Link>⟧.faults self.new)) }
        ensures steady { OnOk result
            (⟦<Buffered<L> as Link>⟧.faults self.new ≡ ⟦<Buffered<L> as Link>⟧.faults self.old) }
        ensures faults { ⟦<Buffered<L> as Link>⟧.faults self.old
            ≤ ⟦<Buffered<L> as Link>⟧.faults self.new }
        // the octets are those that were taken of the link below, once and in order
        ensures given { IfOk result
            (λ count. Gives (L.wire (link_below self.old)) (L.wire (link_below self.new))
            (read_ahead self.old) (read_ahead self.new) (take count buf.new)) }
        // before the link below is asked, what waits to be written is written to it
        ensures drained { read_ahead self.old ≡ [] → written_behind self.new ≡ [] }
        ensures written { read_ahead self.old ≡ []
            → OnOk result ((L.wire (link_below self.new)).written
            ≡ (L.wire (link_below self.old)).written ++ written_behind self.old) }
    {
        self.fetch(buf)
    }

    fn write(&mut self, buf: &[u8]) -> Result<usize, LinkFault>
        requires { ⟦<Buffered<L> as Link>⟧.closed self.old ≡ false }
        ensures count { IfOk result (λ count. count ≤ length buf.now) }
        ensures some { IfOk result (λ count. 0 < length buf.now → 0 < count) }
        ensures told { Writes (⟦<Buffered<L> as Link>⟧.tells self.old)
            (⟦<Buffered<L> as Link>⟧.wire self.old) (⟦<Buffered<L> as Link>⟧.wire self.new)
            result buf.now }
        ensures tells { ⟦<Buffered<L> as Link>⟧.tells self.new
            ≡ ⟦<Buffered<L> as Link>⟧.tells self.old }
        ensures unclosed { ⟦<Buffered<L> as Link>⟧.closed self.new ≡ false }
        ensures fault { OnErr result (Rose (⟦<Buffered<L> as Link>⟧.faults self.old)
            (⟦<Buffered<L> as Link>⟧.faults self.new)) }
        ensures steady { OnOk result
            (⟦<Buffered<L> as Link>⟧.faults self.new ≡ ⟦<Buffered<L> as Link>⟧.faults self.old) }
        ensures faults { ⟦<Buffered<L> as Link>⟧.faults self.old
            ≤ ⟦<Buffered<L> as Link>⟧.faults self.new }
        // what was taken is written to the link below or waits, behind what waited, once and in order
        ensures queued { IfOk result
            (λ count. Queues (L.wire (link_below self.old)) (L.wire (link_below self.new))
            (written_behind self.old) (written_behind self.new) (take count buf.now)) }
    {
        let count = self.pass(buf)?;
        self.written = self.written.then(&buf[..count]);
        Ok(count)
    }

    fn close(&mut self)
        ensures told { ⟦<Buffered<L> as Link>⟧.wire self.new
            ≡ ⟦<Buffered<L> as Link>⟧.wire self.old }
        ensures tells { ⟦<Buffered<L> as Link>⟧.tells self.new
            ≡ ⟦<Buffered<L> as Link>⟧.tells self.old }
        ensures closed { ⟦<Buffered<L> as Link>⟧.closed self.new ≡ true }
        ensures closes { ⟦<Buffered<L> as Link>⟧.closes self.old self.new }
        ensures faults { ⟦<Buffered<L> as Link>⟧.faults self.old
            ≤ ⟦<Buffered<L> as Link>⟧.faults self.new }
        // what waits is written to the link below, or a front of it where that fails
        ensures sent { LetGo (L.tells (link_below self.old))
            (L.wire (link_below self.old)) (L.wire (link_below self.new))
            (L.faults (link_below self.old)) (L.faults (link_below self.new))
            (written_behind self.old) }
    {
        if self.may_wait {
            let _ = self.flush();
        }
        self.shut();
    }
}

/// A port whose links read ahead and write behind.
#[derive(Drop)]
pub struct BufferedPort<P> {
    port: P,
    alloc: Global,
}

impl<P: Port> BufferedPort<P> {
    ghost use Rattle.stream_buffers.specs.Buffered.{port_below};

    /// A port whose links are those of `port`.
    pub fn new(alloc: Global, port: P) -> BufferedPort<P>
        ensures { port_below result ≡ port }
    {
        BufferedPort { port, alloc }
    }
}

impl<P: Port> Port for BufferedPort<P> {
    ghost use Rattle.std.specs.Prelude.{false, []};

    type Link = Buffered<P::Link>;

    ghost faults = { λ p. P.faults p.port };

    ghost tells = { λ _. false };

    ghost links = { λ _. [] };

    fn accept(&mut self) -> Result<Option<Buffered<P::Link>>, PortFault> {
        match self.port.accept() {
            Ok(Some(link)) => Ok(Some(Buffered::over(self.alloc, link))),
            Ok(None) => Ok(None),
            Err(fault) => Err(fault),
        }
    }
}
