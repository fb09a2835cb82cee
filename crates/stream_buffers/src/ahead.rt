//! Octets of a link that were read before they were asked for.

ghost use Rattle.std.specs.Prelude.{◌≡◌, ◌++◌, ◌==◌, ◌≤◌, false, [], length, take, min, vec_len};
ghost use Rattle.std.specs.Prelude.{IfOk, OnOk, OnErr};
ghost use Rattle.sec_base.specs.Answers.{Rose};
ghost use Rattle.sec_base.specs.Link.{Reads};

use sec_base::{Link, LinkFault};
use std::alloc::Global;

/// How many octets are read ahead.
pub(crate) const ROOM: usize = 4096;

/// Octets of a link that were read before they were asked for, so that a stream of small records takes one read a record.
#[derive(Drop)]
pub(crate) struct Ahead {
    octets: Vec<u8>,
    at: usize,
    end: usize,
    ghost order: { at ≤ end },
    ghost within: { end ≤ vec_len octets },
}

/// Reads octets of the link, to which none are written.
pub(crate) fn read_from<L: Link>(link: &mut L, buf: &mut [u8]) -> Result<usize, LinkFault>
    requires { L.closed link.old ≡ false }
    ensures count { IfOk result (λ count. count ≤ length buf.old) }
    ensures told { Reads (L.tells link.old) (L.wire link.old) (L.wire link.new) result buf.new }
    ensures untaken { OnErr result ((L.wire link.new).taken ≡ (L.wire link.old).taken) }
    ensures written { (L.wire link.new).written ≡ (L.wire link.old).written }
    ensures unclosed { L.closed link.new ≡ false }
    ensures fault { OnErr result (Rose (L.faults link.old) (L.faults link.new)) }
    ensures steady { OnOk result (L.faults link.new ≡ L.faults link.old) }
    ensures faults { L.faults link.old ≤ L.faults link.new }
{
    match link.read(buf) {
        Ok(count) => Ok(count),
        Err(fault) => Err(fault),
    }
}

impl Ahead {
    ghost use Rattle.stream_buffers.specs.Ahead.{waiting, waiting_in};

    /// No octets, with room for some; None where there is no memory for that.
    pub(crate) fn none(alloc: Global) -> Option<Ahead>
        ensures { waiting_in result ≡ [] }
    {
        match vec![in alloc; 0; ROOM] {
            Ok(octets) => Some(Ahead {
                octets,
                at: 0,
                end: 0,
            }),
            Err(_) => None,
        }
    }

    /// Whether no octets wait.
    pub(crate) fn is_empty(&self) -> bool
        ensures value { result ≡ (self.now.at == self.now.end) }
        ensures nothing { result ≡ (length (waiting self.now) == 0) }
    {
        self.at == self.end
    }

    /// Moves the first octets to the front of `buf`, as many as fit.
    pub(crate) fn move_to(&mut self, buf: &mut [u8]) -> usize
        ensures octets { waiting self.old ≡ take result buf.new ++ waiting self.new }
        ensures count { result ≡ min (length buf.old) (length (waiting self.old)) }
    {
        let count = buf.len().min(self.end - self.at);
        buf[..count].copy_from_slice(&self.octets[self.at..self.at + count]);
        self.at += count;
        count
    }

    /// Reads octets of the link, none at its end.
    pub(crate) fn fill<L: Link>(&mut self, link: &mut L) -> Result<(), LinkFault>
        requires empty { self.old.at ≡ self.old.end }
        requires unclosed { L.closed link.old ≡ false }
        ensures unclosed { L.closed link.new ≡ false }
        ensures none { OnErr result (waiting self.new ≡ []) }
        ensures filled { OnOk result ((L.wire link.new).taken
            ≡ (L.wire link.old).taken ++ waiting self.new) }
        ensures untaken { OnErr result ((L.wire link.new).taken ≡ (L.wire link.old).taken) }
        ensures written { (L.wire link.new).written ≡ (L.wire link.old).written }
        ensures fault { OnErr result (Rose (L.faults link.old) (L.faults link.new)) }
        ensures steady { OnOk result (L.faults link.new ≡ L.faults link.old) }
        ensures faults { L.faults link.old ≤ L.faults link.new }
    {
        match read_from(link, &mut self.octets) {
            Ok(count) => {
                self.at = 0;
                self.end = count;
                Ok(())
            }
            Err(fault) => Err(fault),
        }
    }
}
