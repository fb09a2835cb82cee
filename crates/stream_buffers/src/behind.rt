//! Octets for a link that wait to be written.

ghost use Rattle.std.specs.Prelude.{◌≡◌, ◌+◌, ◌++◌, ◌==◌, ◌≤◌, false, [], length, take, nat_le};
ghost use Rattle.std.specs.Prelude.{vec_len, OnOk, OnErr};
ghost use Rattle.sec_base.specs.Answers.{Rose};
ghost use Rattle.sec_base.specs.Streams.{Sends};

use sec_base::transfer::send;
use sec_base::{Link, LinkFault};
use std::alloc::Global;

/// How many octets may wait.
const ROOM: usize = 8192;

/// Octets for a link that wait to be written, so that replies to many small records go out in one write.
#[derive(Drop)]
pub(crate) struct Behind {
    octets: Vec<u8>,
    count: usize,
    ghost within: { count ≤ vec_len octets },
}

impl Behind {
    ghost use Rattle.stream_buffers.specs.Behind.{held, unwritten};

    /// No octets, with room for some; None where there is no memory for that.
    pub(crate) fn none(alloc: Global) -> Option<Behind>
        ensures { held result ≡ [] }
    {
        match vec![in alloc; 0; ROOM] {
            Ok(octets) => Some(Behind { octets, count: 0 }),
            Err(_) => None,
        }
    }

    /// Whether these octets fit behind those that wait.
    pub(crate) fn has_room(&self, buf: &[u8]) -> bool
        ensures { result ≡ nat_le (self.now.count + length buf.now) (vec_len self.now.octets) }
    {
        buf.len() <= self.octets.len() - self.count
    }

    /// Has these octets wait behind the others.
    pub(crate) fn keep(&mut self, buf: &[u8])
        requires { self.old.count + length buf.now ≤ vec_len self.old.octets }
        ensures { unwritten self.new ≡ unwritten self.old ++ buf.now }
    {
        let end = self.count + buf.len();
        self.octets[self.count..end].copy_from_slice(buf);
        self.count = end;
    }

    /// Has the first of these octets wait behind the others, as many as there is room for; none where no others wait. Answers how many
    /// that are.
    pub(crate) fn keep_front(&mut self, buf: &[u8]) -> usize
        requires { vec_len self.old.octets ≤ self.old.count + length buf.now }
        ensures count { result ≤ length buf.now }
        ensures octets { unwritten self.new ≡ unwritten self.old ++ take result buf.now }
    {
        if self.count == 0 {
            return 0;
        }
        let front = self.octets.len() - self.count;
        self.keep(&buf[..front]);
        front
    }

    /// Writes the octets that wait, after which none do.
    pub(crate) fn flush<L: Link>(&mut self, link: &mut L) -> Result<(), LinkFault>
        requires { L.closed link.old ≡ false }
        ensures none { unwritten self.new ≡ [] }
        ensures told { Sends (L.tells link.old) (L.wire link.old) (L.wire link.new) result
            (unwritten self.old) }
        ensures tells { L.tells link.new ≡ L.tells link.old }
        ensures unclosed { L.closed link.new ≡ false }
        ensures fault { OnErr result (Rose (L.faults link.old) (L.faults link.new)) }
        ensures steady { OnOk result (L.faults link.new ≡ L.faults link.old) }
        ensures faults { L.faults link.old ≤ L.faults link.new }
    {
        let count = self.count;
        self.count = 0;
        send(link, &self.octets[..count])
    }
}
