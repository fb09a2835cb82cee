//! A link in memory.

ghost use Rattle.std.specs.Prelude.{◌≡◌, ℕ, ◌+◌, ◌≤◌, ◌<◌, [], false, length, take, drop, vec_len};
ghost use Rattle.std.specs.Prelude.{◌↔◌, IsTrue, IsErr, IfOk, OnOk, OnErr, min};
ghost use Rattle.sec_base.specs.Answers.{Rose};
ghost use Rattle.sec_base.specs.Link.{Reads, Writes};
ghost use Rattle.sec_base.specs.Pieces.{piece_of};

use crate::failing::Failing;
use crate::link::{Link, LinkFault};
use std::alloc::Global;

/// A link whose input is a stated list of octets, and which keeps what is written to it. It tells its octets.
#[derive(Drop)]
pub struct MemLink {
    input: Vec<u8>,
    at: usize,
    written: Vec<u8>,
    pieces: Vec<usize>,
    reads: usize,
    failing: Failing,
    closed: bool,
    ghost within: { at ≤ vec_len input },
}

impl MemLink {
    ghost use Rattle.std.specs.Prelude.{◌≡◌, [], false};
    ghost use Rattle.sec_base.specs.Failures.{failures_from, link_failures};
    ghost use Rattle.sec_base.specs.MemLink.{coming_pieces};

    /// A link over this input. Its reads give pieces of the sizes in `pieces`, one octet at least, in this order, and then as
    /// much as fits. The calls of `read` and `write` whose numbers, counted from 1, stand in `failing` fail, and so does a write
    /// that finds no memory.
    pub fn new(alloc: Global, input: Vec<u8>, pieces: Vec<usize>, failing: Vec<u64>) -> MemLink
        ensures wire { ⟦<MemLink as Link>⟧.wire result
            ≡ record { taken = []; coming = input.items; written = [] } }
        ensures closed { ⟦<MemLink as Link>⟧.closed result ≡ false }
        ensures faults { ⟦<MemLink as Link>⟧.faults result ≡ 0 }
        ensures tells { IsTrue (⟦<MemLink as Link>⟧.tells result) }
        ensures pieces { coming_pieces result ≡ pieces.items }
        ensures failing { link_failures result ≡ failures_from failing.items }
    {
        MemLink {
            input,
            at: 0,
            written: Vec::new(alloc),
            pieces,
            reads: 0,
            failing: Failing::new(failing),
            closed: false,
        }
    }

    /// What was written so far.
    pub fn written(&self) -> &[u8]
        ensures { result.now ≡ (⟦<MemLink as Link>⟧.wire self.now).written }
    {
        self.written.as_slice()
    }

    /// The octets that reads took so far.
    pub fn taken(&self) -> &[u8]
        ensures { result.now ≡ (⟦<MemLink as Link>⟧.wire self.now).taken }
    {
        &self.input[..self.at]
    }

    /// How many calls failed.
    pub fn faults(&self) -> u64
        ensures { result ≡ ⟦<MemLink as Link>⟧.faults self.now }
    {
        self.failing.faults
    }

    /// Whether it was closed.
    pub fn is_closed(&self) -> bool
        ensures { result ≡ ⟦<MemLink as Link>⟧.closed self.now }
    {
        self.closed
    }
}

/// How many octets the read of this number gives, of those that there are and fit.
fn piece(pieces: &[usize], number: usize, most: usize) -> usize
    ensures piece { result ≡ piece_of (drop number pieces.now) most }
    ensures most { result ≤ most }
    ensures some { 0 < most → 0 < result }
{
    match pieces.get(number) {
        Some(size) => (*size).max(1).min(most),
        None => most,
    }
}

/// The number of the read after this one, which stays where there is no further piece.
fn number_after(pieces: &[usize], number: usize) -> usize
    ensures { drop result pieces.now ≡ drop 1 (drop number pieces.now) }
{
    if number < pieces.len() {
        number + 1
    } else {
        number
    }
}

/// Copies the `count` octets from `at` on to the front of `buf`.
fn copy_out(input: &[u8], at: usize, count: usize, buf: &mut [u8])
    requires input { at + count ≤ length input.now }
    requires room { count ≤ length buf.old }
    ensures { take count buf.new ≡ take count (drop at input.now) }
{
    buf[..count].copy_from_slice(&input[at..at + count]);
}

impl Link for MemLink {
    ghost use Rattle.std.specs.Prelude.{true, take, drop};
    ghost use Rattle.sec_base.specs.Failures.{link_failures, fails_next, one_more};
    ghost use Rattle.sec_base.specs.MemLink.{coming_pieces};

    ghost faults = { λ l. l.failing.faults };

    ghost tells = { λ _. true };

    ghost wire = { λ l. record {
      taken = take l.at l.input.items;
      coming =
          drop l.at l.input.items;
      written = l.written.items;
    } };

    ghost closed = { λ l. l.closed };

    ghost closes = { λ old new. new.failing.faults ≡ old.failing.faults };

    fn read(&mut self, buf: &mut [u8]) -> Result<usize, LinkFault>
        requires { ⟦<MemLink as Link>⟧.closed self.old ≡ false }
        ensures count { IfOk result (λ count. count ≤ length buf.old) }
        ensures told { Reads (⟦<MemLink as Link>⟧.tells self.old)
            (⟦<MemLink as Link>⟧.wire self.old) (⟦<MemLink as Link>⟧.wire self.new) result buf.new }
        ensures tells { ⟦<MemLink as Link>⟧.tells self.new ≡ ⟦<MemLink as Link>⟧.tells self.old }
        ensures unclosed { ⟦<MemLink as Link>⟧.closed self.new ≡ false }
        ensures fault { OnErr result
            (Rose (⟦<MemLink as Link>⟧.faults self.old) (⟦<MemLink as Link>⟧.faults self.new)) }
        ensures steady { OnOk result
            (⟦<MemLink as Link>⟧.faults self.new ≡ ⟦<MemLink as Link>⟧.faults self.old) }
        ensures faults { ⟦<MemLink as Link>⟧.faults self.old ≤ ⟦<MemLink as Link>⟧.faults self.new }
        // a read fails exactly where it is to, and else gives the next piece
        ensures fails { IsErr result ↔ IsTrue (fails_next (link_failures self.old)) }
        ensures counted { link_failures self.new ≡ one_more (link_failures self.old) }
        ensures piece { IfOk result (λ count. count ≡ piece_of (coming_pieces self.old)
            (min (length buf.old) (length (⟦<MemLink as Link>⟧.wire self.old).coming))) }
        ensures pieces { OnOk result (coming_pieces self.new ≡ drop 1 (coming_pieces self.old)) }
        ensures stays { OnErr result (coming_pieces self.new ≡ coming_pieces self.old) }
    {
        if self.failing.fails() {
            self.failing.fault();
            return Err(LinkFault);
        }
        let most = buf.len().min(self.input.len() - self.at);
        let count = piece(&self.pieces, self.reads, most);
        self.reads = number_after(&self.pieces, self.reads);
        copy_out(&self.input, self.at, count, buf);
        self.at += count;
        Ok(count)
    }

    fn write(&mut self, buf: &[u8]) -> Result<usize, LinkFault>
        requires { ⟦<MemLink as Link>⟧.closed self.old ≡ false }
        ensures count { IfOk result (λ count. count ≤ length buf.now) }
        ensures some { IfOk result (λ count. 0 < length buf.now → 0 < count) }
        ensures told { Writes (⟦<MemLink as Link>⟧.tells self.old)
            (⟦<MemLink as Link>⟧.wire self.old) (⟦<MemLink as Link>⟧.wire self.new) result buf.now }
        ensures tells { ⟦<MemLink as Link>⟧.tells self.new ≡ ⟦<MemLink as Link>⟧.tells self.old }
        ensures unclosed { ⟦<MemLink as Link>⟧.closed self.new ≡ false }
        ensures fault { OnErr result
            (Rose (⟦<MemLink as Link>⟧.faults self.old) (⟦<MemLink as Link>⟧.faults self.new)) }
        ensures steady { OnOk result
            (⟦<MemLink as Link>⟧.faults self.new ≡ ⟦<MemLink as Link>⟧.faults self.old) }
        ensures faults { ⟦<MemLink as Link>⟧.faults self.old ≤ ⟦<MemLink as Link>⟧.faults self.new }
        // a write fails where it is to, and else at want of memory alone
        ensures fails { IsTrue (fails_next (link_failures self.old)) → IsErr result }
        ensures counted { link_failures self.new ≡ one_more (link_failures self.old) }
        ensures pieces { coming_pieces self.new ≡ coming_pieces self.old }
    {
        if self.failing.fails() {
            self.failing.fault();
            return Err(LinkFault);
        }
        match self.written.extend_from_slice(buf) {
            Ok(()) => Ok(buf.len()),
            Err(_) => {
                self.failing.fault();
                Err(LinkFault)
            }
        }
    }

    fn close(&mut self)
        ensures told { ⟦<MemLink as Link>⟧.wire self.new ≡ ⟦<MemLink as Link>⟧.wire self.old }
        ensures tells { ⟦<MemLink as Link>⟧.tells self.new ≡ ⟦<MemLink as Link>⟧.tells self.old }
        ensures closed { ⟦<MemLink as Link>⟧.closed self.new ≡ true }
        ensures closes { ⟦<MemLink as Link>⟧.closes self.old self.new }
        ensures faults { ⟦<MemLink as Link>⟧.faults self.old ≤ ⟦<MemLink as Link>⟧.faults self.new }
        ensures failing { link_failures self.new ≡ link_failures self.old }
        ensures pieces { coming_pieces self.new ≡ coming_pieces self.old }
    {
        self.closed = true;
    }
}
