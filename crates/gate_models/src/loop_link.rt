//! A link on which a client meets the rules of a record in one thread.

ghost use Rattle.std.specs.Prelude.{◌≡◌, ◌≤◌, ◌+◌, nat_lt, [], false, IfOk, length, take, drop};
ghost use Rattle.std.specs.Prelude.{vec_len};
ghost use Rattle.gss_server.specs.Hearing.{serving};
ghost use Rattle.gate_models.specs.Looping.{Looped, Loops, Since, GaveTo};

use crate::beginning::Beginning;
use crate::looping::Looping;
use gss_server::{Gate, Kept};
use krb_tokens::KeyCache;
use sec_base::{Draw, Link, LinkFault, Moment, NoMemory};
use std::alloc::Global;
use std::marker::PhantomData;

/// A link that answers, by the rules of a record and over a gate, what is written to it: the replies to its whole records are its octets to
/// come. A record may be written in pieces and in fragments. Behind octets that begin no record, as too long ones, nothing is answered any more.
///
/// It tells its octets. A write that finds no memory, or has a call of which it isn't known what became, is its only fault; from then on each
/// write is one, and reads give what was replied.
///
/// `J` names the gate's state at the beginning, the width of the windows, the moment of all answers, and what the draw gave before. So what the
/// gate was asked, and which octets were drawn for each answer, is known of the link's type, whatever was done with the link.
#[derive(Drop)]
pub struct LoopLink<G: Gate, Q: Draw, J: Beginning<G>> {
    alloc: Global,
    inner: Looping<G, Q>,
    at: usize,
    faults: u64,
    closed: bool,
    of: PhantomData<J>,
    ghost wide: { inner.width ≡ J.width },
    ghost stopped: { inner.now ≡ J.moment },
    ghost within: { at ≤ vec_len inner.said },
    ghost looped: { ∥ Looped (λ asked. Since J.begins G.answers inner.gate asked)
        (serving G.program inner.width) inner.now inner.heard.items inner.said.items
        inner.kept.items inner.cut
        (nat_lt 0 faults) ∥₁ },
    ghost drawn: { GaveTo (Q.tells inner.draws) (Q.given inner.draws) J.given inner.kept.items },
}

impl<G: Gate, Q: Draw, J: Beginning<G>> LoopLink<G, Q, J> {
    ghost use Rattle.gate_models.specs.LoopLink.{loop_gate, loop_draws, loop_kept};

    /// A link that answers over this gate, each record at this moment and with the draw's next 82 octets; `width` is that of the windows.
    pub fn new(
        alloc: Global,
        gate: G,
        now: Moment,
        draws: Q,
        width: u32,
    ) -> Result<LoopLink<G, Q, J>, NoMemory>
        requires begins { J.begins gate }
        requires width { width ≡ J.width }
        requires moment { now ≡ J.moment }
        requires given { Q.given draws ≡ J.given }
        ensures wire { IfOk result (λ link. ⟦<LoopLink<G, Q, J> as Link>⟧.wire link
            ≡ record { taken = []; coming = []; written = [] }) }
        ensures closed { IfOk result (λ link. ⟦<LoopLink<G, Q, J> as Link>⟧.closed link ≡ false) }
        ensures faults { IfOk result (λ link. ⟦<LoopLink<G, Q, J> as Link>⟧.faults link ≡ 0) }
        ensures gate { IfOk result (λ link. loop_gate link ≡ gate) }
        ensures draws { IfOk result (λ link. loop_draws link ≡ draws) }
        ensures kept { IfOk result (λ link. loop_kept link ≡ []) }
    {
        let inner = Looping {
            gate,
            now,
            draws,
            width,
            heard: Vec::new(alloc),
            cut: 0,
            said: Vec::new(alloc),
            kept: Vec::new(alloc),
            keys: KeyCache::empty(),
        };
        Ok(LoopLink {
            alloc,
            inner,
            at: 0,
            faults: 0,
            closed: false,
            of: PhantomData,
        })
    }

    /// Whether a write was a fault.
    pub fn starved(&self) -> bool
        ensures { result ≡ nat_lt 0 (⟦<LoopLink<G, Q, J> as Link>⟧.faults self.now) }
    {
        self.faults > 0
    }

    /// The width of the windows.
    pub fn width(&self) -> u32
        ensures { result ≡ J.width }
    {
        self.inner.width
    }

    /// What was kept of the answers so far.
    pub fn kept(&self) -> &[Kept]
        ensures kept { result.now ≡ loop_kept self.now }
        ensures looped { ∥ Loops (λ asked. Since J.begins G.answers (loop_gate self.now) asked)
            (serving G.program J.width) J.moment (⟦<LoopLink<G, Q, J> as Link>⟧.wire self.now)
            result.now
            (nat_lt 0 (⟦<LoopLink<G, Q, J> as Link>⟧.faults self.now)) ∥₁ }
        ensures drawn { GaveTo (Q.tells (loop_draws self.now)) (Q.given (loop_draws self.now))
            J.given result.now }
    {
        self.inner.kept.as_slice()
    }

    /// The gate, the draw, and what was kept of the answers.
    pub fn into_parts(self) -> (G, Q, Vec<Kept>)
        ensures gate { result.0 ≡ loop_gate self }
        ensures draws { result.1 ≡ loop_draws self }
        ensures kept { result.2.items ≡ loop_kept self }
        // The gate began as `J` says, and was asked what the records ask, in order, each answer one that it may give after those before.
        ensures looped { ∥ Loops (λ asked. Since J.begins G.answers result.0 asked)
            (serving G.program J.width) J.moment
            (⟦<LoopLink<G, Q, J> as Link>⟧.wire self) result.2.items
            (nat_lt 0 (⟦<LoopLink<G, Q, J> as Link>⟧.faults self)) ∥₁ }
        // Behind what it gave before, the draw gave the octets of these answers, in their order, and no other.
        ensures drawn { GaveTo (Q.tells result.1) (Q.given result.1) J.given result.2.items }
    {
        let LoopLink { inner, .. } = self;
        let Looping {
            gate,
            draws,
            kept,
            ..
        } = inner;
        (gate, draws, kept)
    }
}

impl<G: Gate, Q: Draw, J: Beginning<G>> Link for LoopLink<G, Q, J> {
    ghost use Rattle.std.specs.Prelude.{true, take, drop};

    ghost faults = { λ l. l.faults };

    ghost tells = { λ _. true };

    ghost wire = { λ l. record {
      taken = take l.at l.inner.said.items;
      coming =
          drop l.at l.inner.said.items;
      written = l.inner.heard.items;
    } };

    ghost closed = { λ l. l.closed };

    ghost closes = { λ old new. new.faults ≡ old.faults };

    fn read(&mut self, buf: &mut [u8]) -> Result<usize, LinkFault> {
        let count = buf.len().min(self.inner.said.len() - self.at);
        copy_out(&self.inner.said, self.at, count, buf);
        self.at += count;
        Ok(count)
    }

    fn write(&mut self, buf: &[u8]) -> Result<usize, LinkFault> {
        if self.faults > 0 {
            self.faults = self.faults.saturating_add(1);
            return Err(LinkFault);
        }
        if self.inner.take(self.alloc, buf) {
            return Ok(buf.len());
        }
        self.faults = 1;
        Err(LinkFault)
    }

    fn close(&mut self) {
        self.closed = true;
    }
}

/// Copies the `count` octets from `at` on to the front of `buf`.
fn copy_out(said: &[u8], at: usize, count: usize, buf: &mut [u8])
    requires said { at + count ≤ length said.now }
    requires room { count ≤ length buf.old }
    ensures { take count buf.new ≡ take count (drop at said.now) }
{
    buf[..count].copy_from_slice(&said[at..at + count]);
}
