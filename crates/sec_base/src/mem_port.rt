//! A port in memory.

ghost use Rattle.std.specs.Prelude.{◌≡◌, ◌≤◌, ◌↔◌, true, vec_len, List, IsTrue, IsErr, IfOk};
ghost use Rattle.std.specs.Prelude.{IfSome, OnErr, OnOk, false};
ghost use Rattle.sec_base.specs.Answers.{Rose};
ghost use Rattle.sec_base.specs.Port.{Accepts};
ghost use Rattle.sec_base.specs.MemPort.{none_closed};

use crate::failing::Failing;
use crate::link::Link;
use crate::port::{Port, PortFault};

/// A port that gives stated links, in order. It tells them.
#[derive(Drop)]
pub struct MemPort<L: Link> {
    waiting: Vec<L>,
    failing: Failing,
    ghost unclosed: { none_closed L.closed waiting.items ≡ true },
}

impl<L: Link> MemPort<L> {
    ghost use Rattle.sec_base.specs.Failures.{failures_from, port_failures};

    /// A port that gives these links, none of which is closed. The calls whose numbers, counted from 1, stand in `failing` fail.
    pub fn new(links: Vec<L>, failing: Vec<u64>) -> MemPort<L>
        requires { none_closed L.closed links.items ≡ true }
        ensures links { ⟦<MemPort<L> as Port>⟧.links result ≡ links.items }
        ensures faults { ⟦<MemPort<L> as Port>⟧.faults result ≡ 0 }
        ensures tells { IsTrue (⟦<MemPort<L> as Port>⟧.tells result) }
        ensures failing { port_failures result ≡ failures_from failing.items }
    {
        MemPort {
            waiting: links,
            failing: Failing::new(failing),
        }
    }

    /// How many calls failed.
    pub fn faults(&self) -> u64
        ensures { result ≡ ⟦<MemPort<L> as Port>⟧.faults self.now }
    {
        self.failing.faults
    }
}

impl<L: Link> Port for MemPort<L> {
    ghost use Rattle.std.specs.Prelude.{true};
    ghost use Rattle.sec_base.specs.Failures.{port_failures, fails_next, one_more};

    type Link = L;

    ghost faults = { λ p. p.failing.faults };

    ghost tells = { λ _. true };

    ghost links = { λ p. p.waiting.items };

    fn accept(&mut self) -> Result<Option<L>, PortFault>
        ensures told { IsTrue (⟦<MemPort<L> as Port>⟧.tells self.old)
            → Accepts (⟦<MemPort<L> as Port>⟧.links self.old)
            (⟦<MemPort<L> as Port>⟧.links self.new) result }
        ensures tells { ⟦<MemPort<L> as Port>⟧.tells self.new
            ≡ ⟦<MemPort<L> as Port>⟧.tells self.old }
        ensures unclosed { IfOk result
            (λ next. IfSome next (λ link. L.closed link ≡ false)) }
        ensures fault { OnErr result
            (Rose (⟦<MemPort<L> as Port>⟧.faults self.old)
            (⟦<MemPort<L> as Port>⟧.faults self.new)) }
        ensures steady { OnOk result
            (⟦<MemPort<L> as Port>⟧.faults self.new ≡ ⟦<MemPort<L> as Port>⟧.faults self.old) }
        ensures faults { ⟦<MemPort<L> as Port>⟧.faults self.old
            ≤ ⟦<MemPort<L> as Port>⟧.faults self.new }
        // a call fails exactly where it is to
        ensures fails { IsErr result ↔ IsTrue (fails_next (port_failures self.old)) }
        ensures counted { port_failures self.new ≡ one_more (port_failures self.old) }
    {
        if self.failing.fails() {
            self.failing.fault();
            return Err(PortFault);
        }
        if self.waiting.is_empty() {
            return Ok(None);
        }
        Ok(Some(self.waiting.remove(0)))
    }
}
