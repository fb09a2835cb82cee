//! A sink in memory.

ghost use Rattle.std.specs.Prelude.{◌≡◌, ◌≤◌, [], IsTrue, IsErr, OnErr};
ghost use Rattle.sec_base.specs.Answers.{Rose};
ghost use Rattle.sec_base.specs.Sink.{Appends};

use crate::failing::Failing;
use crate::sink::{Sink, SinkFault};
use std::alloc::Global;

/// A sink that keeps what is written to it, and tells it.
#[derive(Drop)]
pub struct MemSink {
    written: Vec<u8>,
    failing: Failing,
}

impl MemSink {
    ghost use Rattle.sec_base.specs.Failures.{failures_from, sink_failures};

    /// An empty sink. The writes whose numbers, counted from 1, stand in `failing` fail, and so does one that finds no memory.
    pub fn new(alloc: Global, failing: Vec<u64>) -> MemSink
        ensures written { ⟦<MemSink as Sink>⟧.written result ≡ [] }
        ensures faults { ⟦<MemSink as Sink>⟧.faults result ≡ 0 }
        ensures tells { IsTrue (⟦<MemSink as Sink>⟧.tells result) }
        ensures failing { sink_failures result ≡ failures_from failing.items }
    {
        MemSink {
            written: Vec::new(alloc),
            failing: Failing::new(failing),
        }
    }

    /// What was written so far.
    pub fn written(&self) -> &[u8]
        ensures { result.now ≡ ⟦<MemSink as Sink>⟧.written self.now }
    {
        self.written.as_slice()
    }

    /// How many writes failed.
    pub fn faults(&self) -> u64
        ensures { result ≡ ⟦<MemSink as Sink>⟧.faults self.now }
    {
        self.failing.faults
    }
}

impl Sink for MemSink {
    ghost use Rattle.std.specs.Prelude.{true};
    ghost use Rattle.sec_base.specs.Failures.{sink_failures, fails_next, one_more};

    ghost faults = { λ s. s.failing.faults };

    ghost tells = { λ _. true };

    ghost written = { λ s. s.written.items };

    fn write(&mut self, bytes: &[u8]) -> Result<(), SinkFault>
        ensures told { IsTrue (⟦<MemSink as Sink>⟧.tells self.old)
            → Appends (⟦<MemSink as Sink>⟧.written self.old)
            (⟦<MemSink as Sink>⟧.written self.new) result bytes.now }
        ensures tells { ⟦<MemSink as Sink>⟧.tells self.new ≡ ⟦<MemSink as Sink>⟧.tells self.old }
        ensures fault { OnErr result
            (Rose (⟦<MemSink as Sink>⟧.faults self.old) (⟦<MemSink as Sink>⟧.faults self.new)) }
        ensures faults { ⟦<MemSink as Sink>⟧.faults self.old ≤ ⟦<MemSink as Sink>⟧.faults self.new }
        // a write fails where it is to, and else at want of memory alone
        ensures fails { IsTrue (fails_next (sink_failures self.old)) → IsErr result }
        ensures counted { sink_failures self.new ≡ one_more (sink_failures self.old) }
    {
        if self.failing.fails() {
            self.failing.fault();
            return Err(SinkFault);
        }
        match self.written.extend_from_slice(bytes) {
            Ok(()) => Ok(()),
            Err(_) => {
                self.failing.fault();
                Err(SinkFault)
            }
        }
    }
}
