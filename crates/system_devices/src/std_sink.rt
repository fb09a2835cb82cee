//! Standard output and standard error as sinks.

ghost use Rattle.std.specs.Prelude.{◌≡◌, ◌<◌, ◌≤◌, [], length, IfSome, IsTrue};

use crate::again::write_on;
use sec_base::{Sink, SinkFault, Trail};
use std::io::{Stderr, Stdout};

/// The two streams.
#[derive(Drop)]
enum Stream {
    Output(Stdout),
    Error(Stderr),
}

impl Stream {
    /// Writes the first octets of `bytes`; None at a failure, and where none was taken.
    fn take(&mut self, bytes: &[u8]) -> Option<usize>
        ensures { IfSome result (λ count. (0 < count) × (count ≤ length bytes.now)) }
    {
        let taken = match self {
            Stream::Output(stream) => write_on(stream, bytes),
            Stream::Error(stream) => write_on(stream, bytes),
        };
        match taken {
            Some(count) if count > 0 => Some(count),
            _ => None,
        }
    }
}

/// Standard output or standard error. A write that a signal, a stop or a tracer broke off is made again. What was written is what
/// the stream took.
#[derive(Drop)]
pub struct StdSink {
    stream: Stream,
    faults: u64,
    written: Trail,
}

impl StdSink {
    /// Standard output.
    pub fn output(stream: Stdout) -> StdSink
        ensures faults { ⟦<StdSink as Sink>⟧.faults result ≡ 0 }
        ensures written { ⟦<StdSink as Sink>⟧.written result ≡ [] }
        ensures tells { IsTrue (⟦<StdSink as Sink>⟧.tells result) }
    {
        StdSink {
            stream: Stream::Output(stream),
            faults: 0,
            written: Trail::new(),
        }
    }

    /// Standard error.
    pub fn error(stream: Stderr) -> StdSink
        ensures faults { ⟦<StdSink as Sink>⟧.faults result ≡ 0 }
        ensures written { ⟦<StdSink as Sink>⟧.written result ≡ [] }
        ensures tells { IsTrue (⟦<StdSink as Sink>⟧.tells result) }
    {
        StdSink {
            stream: Stream::Error(stream),
            faults: 0,
            written: Trail::new(),
        }
    }
}

impl Sink for StdSink {
    ghost use Rattle.std.specs.Prelude.{true};

    ghost faults = { λ s. s.faults };

    ghost tells = { λ _. true };

    ghost written = { λ s. s.written.octets };

    fn write(&mut self, bytes: &[u8]) -> Result<(), SinkFault> {
        let mut at = 0;
        while at < bytes.len() {
            match self.stream.take(&bytes[at..]) {
                Some(count) => {
                    self.written = self.written.then(&bytes[at..at + count]);
                    at += count;
                }
                None => {
                    self.faults = self.faults.saturating_add(1);
                    return Err(SinkFault);
                }
            }
        }
        Ok(())
    }
}
