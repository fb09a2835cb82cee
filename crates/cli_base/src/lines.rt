//! The line of a status.

ghost use Rattle.std.specs.Prelude.{◌≡◌, ◌≢◌, ◌≤◌, ℕ, List, IsTrue, IfOk, string_bytes};
ghost use Rattle.sec_base.specs.Answers.{Rose};
ghost use Rattle.cli_base.specs.Lines.{SaysLine, Says};

use sec_base::Sink;
use std::alloc::AllocError;

/// The line of status 8.
pub const OUT_OF_MEMORY: &str = "out of memory\n";

/// Writes the line of a status, and answers that status, or 6 where it can't be written.
pub fn say<O: Sink>(sink: &mut O, status: u8, line: &str) -> u8
    requires { status ≢ 6 }
    ensures status { result ≢ 6 → result ≡ status }
    ensures fault { result ≡ 6 → Rose (O.faults sink.old) (O.faults sink.new) }
    ensures said { IsTrue (O.tells sink.old)
        → SaysLine (O.written sink.old) (O.written sink.new) result line.now }
    ensures tells { O.tells sink.new ≡ O.tells sink.old }
    ensures faults { O.faults sink.old ≤ O.faults sink.new }
{
    match sink.write(line.as_bytes()) {
        Ok(()) => status,
        Err(_) => 6,
    }
}

/// Writes the line of a status, where there was memory to make it, and answers that status; else says that there was none, and
/// answers 8. The answer is 6 where the line can't be written.
pub fn say_made<O: Sink>(sink: &mut O, status: u8, line: Result<String, AllocError>) -> u8
    requires no_fault { status ≢ 6 }
    requires memory { status ≢ 8 }
    ensures status { result ≢ 6 → result ≢ 8 → result ≡ status }
    ensures fault { result ≡ 6 → Rose (O.faults sink.old) (O.faults sink.new) }
    ensures said { IsTrue (O.tells sink.old)
        → (due : List ℕ) → IfOk line (λ made. string_bytes made ≡ due)
        → Says (O.written sink.old) (O.written sink.new) result due }
    ensures tells { O.tells sink.new ≡ O.tells sink.old }
    ensures faults { O.faults sink.old ≤ O.faults sink.new }
{
    match line {
        Ok(line) => say(sink, status, line.as_str()),
        Err(_) => say(sink, 8, OUT_OF_MEMORY),
    }
}
