//! How a run over datagrams ends, and the line that says so.

ghost use Rattle.std.specs.Prelude.{◌≡◌, ◌≢◌, IsTrue};
ghost use Rattle.sec_base.specs.Answers.{Rose};
ghost use Rattle.cli_base.specs.Lines.{SaysLine, Says};
ghost use Rattle.datagram_options.specs.Endings.{usage_line, call_status, call_line};
ghost use Rattle.datagram_options.specs.Endings.{serve_status, serve_line};

use cli_base::say;
use sec_base::Sink;
use std::alloc::Global;

/// The line of words that aren't in a command.
pub const USAGE: &str = "usage: gssrpcdu serve|call ADDRESS [COMMAND] [ARG] [options]\n";

/// The line of a post that failed.
const LINK_FAULT: &str = "link fault\n";

/// How a run of `serve` ended, before its line was written.
#[derive(Clone, Copy, Debug)]
pub enum ServeEnd {
    /// The post failed, and its count of faults rose.
    PostFault,
    /// As a run over connections: by its files, by want of memory, or all was served.
    As(server_options::RunEnd),
}

/// How a run of `call` ended, before its line was written.
#[derive(Clone, Copy)]
pub enum CallEnd {
    /// The post failed, and its count of faults rose.
    PostFault,
    /// Nothing came within the wait, so often as a call was to be sent.
    NoReply,
    /// So many datagrams were passed over that no more are heard.
    Flood,
    /// As a run over a connection.
    As(client_options::RunEnd),
}

/// Says that words aren't in a command. Answers the run's status.
pub fn say_usage<O: Sink>(err: &mut O) -> u8
    ensures status { result ≢ 6 → result ≡ 2 }
    ensures fault { result ≡ 6 → Rose (O.faults err.old) (O.faults err.new) }
    ensures said { IsTrue (O.tells err.old)
        → SaysLine (O.written err.old) (O.written err.new) result usage_line }
{
    say(err, 2, USAGE)
}

/// Writes the line of an end of `serve`, and answers its status; 8 also where there was no memory for the line, and 6 where it can't be written.
pub fn say_serve<O: Sink>(
    alloc: Global,
    err: &mut O,
    names: &server_options::Names<'_>,
    counts: &server_options::Counts,
    end: ServeEnd,
) -> u8
    ensures status { result ≢ 6 → result ≢ 8 → result ≡ serve_status end }
    ensures fault { result ≡ 6 → Rose (O.faults err.old) (O.faults err.new) }
    ensures said { IsTrue (O.tells err.old) → Says (O.written err.old) (O.written err.new) result
        (serve_line names.now counts.now end) }
{
    match end {
        ServeEnd::PostFault => say(err, 5, LINK_FAULT),
        ServeEnd::As(end) => server_options::say_end(alloc, err, names, counts, end),
    }
}

/// Writes the line of an end of `call`, and answers its status; 8 also where there was no memory for the line, and 6 where it can't be written.
pub fn say_call<O: Sink>(
    alloc: Global,
    err: &mut O,
    names: &client_options::Names<'_>,
    end: CallEnd,
) -> u8
    ensures status { result ≢ 6 → result ≢ 8 → result ≡ call_status end }
    ensures fault { result ≡ 6 → Rose (O.faults err.old) (O.faults err.new) }
    ensures said { IsTrue (O.tells err.old) → Says (O.written err.old) (O.written err.new) result
        (call_line names.now end) }
{
    match end {
        CallEnd::PostFault => say(err, 5, LINK_FAULT),
        CallEnd::NoReply => say(err, 14, "no reply\n"),
        CallEnd::Flood => say(err, 14, "flood\n"),
        CallEnd::As(end) => client_options::say_end(alloc, err, names, end),
    }
}
