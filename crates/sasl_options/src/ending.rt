//! How a run ends, and the line that says so.

ghost use Rattle.std.specs.Prelude.{◌≡◌, ◌≢◌, [], IsTrue};
ghost use Rattle.sec_base.specs.Answers.{Rose};
ghost use Rattle.cli_base.specs.Lines.{Says};
ghost use Rattle.sasl_options.specs.Endings.{end_of_words, status_of, line_of};

use cli_base::{FileStop, OUT_OF_MEMORY, WordsRefusal, say, say_made, say_stop};
use sasl_layer::SaslRefusal;
use sec_base::Sink;
use std::alloc::Global;
use std::marker::Model;

/// The line of status 2.
const USAGE: &str = "usage: gsssasl serve|ask ADDRESS [HEX] [options]\n";

/// How a run ended, before its line was written.
#[derive(Clone, Copy)]
pub enum RunEnd {
    /// The words aren't in the command.
    Usage,
    /// The file can't be loaded, and the shelf's count of faults rose.
    CannotLoad,
    /// The file has too many octets, or isn't of its format from this place on.
    Bad { at: usize },
    /// The keytab has no key for the own name.
    NoKey,
    /// The credential cache has no credential for the server.
    NoCredential,
    /// There was no memory.
    NoMemory,
    /// The link failed, and its count of faults rose.
    LinkFault,
    /// The stream ended where a message was due.
    PeerEnded,
    /// The end or its layer refused.
    Refused(SaslRefusal),
    /// The echo was read, or all that came was echoed.
    Finished,
}

/// What the words of a run name, as its line says it: the file, and the principal's text form. Both are empty where the words aren't in the command.
#[derive(Drop)]
pub struct Names<'a> {
    pub file: &'a str,
    pub principal: &'a str,
}

impl<'a> Model for Names<'a> {
    ghost use Rattle.sasl_options.specs.Endings.{Named};

    ghost Value = { Named };

    ghost view = { λ n. record { file = n.file.now; principal = n.principal.now } };
}

/// How the run ends whose words were refused.
pub fn end_of_words(refusal: WordsRefusal) -> RunEnd
    ensures { result ≡ end_of_words refusal }
{
    match refusal {
        WordsRefusal::Usage => RunEnd::Usage,
        WordsRefusal::NoMemory => RunEnd::NoMemory,
    }
}

/// Writes the line of an end, and answers its status; 8 also where there was no memory for the line, and 6 where it can't be written.
pub fn say_end<O: Sink>(alloc: Global, err: &mut O, names: &Names<'_>, end: RunEnd) -> u8
    ensures status { result ≢ 6 → result ≢ 8 → result ≡ status_of end }
    ensures fault { result ≡ 6 → Rose (O.faults err.old) (O.faults err.new) }
    ensures said { IsTrue (O.tells err.old)
        → Says (O.written err.old) (O.written err.new) result (line_of names.now end) }
{
    let principal = names.principal;
    match end {
        RunEnd::Usage => say(err, 2, USAGE),
        RunEnd::CannotLoad => say_stop(alloc, err, names.file, FileStop::CannotLoad),
        RunEnd::Bad { at } => say_stop(alloc, err, names.file, FileStop::Bad { at }),
        RunEnd::NoKey => say_made(err, 4, format!(in alloc; "no key for {principal}\n")),
        RunEnd::NoCredential => {
            say_made(err, 4, format!(in alloc; "no credential for {principal}\n"))
        }
        RunEnd::NoMemory => say(err, 8, OUT_OF_MEMORY),
        RunEnd::LinkFault => say(err, 5, "link fault\n"),
        RunEnd::PeerEnded => say(err, 9, "peer ended\n"),
        RunEnd::Refused(refusal) => say_refused(alloc, err, refusal),
        RunEnd::Finished => 0,
    }
}

/// Says what an end or its layer refused.
fn say_refused<O: Sink>(alloc: Global, err: &mut O, refusal: SaslRefusal) -> u8
    ensures status { result ≢ 6 → result ≢ 8 → result ≡ 11 }
    ensures fault { result ≡ 6 → Rose (O.faults err.old) (O.faults err.new) }
    ensures said { IsTrue (O.tells err.old) → Says (O.written err.old) (O.written err.new) result
        (line_of (record { file = []; principal = [] }) (RunEnd.Refused refusal)) }
{
    let number = refusal.number();
    say_made(err, 11, format!(in alloc; "sasl: {number}\n"))
}
