//! The run of a server or of a client over datagrams, by its words.

ghost use Rattle.std.specs.Prelude.{◌≡◌, ◌≢◌, ◌≤◌, ◌⊎◌, IsTrue, map};
ghost use Rattle.sec_base.specs.Answers.{Rose};
ghost use Rattle.cli_base.specs.Lines.{SaysLine, Says};
ghost use Rattle.datagram_command.specs.Command.{status_in, status_due, line_due, printed};
ghost use Rattle.datagram_command.specs.Command.{RunsBy, IsFault, IsAnswered};
ghost use Rattle.datagram_options.specs.Words.{asked_of};
ghost use Rattle.datagram_serving.specs.Serving.{below_of};
ghost use Rattle.init_ends.specs.Arming.{AreStandard};

use cli_base::{OUT_OF_MEMORY, WordsRefusal, say};
use datagram_calls::{CallRun, run_call};
use datagram_options::{Asked, read_asked, say_usage};
use datagram_post::Post;
use datagram_serving::{ServeRun, run_serve};
use gss_server::{Gate, OwnGate};
use mech_objects::Mech;
use rpc_program::{Program, Speller};
use sec_base::{Clock, Draw, Moment, Shelf, Sink, Text};
use std::alloc::Global;

/// What a run over datagrams came to, by its words.
#[derive(Drop)]
pub enum DatagramEnd<V> {
    /// They ask for a server.
    Served(ServeRun<V>),
    /// They ask for a client.
    Called(CallRun),
    /// They aren't in a command, and this is the status: 2, or 6 where the sink failed.
    Usage(u8),
    /// There was no memory to read them, and this is the status: 8, or 6 where the sink failed.
    NoMemory(u8),
}

impl<V> DatagramEnd<V> {
    /// The exit status.
    pub fn status(&self) -> u8
        ensures { result ≡ status_in self.now }
    {
        match self {
            DatagramEnd::Served(run) => run.status,
            DatagramEnd::Called(run) => run.status,
            DatagramEnd::Usage(status) => *status,
            DatagramEnd::NoMemory(status) => *status,
        }
    }
}

/// Runs a server or a client over datagrams, and says on `err` how the run ended. The words are `serve ADDRESS` with the options of the
/// server over connections, but with `--datagrams N` for `--connections` and without `--desks`, `--idle`, `--journal` and `--control`; or
/// `call ADDRESS COMMAND [ARG]` with the options of the client over a connection and `--tries N`. `mechs` is as `run_call` wants it, and a
/// server drops it. A server serves `program`, whose results `speller` spells, keeps `kept` octets of a result at most, and gives the program
/// back; a client drops both.
pub fn run_datagrams<
    F: Shelf,
    P: Post,
    C: Clock,
    D: Draw,
    O: Sink,
    V: Program + Drop,
    S: Speller<V::Ticket> + Drop,
>(
    alloc: Global,
    words: &[Text],
    shelf: &mut F,
    post: &mut P,
    clock: &mut C,
    draw: &mut D,
    program: V,
    speller: S,
    kept: u32,
    start: Moment,
    mechs: Vec<Box<dyn Mech>>,
    out: &mut O,
    err: &mut O,
) -> DatagramEnd<V>
    requires mechs { AreStandard (map meaning mechs.items) }
    // The speller says of the program what it says of itself.
    requires says { S.says ≡ V.says }
    // The status and the line on `err`: those of the end, unless there was no memory for the line, or a sink failed.
    ensures status { status_in result ≢ 6 → status_in result ≢ 8
        → status_in result ≡ status_due result }
    ensures sink_fault { status_in result ≡ 6
        → Rose (O.faults out.old) (O.faults out.new) ⊎ Rose (O.faults err.old) (O.faults err.new) }
    ensures said { IsTrue (O.tells err.old) → Says (O.written err.old) (O.written err.new)
        (status_in result) (line_due (asked_of words.now) result) }
    // What is printed on `out`: of a client, the lines of its outcome and its results.
    ensures printed { IsTrue (O.tells out.old) → SaysLine (O.written out.old) (O.written out.new)
        (status_in result) (printed (asked_of words.now) result) }
    // By the words a server or a client is run, or neither.
    ensures runs { RunsBy F.Shelf P.Post C.Clock D.Draw
        (below_of ⟦<OwnGate<V, S> as Gate>⟧ (λ g. g.seat)
        (λ g. g.program) program (λ g. g.speller ≡ speller)) kept (asked_of words.now)
        start (record { shelf = shelf.old; post = post.old; clock = clock.old; draw = draw.old })
        (record { shelf = shelf.new; post = post.new; clock = clock.new; draw = draw.new }) result }
    ensures answered { IsAnswered (asked_of words.now) result }
    ensures fault { IsFault result → Rose (P.faults post.old) (P.faults post.new) }
    ensures tells { P.tells post.new ≡ P.tells post.old }
    ensures faults { P.faults post.old ≤ P.faults post.new }
{
    match read_asked(alloc, words) {
        Ok(Asked::Serve(options)) => {
            drop(mechs);
            DatagramEnd::Served(run_serve(
                alloc, options, shelf, post, clock, draw, program, speller, kept, start, err,
            ))
        }
        Ok(Asked::Call { words, tries }) => {
            drop(program);
            drop(speller);
            DatagramEnd::Called(run_call(
                alloc, words, tries, shelf, post, clock, draw, mechs, out, err,
            ))
        }
        Err(WordsRefusal::Usage) => {
            drop(mechs);
            drop(program);
            drop(speller);
            DatagramEnd::Usage(say_usage(err))
        }
        Err(WordsRefusal::NoMemory) => {
            drop(mechs);
            drop(program);
            drop(speller);
            DatagramEnd::NoMemory(say(err, 8, OUT_OF_MEMORY))
        }
    }
}
