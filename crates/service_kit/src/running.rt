//! A run of a program that is served, over devices that are handed in.

ghost use Rattle.std.specs.Prelude.{◌≡◌, ◌≢◌, ℕ, List, Bool, true, IsTrue, None, is_some};
ghost use Rattle.std.specs.List.{AllByRecursion};
ghost use Rattle.server_command.specs.Runs.{names_journal};
ghost use Rattle.server_desks.specs.Desks.{IsFresh};
ghost use Rattle.server_options.specs.Options.{options_of};
ghost use Rattle.service_kit.specs.Acted.{Acted, entries_of};
ghost use Rattle.service_kit.specs.Ended.{EndsAs, status_at};

use accept_book::Log;
use gss_server::{Keeper, Kept, Served};
use replay_journal::Disk;
use rpc_program::{Program, Speller};
use sec_base::{Clock, Draw, Moment, Port, Shelf, Sink, Text};
use server_command::run_server;
use server_desks::Desk;
use server_options::RunEnd;
use std::alloc::Global;
use std::sync::Wait;
use std::thread::Threads;

/// The status where the system gives no random octets.
const NOT_STARTED: u8 = 1;

/// The status at want of memory.
const OUT_OF_MEMORY: u8 = 8;

/// How a run ended, or what wasn't to be had for one.
#[derive(Clone, Copy, Debug, PartialEq, Eq)]
pub enum Ending {
    /// It was made, and ended so.
    Ended { end: RunEnd },
    /// None began: the system gave no random octets.
    NoDraws,
    /// None began: nobody can listen at the control address that the words name.
    NoControl,
    /// None began: there was no memory for its devices.
    NoMemory,
}

/// A run that is over.
#[derive(Drop)]
pub struct Ran<V> {
    /// The exit status: that of the ending. It is 6 where its line couldn't be written, and 8 where there was no memory for the line.
    pub status: u8,
    /// How it ended.
    pub ending: Ending,
    /// The program as it stands then.
    pub program: V,
    /// The log, None where no run began.
    pub log: Option<Log>,
}

/// What wasn't to be had for the devices of a run.
#[derive(Clone, Copy)]
pub(crate) enum Lack {
    Draws,
    Memory,
}

/// No run began, for want of this, and the program is as it was handed in.
pub(crate) fn not_begun<V: Program<Ticket = T> + Drop, T>(lack: Lack, program: V) -> Ran<V>
    ensures acted { Acted V.Program program result.program (entries_of result.log) }
    ensures ended { (words : List (List ℕ)) → EndsAs words result.ending result.log }
    ensures status { result.status ≡ status_at result.ending }
{
    match lack {
        Lack::Draws => unbegun(Ending::NoDraws, NOT_STARTED, program),
        Lack::Memory => unbegun(Ending::NoMemory, OUT_OF_MEMORY, program),
    }
}

/// A run that didn't begin, with this status.
pub(crate) fn unbegun<V: Program<Ticket = T> + Drop, T>(
    ending: Ending,
    status: u8,
    program: V,
) -> Ran<V>
    ensures acted { Acted V.Program program result.program (entries_of result.log) }
    ensures ending { result.ending ≡ ending }
    ensures status { result.status ≡ status }
    ensures log { result.log ≡ None }
{
    Ran {
        status,
        ending,
        program,
        log: None,
    }
}

/// Serves a program over these desks, by the words of `gssrpcd`, and says what became of it: `run_server` of `server_command`, whose
/// clauses say all else.
pub(crate) fn run_program<
    R: Threads + Wait + Sync,
    F: Shelf,
    P: Port + Drop + Send,
    C: Clock + Drop + Send,
    D: Draw + Drop + Send,
    K: Keeper<Kept> + Drop + Send,
    S: Keeper<Served<P::Link>> + Drop + Send,
    V: Program<Ticket = T> + Drop + Send,
    T: Send + Sync,
    W: Speller<T> + Drop + Send,
    M: Disk + Drop + Send,
    O: Sink,
>(
    rt: &R,
    alloc: Global,
    words: &[Text],
    shelf: &mut F,
    disk: &mut Option<M>,
    desks: &mut Vec<Desk<P, C, D, K, S, W>>,
    program: V,
    start: Moment,
    out: &mut O,
    err: &mut O,
) -> Ran<V>
where
    P::Link: Drop + Send,
    requires fresh { AllByRecursion IsFresh desks.old.items }
    requires says { W.says ≡ V.says }
    requires filled { names_journal (options_of words.now) ≡ true → is_some disk.old ≡ true }
    ensures acted { Acted V.Program program result.program (entries_of result.log) }
    ensures ended { EndsAs words.now result.ending result.log }
    ensures status { result.status ≢ 6 → result.status ≢ 8
        → result.status ≡ status_at result.ending }
{
    let ended = run_server(
        rt, alloc, words, shelf, disk, desks, program, start, out, err,
    );
    Ran {
        status: ended.status,
        ending: Ending::Ended { end: ended.end },
        program: ended.program,
        log: Some(ended.log),
    }
}
