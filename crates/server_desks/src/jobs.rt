//! Desks with their gates, which are served side by side.

ghost use Rattle.std.specs.Prelude.{◌≡◌, length, map, vec_len, All};
ghost use Rattle.server_desks.specs.Desks.{IsFresh, DeskServed, joined, end_behind};
ghost use Rattle.server_desks.specs.Desks.{InStep};
ghost use Rattle.gss_server.specs.Hearing.{serving};

use crate::desk::{Desk, DeskEnd, serve_desk};
use gss_server::{Gate, Keeper, Kept, Served};
use sec_base::{Clock, Draw, Port};
use server_options::RunEnd;
use std::alloc::Global;
use std::thread;
use std::thread::Threads;

/// A desk with its gate, what it may serve there, and how it ended.
#[derive(Drop)]
pub struct Job<T, G> {
    alloc: Global,
    pub desk: T,
    pub gate: G,
    /// How many links it serves at most.
    pub connections: u64,
    /// The width of the windows of sequence numbers.
    pub width: u32,
    pub end: DeskEnd,
}

impl<T, G> Job<T, G> {
    /// A desk that is to serve at most so many links at this gate, with windows of this width.
    pub fn new(alloc: Global, desk: T, gate: G, connections: u64, width: u32) -> Job<T, G>
        ensures desk { result.desk ≡ desk }
        ensures gate { result.gate ≡ gate }
        ensures connections { result.connections ≡ connections }
        ensures width { result.width ≡ width }
    {
        Job {
            alloc,
            desk,
            gate,
            connections,
            width,
            end: DeskEnd::Done,
        }
    }
}

/// What is done in a thread of its own.
trait Work {
    ghost ready: { Self → Type 0 };

    ghost done: { Self → Self → Type 0 };

    /// Does it.
    fn work(&mut self)
        requires { ready self.old }
        ensures { done self.old self.new };
}

/// A job is to serve its desk, which has served nothing yet, at its gate.
impl<P: Port, C: Clock, D: Draw, K: Keeper<Kept>, S: Keeper<Served<P::Link>>, W, G: Gate> Work
    for Job<Desk<P, C, D, K, S, W>, G>
where
    P::Link: Drop,
{
    ghost use Rattle.server_desks.specs.Desks.{IsFresh, DeskServed};
    ghost use Rattle.gss_server.specs.Hearing.{serving};

    ghost ready = { λ job. IsFresh job.desk };

    ghost done = { λ old new. DeskServed G.answers (serving G.program old.width) old.connections
        P.Port P.Link.Link C.Clock D.Draw K.Keeper S.Keeper old.gate old.desk new.end new.desk
        new.gate };

    fn work(&mut self) {
        let Job {
            alloc,
            desk,
            gate,
            connections,
            width,
            end,
        } = self;
        *end = serve_desk(*alloc, desk, gate, *connections, *width);
    }
}

/// Does all of it, each in a thread of its own where one can be made.
fn work_all<R: Threads + Sync, W: Work + Send>(rt: &R, works: &mut [W])
    requires { All W.ready works.old }
    ensures count { length works.new ≡ length works.old }
    ensures done { InStep works.old works.new (λ _ old new. W.done old new) }
{
    let threads = works.len().max(1);
    thread::for_each_mut(rt, works, threads, &|_, work| { work.work() });
}

/// Serves the desks of jobs, each at its gate, side by side: in as many threads as there are jobs, this one among them; where no thread can
/// be made, one after the other.
pub fn run_desks<
    R: Threads + Sync,
    P: Port + Send,
    C: Clock + Send,
    D: Draw + Send,
    K: Keeper<Kept> + Send,
    S: Keeper<Served<P::Link>> + Send,
    W: Send,
    G: Gate + Send,
>(rt: &R, jobs: &mut Vec<Job<Desk<P, C, D, K, S, W>, G>>)
where
    P::Link: Drop + Send,
    requires { All (λ job. IsFresh job.desk) jobs.old.items }
    ensures count { vec_len jobs.new ≡ vec_len jobs.old }
    ensures served { InStep jobs.old.items jobs.new.items (λ _ old new. DeskServed G.answers
        (serving G.program old.width) old.connections P.Port P.Link.Link C.Clock D.Draw K.Keeper
        S.Keeper old.gate old.desk new.end new.desk new.gate) }
{
    work_all(rt, jobs.as_mut_slice());
}

/// The end of a run behind a desk: as the first desk that failed has it.
fn joined(before: RunEnd, desk: usize, end: DeskEnd) -> RunEnd
    ensures { result ≡ joined before desk end }
{
    match before {
        RunEnd::Served => match end {
            DeskEnd::Done => RunEnd::Served,
            DeskEnd::PortFault => RunEnd::PortFault { desk },
            DeskEnd::NoMemory => RunEnd::NoMemory,
        },
        failed => failed,
    }
}

/// The end of a run: that of the first desk that failed. Desks are counted from 1.
pub fn end_of<T, G>(jobs: &[Job<T, G>]) -> RunEnd
    ensures { result ≡ end_behind RunEnd.Served 1 (map (λ job. job.end) jobs.now) }
{
    let mut end = RunEnd::Served;
    let mut number = 0;
    for job in jobs {
        number += 1;
        end = joined(end, number, job.end);
    }
    end
}
