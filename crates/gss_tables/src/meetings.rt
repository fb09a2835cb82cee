//! Two desks at once, whose gates wait for each other.

ghost use Rattle.std.specs.Prelude.{◌≡◌, false, IfSome};
ghost use Rattle.std.specs.List.{AllByRecursion};
ghost use Rattle.server_desks.specs.Desks.{IsFresh};

use crate::rules::answers;
use crate::served::{Answers, list_gate};
use crate::servers::{MemDesk, desk};
use accept_book::{AdmitRefusal, Admitted, Lease, LookRefusal, Negotiated, Receipt};
use gate_models::GateAnswer;
use gss_server::{DataCall, Gate};
use rpc_program::ProgramId;
use rpcsec_bodies::Service;
use sec_base::{Link, MemLink, Moment};
use server_desks::{Job, run_desks};
use std::alloc::Global;
use std::sync::atomic::AtomicU64;
use std::sync::atomic::Ordering::SeqCst;
use std::thread::Threads;
use table_rows::{Cells, Said};
use table_setting::Files;

/// How often a gate looks whether the other desk came.
const LOOKS: u32 = 1_000_000_000;

/// Where the gate of a desk waits for that of the other.
#[derive(Clone, Copy)]
enum Wait {
    /// At a look, until the other is asked one too.
    Look,
    /// At a call, until the other answered one.
    Held,
    /// Nowhere: it says when it answered a call.
    Free,
}

/// A gate with a list of answers that waits for the other desk's, for a while.
#[derive(Drop)]
struct Meeting<'a> {
    inner: Answers,
    came: &'a AtomicU64,
    wait: Wait,
    met: bool,
}

impl Meeting<'_> {
    /// Comes.
    fn come(&mut self) {
        self.came.fetch_add(1, SeqCst);
    }

    /// Waits until so many came.
    fn wait_for(&mut self, count: u64) {
        for _ in 0..LOOKS {
            if self.came.load(SeqCst) >= count {
                self.met = true;
                return;
            }
        }
    }
}

impl Gate for Meeting<'_> {
    ghost use Rattle.std.specs.Prelude.{false, []};
    ghost use Rattle.posts_program.specs.Posts.{posts_says};

    ghost program = { posts_says };

    ghost tells = { λ _. false };

    ghost room = { λ _. 0 };

    ghost told = { λ _. [] };

    ghost limits = { λ _. record {
      contexts = 0;
      marks = 0;
      log = 0;
      width = 0;
      keeping = record { entries = false; digest = false };
    } };

    ghost answers = { λ _ _ _. Unit {0} };

    fn id(&self) -> ProgramId {
        self.inner.id()
    }

    fn has(&self, procedure: u32) -> bool {
        self.inner.has(procedure)
    }

    fn needs(&self, procedure: u32) -> Service {
        self.inner.needs(procedure)
    }

    fn takes(&self, procedure: u32, args: &[u8]) -> bool {
        self.inner.takes(procedure, args)
    }

    fn negotiate(
        &mut self,
        alloc: Global,
        id: Option<u64>,
        token: &[u8],
        now: Moment,
        draws: &[u8; 66],
    ) -> Negotiated {
        self.inner.negotiate(alloc, id, token, now, draws)
    }

    fn look(&mut self, id: u64, now: Moment) -> Result<Lease, LookRefusal> {
        if let Wait::Look = self.wait {
            self.come();
            self.wait_for(2);
        }
        self.inner.look(id, now)
    }

    fn admit(
        &mut self,
        alloc: Global,
        lease: &Lease,
        call: &DataCall<'_>,
    ) -> Result<Admitted, AdmitRefusal> {
        if let Wait::Held = self.wait {
            self.wait_for(1);
        }
        let answer = self.inner.admit(alloc, lease, call);
        if let Wait::Free = self.wait {
            self.come();
            self.wait_for(1);
        }
        answer
    }

    fn pass(&mut self, lease: &Lease, call: &DataCall<'_>) -> Result<Receipt, AdmitRefusal> {
        self.inner.pass(lease, call)
    }

    fn end(&mut self, lease: &Lease, seq: u32) -> Result<Receipt, AdmitRefusal> {
        self.inner.end(lease, seq)
    }
}

/// A desk over a link, with a gate of these answers that waits so.
fn job<'a>(
    alloc: Global,
    link: MemLink,
    answers: Vec<GateAnswer>,
    wait: Wait,
    came: &'a AtomicU64,
) -> Option<Job<MemDesk, Meeting<'a>>>
    requires { ⟦<MemLink as Link>⟧.closed link ≡ false }
    ensures { IfSome result (λ job. IsFresh job.desk) }
{
    let inner = list_gate(alloc, answers).ok()?;
    let gate = Meeting {
        inner,
        came,
        wait,
        met: false,
    };
    let desk = desk(alloc, link, Vec::new(alloc));
    Some(Job::new(alloc, desk, gate, 1, 128))
}

/// Where the gates of both desks wait, by a word.
fn waits_of(cells: &mut Cells<'_>) -> [Wait; 2] {
    match cells.word() {
        "look" => [Wait::Look, Wait::Look],
        "call" => [Wait::Held, Wait::Free],
        _ => {
            cells.expect(false);
            [Wait::Free, Wait::Free]
        }
    }
}

/// Two jobs over the same stream each, by the cells where their gates wait, of the stream, and of the answers of each gate.
fn jobs<'a>(
    files: &Files,
    cells: &mut Cells<'_>,
    came: &'a AtomicU64,
) -> Option<Vec<Job<MemDesk, Meeting<'a>>>>
    ensures { IfSome result (λ jobs. AllByRecursion (λ job. IsFresh job.desk) jobs.items) }
{
    let alloc = cells.alloc();
    let [one, other] = waits_of(cells);
    let (stream, said) = (cells.word(), cells.word());
    let link = files.link(cells, stream, Vec::new(alloc));
    let first = job(alloc, link, answers(cells, said), one, came)?;
    let link = files.link(cells, stream, Vec::new(alloc));
    let second = job(alloc, link, answers(cells, said), other, came)?;
    match Vec::from_array(alloc, [first, second]) {
        Ok(jobs) => Some(jobs),
        Err(_) => None,
    }
}

/// By the cells where the gates wait, of the stream and of the answers, whether each of two desks met the other, and what each wrote.
pub fn answer<R: Threads + Sync>(rt: &R, files: &Files, cells: &mut Cells<'_>, said: &mut Said) {
    let came = AtomicU64::new(0);
    let Some(mut jobs) = jobs(files, cells, &came) else {
        return said.starve();
    };
    run_desks(rt, &mut jobs);
    for job in &jobs {
        said.word(if job.gate.met { "met" } else { "alone" });
        for served in job.desk.links.all.iter() {
            said.octets(served.link.written());
        }
    }
}
