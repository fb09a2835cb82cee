//! The journal behind its lock, and the marks of the desks that wait for it.

ghost use Rattle.std.specs.Prelude.{◌≡◌, ◌<◌};
ghost use Rattle.journal_gate.specs.Withheld.{Counted};
ghost use Rattle.journal_gate.specs.Left.{TellsLeft};

use crate::behind::{Answer, Behind, Opening, refused, take_left, verdict_on};
use accept_book::{BookRefusal, NegAnswer};
use gss_base::Mark;
use replay_journal::{Disk, JournalVerdict, Request};
use sec_base::Moment;
use std::alloc::Global;
use std::mem;
use std::sync::ledger::Share;
use std::sync::{Condvar, Mutex, Wait};

/// The marks that wait, whether a desk has others kept at the moment, and the answers that desks have yet to take, of which each has one at most.
#[derive(Drop)]
struct Waiting {
    led: bool,
    asked: Vec<Request>,
    left: Vec<Answer>,
}

/// What a desk that has waited does.
#[derive(Drop)]
enum Turn {
    /// It tells this answer, which another desk left.
    Tells(JournalVerdict),
    /// It has these marks kept.
    Leads(Vec<Request>),
}

/// What lies behind the journal's lock, and the marks of the desks that wait.
///
/// A desk puts its mark into the list, and waits while another one has marks kept and its own isn't answered. Then it finds its answer, or has all
/// marks of the list kept in one section, leaves the answers, and calls those who wait. The list's lock is held for moments alone.
pub struct Queue<K: Disk, L: Opening> {
    waiting: Mutex<Waiting>,
    called: Condvar,
    behind: Mutex<Behind<K, L>>,
}

impl<K: Disk, L: Opening> Queue<K, L> {
    /// A queue in which nobody waits.
    pub fn new(alloc: Global, behind: Behind<K, L>) -> Queue<K, L> {
        Queue {
            waiting: Mutex::new(Waiting {
                led: false,
                asked: Vec::new(alloc),
                left: Vec::new(alloc),
            }),
            called: Condvar::new(),
            behind: Mutex::new(behind),
        }
    }

    /// What lies behind the lock.
    pub fn into_behind(self) -> Behind<K, L> {
        let Queue {
            waiting,
            called,
            behind,
        } = self;
        drop(waiting.into_inner());
        drop(called);
        behind.into_inner()
    }

    /// Has the journal keep a mark, alone or with those of other desks.
    pub(crate) fn keep<R: Wait>(
        &self,
        rt: &R,
        alloc: Global,
        share: &mut Share<L>,
        now: Moment,
        mark: Mark,
    ) -> Option<NegAnswer>
        requires { 0 < share.old.parts }
        ensures parts { share.new.parts ≡ share.old.parts }
        ensures counted { Counted share.old.amount result share.new.amount }
    {
        let left = match self.wait(rt, alloc, now, &mark) {
            Turn::Tells(verdict) => Some(verdict),
            Turn::Leads(asked) => self.lead(rt, asked.as_slice(), &mark),
        };
        self.tell(rt, share, left, now, mark)
    }

    /// Puts a mark into the list, and waits for its turn. Where there is no memory for that, nothing of the list is had kept.
    fn wait<R: Wait>(&self, rt: &R, alloc: Global, now: Moment, mark: &Mark) -> Turn {
        let mut guard = self.waiting.lock(rt);
        let waiting = &mut *guard;
        let _ = waiting.asked.push(Request { now, mark: *mark });
        let mut guard = self.called.wait_while(rt, guard, |waiting| {
            waiting.led && verdict_on(waiting.left.as_slice(), mark).is_none()
        });
        let waiting = &mut *guard;
        if let Some(verdict) = take_left(&mut waiting.left, mark) {
            return Turn::Tells(verdict);
        }
        waiting.led = true;
        let asked = mem::replace(&mut waiting.asked, Vec::new(alloc));
        match waiting.left.reserve(asked.len()) {
            Ok(()) => Turn::Leads(asked),
            Err(_) => Turn::Leads(Vec::new(alloc)),
        }
    }

    /// Has marks kept, leaves the answers, and calls those who wait. Its own answer is taken.
    fn lead<R: Wait>(&self, rt: &R, asked: &[Request], mark: &Mark) -> Option<JournalVerdict> {
        let mut answers = self.keep_all(rt, asked);
        let mut guard = self.waiting.lock(rt);
        let waiting = &mut *guard;
        let _ = waiting.left.append(&mut answers);
        waiting.led = false;
        self.called.notify_all();
        take_left(&mut waiting.left, mark)
    }

    /// Has the journal keep marks, in one section of its lock.
    fn keep_all<R: Wait>(&self, rt: &R, asked: &[Request]) -> Vec<Answer> {
        let mut guard = self.behind.lock(rt);
        let behind = &mut *guard;
        behind.keep_all(asked)
    }

    /// Has the journal keep a mark alone.
    fn keep_alone<R: Wait>(
        &self,
        rt: &R,
        share: &mut Share<L>,
        now: Moment,
        mark: Mark,
    ) -> Option<NegAnswer>
        requires { 0 < share.old.parts }
        ensures parts { share.new.parts ≡ share.old.parts }
        ensures counted { Counted share.old.amount result share.new.amount }
    {
        let mut guard = self.behind.lock(rt);
        let behind = &mut *guard;
        behind.keep(share, now, mark)
    }

    /// Tells the answer that was left on a mark; where there is none, or the disk failed, the journal is asked for it alone.
    fn tell<R: Wait>(
        &self,
        rt: &R,
        share: &mut Share<L>,
        left: Option<JournalVerdict>,
        now: Moment,
        mark: Mark,
    ) -> Option<NegAnswer>
        requires { 0 < share.old.parts }
        ensures parts { share.new.parts ≡ share.old.parts }
        ensures counted { Counted share.old.amount result share.new.amount }
        ensures told { TellsLeft left result }
    {
        let Some(verdict) = left else {
            return self.keep_alone(rt, share, now, mark);
        };
        match verdict {
            JournalVerdict::Taken => None,
            JournalVerdict::Stale { greatest } => refused(BookRefusal::Stale { greatest }),
            JournalVerdict::Repeat { place: number } => {
                refused(BookRefusal::Repeat { place: number })
            }
            JournalVerdict::Full => refused(BookRefusal::CacheFull),
            JournalVerdict::DiskFault | JournalVerdict::Closed | JournalVerdict::NoMemory => {
                self.keep_alone(rt, share, now, mark)
            }
        }
    }
}
