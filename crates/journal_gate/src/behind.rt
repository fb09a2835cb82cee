//! The journal behind its lock, with the count of the answers that it failed.

ghost use Rattle.std.specs.Prelude.{◌≡◌, ◌<◌, ◌≤◌, ◌+◌, ◌++◌, [], true, Some, IfSome, is_some};
ghost use Rattle.std.specs.Prelude.{length, vec_len, vec_capacity};
ghost use Rattle.sec_base.specs.Answers.{Rose};
ghost use Rattle.journal_gate.specs.Withheld.{journal_faults, disk_faults, is_shut, Counted};
ghost use Rattle.journal_gate.specs.Left.{IsKept, IsLeft, answers_of, left_on};
ghost use Rattle.replay_cache.specs.Taking.{same_mark};

use accept_book::{BookRefusal, NegAnswer};
use gss_base::Mark;
use replay_journal::{Disk, Journal, JournalVerdict, Request};
use sec_base::Moment;
use std::alloc::Global;
use std::marker::Brand;
use std::sync::ledger::{Book as Sum, Ledger, Share};

/// Names a ledger, the disk's count of faults before the journal was opened, and whether one is kept.
pub trait Opening: Ledger {
    ghost use Rattle.std.specs.Prelude.{ℕ, Bool};

    ghost count: { ℕ };

    ghost kept: { Bool };
}

impl Opening for Brand {
    ghost use Rattle.std.specs.Prelude.{false};

    ghost count = { 0 };

    ghost kept = { false };
}

/// The answer of a refusal.
pub(crate) fn refused(why: BookRefusal) -> Option<NegAnswer>
    ensures { result ≡ Some (NegAnswer.Refused why) }
{
    Some(NegAnswer::Refused(why))
}

/// What the journal answered of a mark.
#[derive(Clone, Copy)]
pub(crate) struct Answer {
    pub(crate) mark: Mark,
    pub(crate) verdict: JournalVerdict,
}

/// Whether two marks are the same.
fn are_same(one: &Mark, other: &Mark) -> bool
    ensures { result ≡ same_mark one.now other.now }
{
    one.who == other.who && one.at == other.at
}

/// The verdict of the first answer on a mark.
pub(crate) fn verdict_on(answers: &[Answer], mark: &Mark) -> Option<JournalVerdict>
    ensures { result ≡ left_on mark.now answers.now }
{
    match answers {
        [] => None,
        [first, rest @ ..] => {
            if are_same(&first.mark, mark) {
                Some(first.verdict)
            } else {
                verdict_on(rest, mark)
            }
        }
    }
}

/// The place of the first answer on a mark.
fn place_in(answers: &[Answer], mark: &Mark) -> Option<usize>
    ensures { IfSome result (λ place. place < length answers.now) }
{
    for place in 0..answers.len() {
        if are_same(&answers[place].mark, mark) {
            return Some(place);
        }
    }
    None
}

/// Takes the first answer on a mark out of those that were left.
pub(crate) fn take_left(left: &mut Vec<Answer>, mark: &Mark) -> Option<JournalVerdict>
    ensures { result ≡ left_on mark.now left.old.items }
{
    let verdict = verdict_on(left.as_slice(), mark);
    if let Some(place) = place_in(left.as_slice(), mark) {
        left.swap_remove(place);
    }
    verdict
}

/// Leaves the verdict on each mark that was asked for.
fn leave(left: &mut Vec<Answer>, asked: &[Request], verdicts: &[JournalVerdict])
    requires room { vec_len left.old + length asked.now ≤ vec_capacity left.old }
    ensures { left.new.items ≡ left.old.items ++ answers_of asked.now verdicts.now }
{
    let [one, asked @ ..] = asked else {
        return;
    };
    let [verdict, verdicts @ ..] = verdicts else {
        return;
    };
    left.push_reserved(Answer {
        mark: one.mark,
        verdict: *verdict,
    });
    leave(left, asked, verdicts);
}

/// A journal, where one is kept, with the sum of all shares: how many answers its disk failed. That is 0, or the disk's count rose since the
/// opening.
#[derive(Drop)]
pub struct Behind<K: Disk, L: Opening> {
    alloc: Global,
    pub journal: Option<Journal<K>>,
    sum: Sum<L>,
    pub ghost there: { is_some journal ≡ L.kept },
    pub ghost later: { is_some journal ≡ true → L.count ≤ journal_faults K.faults journal },
    pub ghost shut: { is_shut journal → Rose L.count (journal_faults K.faults journal) },
    pub ghost rose: { 0 < sum.total → Rose L.count (journal_faults K.faults journal) },
}

impl<K: Disk, L: Opening> Behind<K, L> {
    /// A journal that was just opened, or none, and a sum of no answer.
    pub fn new(alloc: Global, journal: Option<Journal<K>>, sum: Sum<L>) -> Behind<K, L>
        requires kept { is_some journal ≡ L.kept }
        requires count { is_some journal ≡ true → L.count ≤ journal_faults K.faults journal }
        requires unclosed { is_shut journal → ⊥ }
        requires empty { sum.total ≡ 0 }
        ensures journal { result.journal ≡ journal }
    {
        Behind {
            alloc,
            journal,
            sum,
        }
    }

    /// Has the journal keep marks together, and says what it answers. Where it doesn't keep them so, or there is no memory, that is nothing.
    pub(crate) fn keep_all(&mut self, asked: &[Request]) -> Vec<Answer>
        ensures kept { is_some self.new.journal ≡ is_some self.old.journal }
        // The answers are the journal's, in the order of the marks.
        ensures left { IsLeft self.old.journal asked.now [] result.items }
    {
        let Behind { alloc, journal, .. } = self;
        let Ok(mut left) = Vec::with_capacity(*alloc, asked.len()) else {
            return Vec::new(*alloc);
        };
        let Some(journal) = journal else {
            return left;
        };
        let Ok(verdicts) = journal.keep_all(asked) else {
            return left;
        };
        leave(&mut left, asked, verdicts.as_slice());
        left
    }

    /// Asks the journal, and counts an answer that the disk failed.
    pub(crate) fn keep(
        &mut self,
        share: &mut Share<L>,
        now: Moment,
        mark: Mark,
    ) -> Option<NegAnswer>
        requires { 0 < share.old.parts }
        ensures parts { share.new.parts ≡ share.old.parts }
        ensures counted { Counted share.old.amount result share.new.amount }
        // The answer is the journal's.
        ensures answer { IsKept self.old.journal now mark result }
    {
        let Behind { journal, sum, .. } = self;
        let Some(journal) = journal else {
            return None;
        };
        match journal.keep(now, mark) {
            JournalVerdict::Taken => None,
            JournalVerdict::Stale { greatest } => refused(BookRefusal::Stale { greatest }),
            JournalVerdict::Repeat { place } => refused(BookRefusal::Repeat { place }),
            JournalVerdict::Full => refused(BookRefusal::CacheFull),
            JournalVerdict::NoMemory => Some(NegAnswer::NoMemory),
            JournalVerdict::DiskFault | JournalVerdict::Closed => {
                sum.add(share, 1);
                refused(BookRefusal::Journal)
            }
        }
    }

    /// Looks at a share that has come back: if it counted an answer, the disk's count of faults rose.
    pub fn audit(&mut self, share: &mut Share<L>)
        ensures same { self.new.journal ≡ self.old.journal }
        ensures rose { 0 < share.old.amount
            → Rose L.count (journal_faults K.faults self.new.journal) }
    {
        self.sum.audit(share);
    }

    /// The journal.
    pub fn into_journal(self) -> Option<Journal<K>>
        ensures same { result ≡ self.journal }
        ensures kept { is_some result ≡ L.kept }
    {
        let Behind { journal, .. } = self;
        journal
    }
}

/// The disk of a journal, where one is kept.
pub fn disk_of<K: Disk>(journal: Option<Journal<K>>) -> Option<K>
    ensures some { is_some result ≡ is_some journal }
    ensures faults { disk_faults K.faults result ≡ journal_faults K.faults journal }
{
    match journal {
        None => None,
        Some(journal) => Some(journal.into_disk()),
    }
}
