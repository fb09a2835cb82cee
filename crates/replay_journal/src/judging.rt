//! Marks that are judged one after the other, to be kept together.
ghost use Rattle.std.specs.Prelude.{◌≡◌, ◌≤◌, ◌<◌, ◌+◌, ◌*◌, ◌++◌, [], ◌∷◌, List, length, take};
ghost use Rattle.std.specs.Prelude.{vec_len, vec_capacity};
ghost use Rattle.replay_cache.specs.declared.cache.TakenMark.{TakenMark};
ghost use Rattle.replay_cache.specs.Taking.{Holds};
ghost use Rattle.replay_journal.specs.Files.{blocks, body_of};
ghost use Rattle.replay_journal.specs.Groups.{AreWritten, IsWritten, Judged, bodies_of, due_by};
ghost use Rattle.replay_journal.specs.Groups.{greatest_on, place_by};
ghost use Rattle.replay_journal.specs.Journals.{kept_by};

use crate::body::{OPEN, write_body};
use crate::journal::JournalVerdict;
use gss_base::Mark;
use replay_cache::{Cache, CacheVerdict};
use sec_base::Moment;

/// A mark that is to be kept, and the moment at which that is asked.
#[derive(Clone, Copy)]
pub struct Request {
    pub now: Moment,
    pub mark: Mark,
}

/// What a verdict of the cache is called.
fn told_by(verdict: &CacheVerdict) -> JournalVerdict
    ensures { result ≡ kept_by verdict.now }
{
    match verdict {
        CacheVerdict::Stale { greatest } => JournalVerdict::Stale {
            greatest: *greatest,
        },
        CacheVerdict::Repeat { place } => JournalVerdict::Repeat { place: *place },
        CacheVerdict::Full => JournalVerdict::Full,
        CacheVerdict::Taken => JournalVerdict::Taken,
    }
}

/// The body of a record without the gate behind it.
fn without_gate(octets: &[u8; 45]) -> &[u8]
    ensures { result.now ≡ take 44 octets.now }
{
    &octets[..44]
}

/// Writes an open gate and the body of a mark.
fn write_open(mark: &Mark, greatest: Moment, octets: &mut Vec<u8>)
    requires room { vec_len octets.old + 45 ≤ vec_capacity octets.old }
    ensures octets { octets.new.items ≡ octets.old.items ++ 0x4a ∷ body_of mark.now greatest }
    ensures written { IsWritten (record { mark = mark.now; greatest = greatest }) }
    ensures capacity { vec_capacity octets.old ≤ vec_capacity octets.new }
    ensures size { vec_len octets.new ≡ vec_len octets.old + 45 }
{
    let body = write_body(*mark, greatest);
    octets.push_reserved(OPEN);
    match octets.extend_from_slice(without_gate(&body)) {
        Ok(()) => {}
        Err(_) => unreachable!(),
    }
}

/// Writes the record of a mark where it is taken, and says the place of the next.
fn write_taken(
    verdict: &CacheVerdict,
    mark: &Mark,
    greatest: Moment,
    place: usize,
    octets: &mut Vec<u8>,
) -> usize
    requires room { vec_len octets.old + 45 ≤ vec_capacity octets.old }
    requires few { place < 2000000 }
    ensures octets { octets.new.items ≡ octets.old.items ++ blocks (bodies_of (due_by verdict.now
        (record { mark = mark.now; greatest = greatest }) [])) }
    ensures written { AreWritten (due_by verdict.now
        (record { mark = mark.now; greatest = greatest }) []) }
    ensures place { result ≡ place_by verdict.now place }
    ensures next { result ≤ place + 1 }
    ensures capacity { vec_capacity octets.old ≤ vec_capacity octets.new }
    ensures size { vec_len octets.new ≤ vec_len octets.old + 45 }
{
    match verdict {
        CacheVerdict::Stale { .. } => place,
        CacheVerdict::Repeat { .. } => place,
        CacheVerdict::Full => place,
        CacheVerdict::Taken => {
            write_open(mark, greatest, octets);
            place + 1
        }
    }
}

/// Judges marks one after the other by a cache, which takes those that are due, the first with this place. Says of each what is answered, writes the
/// records of those that were taken, and gives the place of the next.
pub fn judge_each(
    cache: &mut Cache,
    place: usize,
    asked: &[Request],
    answers: &mut Vec<JournalVerdict>,
    octets: &mut Vec<u8>,
) -> usize
    requires few { place + length asked.now ≤ 2000000 }
    requires answers { vec_len answers.old + length asked.now ≤ vec_capacity answers.old }
    requires octets { vec_len octets.old + 45 * length asked.now ≤ vec_capacity octets.old }
    ensures judged { (taken : List TakenMark) → Holds cache.old taken → Judged cache.old.capacity
        cache.old.greatest taken place asked.now answers.old.items answers.new.items
        octets.old.items octets.new.items cache.new result }
    ensures next { result ≤ place + length asked.now }
    ensures greatest { cache.new.greatest ≡ greatest_on cache.old.greatest asked.now }
    ensures capacity { cache.new.capacity ≡ cache.old.capacity }
    ensures count { vec_len answers.new ≡ vec_len answers.old + length asked.now }
    ensures room { vec_capacity octets.old ≤ vec_capacity octets.new }
    ensures size { vec_len octets.new ≤ vec_len octets.old + 45 * length asked.now }
{
    let [one, rest @ ..] = asked else {
        return place;
    };
    let verdict = cache.admit(one.now, one.mark, place as u64);
    let next = write_taken(&verdict, &one.mark, cache.greatest(), place, octets);
    answers.push_reserved(told_by(&verdict));
    judge_each(cache, next, rest, answers, octets)
}
