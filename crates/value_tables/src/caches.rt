//! The cache of the marks that were taken.

use gss_base::{Label, Mark, mark_of};
use replay_cache::{Cache, CacheVerdict};
use sec_base::Moment;
use std::alloc::Global;
use table_rows::{Cells, Said};

/// The most marks that a cache may hold.
const MOST: u64 = 1_000_000;

/// The microseconds of one second.
const MICROS: u64 = 1_000_000;

/// What was read as a moment, which has to be one.
pub fn known(cells: &mut Cells<'_>, moment: Option<Moment>) -> Moment {
    cells.expect(moment.is_some());
    moment.unwrap_or(Moment::start())
}

/// The next cell's moment, in microseconds.
fn moment(cells: &mut Cells<'_>) -> Moment {
    let micros = cells.number();
    known(
        cells,
        Moment::new(micros / MICROS, (micros % MICROS) as u32),
    )
}

/// The octet of the next cell, 20 times.
pub fn repeated(cells: &mut Cells<'_>) -> [u8; 20] {
    let who = cells.number();
    cells.expect(who < 256);
    [(who % 256) as u8; 20]
}

/// Says a verdict: T is Taken, R and a place Repeat, S and the greatest moment Stale, F Full.
fn verdict_said(said: &mut Said, verdict: CacheVerdict) {
    match verdict {
        CacheVerdict::Taken => said.word("T"),
        CacheVerdict::Repeat { place } => {
            said.word("R");
            said.join("");
            said.number(place);
        }
        CacheVerdict::Stale { greatest } => {
            said.word("S");
            said.join("");
            said.number(greatest.total());
        }
        CacheVerdict::Full => said.word("F"),
    }
}

/// The mark of the parts `who/at`, where the octet `who` is repeated 20 times.
fn mark(parts: &mut Cells<'_>) -> Mark {
    let (who, at) = (repeated(parts), moment(parts));
    Mark { who, at }
}

/// Says what is asked of a cache beside an admission: `H` how many marks it holds, `G` its greatest moment, `now!` to take note of a
/// moment, `?who/at` to judge a mark. Answers whether it is in that form.
fn asked(said: &mut Said, cache: &mut Cache, step: &str) -> bool {
    said.word(step);
    if let Some(now) = step.strip_suffix('!') {
        let mut parts = Cells::new(said.alloc(), now, '/');
        cache.raise(moment(&mut parts));
        return parts.are_well();
    }
    said.join(":");
    match step {
        "H" => said.number(cache.held() as u64),
        "G" => said.number(cache.greatest().total()),
        _ => {
            let mark_asked = step.strip_prefix('?').unwrap_or("");
            let mut parts = Cells::new(said.alloc(), mark_asked, '/');
            verdict_said(said, cache.judge(&mark(&mut parts)));
            return parts.are_well();
        }
    }
    true
}

/// Says what a cache answers to `now/who/at` with this place, and answers whether the step is in that form.
fn admitted(said: &mut Said, cache: &mut Cache, step: &str, place: u64) -> bool {
    said.word(step);
    said.join(":");
    let mut parts = Cells::new(said.alloc(), step, '/');
    let (now, mark) = (moment(&mut parts), mark(&mut parts));
    verdict_said(said, cache.admit(now, mark, place));
    parts.are_well()
}

/// Whether a step admits a mark.
fn admits(step: &str) -> bool {
    step.contains('/') && !step.starts_with('?')
}

/// Says what a cache answers to steps, whose admissions have the places from `place` on, and answers whether each is in its form.
fn are_answered(said: &mut Said, cache: &mut Cache, steps: &str, place: u64) -> bool {
    let mut place = place;
    let mut are_well = true;
    for word in steps.split(' ') {
        let (step, _answer) = word.split_once(':').unwrap_or((word, ""));
        if admits(step) {
            are_well = admitted(said, cache, step, place) && are_well;
            place = place.saturating_add(1);
        } else {
            are_well = asked(said, cache, step) && are_well;
        }
    }
    are_well
}

/// A cache with this capacity, which has seen this moment.
fn cache(alloc: Global, capacity: u64, start: Moment) -> Option<Cache> {
    if capacity == 0 || capacity > MOST {
        return None;
    }
    Cache::new(alloc, capacity as usize, start).ok()
}

/// What a cache answers, by its capacity, its first moment, the first place, and `step:answer` for each step.
pub fn judged(cells: &mut Cells<'_>, said: &mut Said) {
    let (capacity, start, place) = (cells.number(), moment(cells), cells.number());
    let steps = cells.rest().unwrap_or("");
    match cache(cells.alloc(), capacity, start) {
        Some(cache) => {
            let mut cache = cache;
            let are_well = are_answered(said, &mut cache, steps, place);
            cells.expect(are_well);
        }
        None => cells.expect(false),
    }
}

/// The mark that the client of this number has made at a moment.
fn client(alloc: Global, at: Moment, number: u64) -> Option<Mark> {
    let name = format!(in alloc; "client{number}@R").ok()?;
    match (Label::new("rpc/host@R"), Label::new(name.as_str())) {
        (Some(server), Some(client)) => Some(mark_of(&server, &client, at)),
        _ => None,
    }
}

/// How many of the marks of so many clients a cache of one moment says to be taken, and how many to be held with the client's number as
/// their place.
fn counted(alloc: Global, cache: &mut Cache, at: Moment, count: u64) -> (u64, u64) {
    let (mut taken, mut repeated) = (0u64, 0u64);
    for number in 0..count {
        if let Some(mark) = client(alloc, at, number) {
            match cache.admit(at, mark, number) {
                CacheVerdict::Taken => taken = taken.saturating_add(1),
                CacheVerdict::Repeat { place } => {
                    if place == number {
                        repeated = repeated.saturating_add(1);
                    }
                }
                _ => {}
            }
        }
    }
    (taken, repeated)
}

/// Says how many marks are taken, then how many are held each with its own place, and how many are held.
fn counts_said(said: &mut Said, cache: &mut Cache, at: Moment, count: u64) {
    let (taken, _repeated) = counted(said.alloc(), cache, at, count);
    let (_taken, repeated) = counted(said.alloc(), cache, at, count);
    said.number(taken);
    said.number(repeated);
    said.number(cache.held() as u64);
}

/// What a cache says of the marks that so many clients made at one moment, each twice, by the cells capacity and count of clients.
pub fn many(cells: &mut Cells<'_>, said: &mut Said) {
    let (capacity, count) = (cells.number(), cells.number());
    let at = Moment::new(1_000_000, 7).unwrap_or(Moment::start());
    match cache(cells.alloc(), capacity, at) {
        Some(cache) => {
            let mut cache = cache;
            counts_said(said, &mut cache, at, count);
        }
        None => cells.expect(false),
    }
}
