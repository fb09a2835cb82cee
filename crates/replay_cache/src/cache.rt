//! A cache as cells in which marks are found by their names, with a heap of their times.
ghost use Rattle.std.specs.Prelude.{◌≡◌, ℕ, ◌+◌, ◌^◌, ◌<◌, ◌≤◌, List, [], ◌∷◌, ◌++◌, IfOk, IfSome};
ghost use Rattle.std.specs.Prelude.{length, max, Some, None, false, vec_len, slice_index_or};
ghost use Rattle.replay_cache.specs.Taking.{Holds, cache_verdict, with_taken, kept_of, place_of};
ghost use Rattle.replay_cache.specs.Taking.{is_stale};
ghost use Rattle.replay_cache.specs.Cells.{cell_at};
ghost use Rattle.replay_cache.specs.declared.cache.TakenMark.{TakenMark};

use crate::cells::{Cell, find_mark, free_step, home_place, needed_reach, place_at};
use crate::times::Times;
use gss_base::Mark;
use sec_base::{Moment, NoMemory};
use std::alloc::Global;
use std::marker::Model;

/// By how many microseconds an authenticator's time and the greatest moment may differ: 300 seconds.
pub const SKEW: u64 = 300_000_000;

/// What a cache says of a mark, in the order in which it is judged.
#[derive(Clone, Copy)]
pub enum CacheVerdict {
    /// Its time and the greatest moment, `greatest`, differ by more than 300 seconds.
    Stale { greatest: Moment },
    /// It is held already; `place` is the one that it was taken with.
    Repeat { place: u64 },
    /// As many marks as the capacity are held.
    Full,
    /// It was taken, or may be.
    Taken,
}

/// A mark that was taken, and the place that it was taken with.
#[derive(Clone, Copy)]
pub struct TakenMark {
    pub mark: Mark,
    pub place: u64,
}

/// The marks that were taken since the cache was made, as far as verdicts need them.
///
/// Contracts see a `Cached`, and say by `Holds` of which taken marks, oldest first, it speaks.
#[derive(Drop)]
pub struct Cache {
    capacity: usize,
    greatest: Moment,
    // how many marks were taken since the greatest moment rose
    taken: u32,
    cells: Vec<Cell>,
    // for each home, how many steps after it at most its held marks lie
    reaches: Vec<u32>,
    times: Times,
}

impl Model for Cache {
    ghost use Rattle.replay_cache.specs.Taking.{Cached};
    ghost use Rattle.replay_cache.specs.Cells.{before, next_turn};
    ghost use Rattle.replay_cache.specs.Held.{IsCache};

    ghost Value = { Cached };

    ghost view = { λ c. record {
      capacity = c.capacity;
      greatest = c.greatest;
      held =
          before c.greatest c.cells.items (next_turn c.greatest c.taken);
    } };

    ghost invariant = { λ c. IsCache c.capacity c.greatest c.taken c.cells.items c.reaches.items
        c.times };
}

impl Cache {
    /// A cache with room for `capacity` marks, which has seen the moment `start` and taken none.
    pub fn new(alloc: Global, capacity: usize, start: Moment) -> Result<Cache, NoMemory>
        requires some { 0 < capacity }
        requires bounded { capacity ≤ 1000000 }
        ensures capacity { IfOk result (λ cache. cache.capacity ≡ capacity) }
        ensures greatest { IfOk result (λ cache. cache.greatest ≡ start) }
        ensures holds { IfOk result (λ cache. Holds cache []) }
    {
        let count = capacity + capacity / 16 + 1;
        let cells = empty_cells(alloc, count)?;
        let reaches = no_reaches(alloc, count)?;
        let times = Times::new(alloc, capacity)?;
        Ok(Cache {
            capacity,
            greatest: start,
            taken: 0,
            cells,
            reaches,
            times,
        })
    }

    /// Takes note of a moment: the greatest becomes the larger of both, and marks that lie more than 300 seconds
    /// before it are forgotten.
    pub fn raise(&mut self, now: Moment)
        ensures capacity { self.new.capacity ≡ self.old.capacity }
        ensures greatest { self.new.greatest ≡ max self.old.greatest now }
        ensures holds { (taken : List TakenMark) → Holds self.old taken → Holds self.new taken }
    {
        if self.greatest.total() < now.total() {
            self.times.forget(now.total().saturating_sub(SKEW));
            self.greatest = now;
            self.taken = 0;
        }
    }

    /// What `admit` would say of a mark at the greatest moment. Nothing is taken by it.
    pub fn judge(&self, mark: &Mark) -> CacheVerdict
        ensures verdict { (taken : List TakenMark) → Holds self.now taken
            → result ≡ cache_verdict self.now.capacity self.now.greatest taken mark.now }
        ensures room { result ≡ CacheVerdict.Taken → length self.now.held < self.now.capacity }
    {
        self.verdict_on(mark)
    }

    /// Takes note of `now`, judges the mark, and takes it with this place where the verdict is `Taken`.
    pub fn admit(&mut self, now: Moment, mark: Mark, place: u64) -> CacheVerdict
        ensures capacity { self.new.capacity ≡ self.old.capacity }
        ensures greatest { self.new.greatest ≡ max self.old.greatest now }
        ensures verdict { (taken : List TakenMark) → Holds self.old taken
            → result ≡ cache_verdict self.old.capacity (max self.old.greatest now) taken mark }
        ensures holds { (taken : List TakenMark) → Holds self.old taken
            → Holds self.new (with_taken result taken (record { mark = mark; place = place })) }
    {
        self.raise(now);
        let verdict = self.verdict_on(&mark);
        match verdict {
            CacheVerdict::Taken => {
                self.keep(mark, place);
                CacheVerdict::Taken
            }
            _ => verdict,
        }
    }

    /// The greatest moment that was seen.
    pub fn greatest(&self) -> Moment
        ensures { result ≡ self.now.greatest }
    {
        self.greatest
    }

    /// How many marks are held.
    pub fn held(&self) -> usize
        ensures { result ≡ length self.now.held }
    {
        self.times.len()
    }

    fn verdict_on(&self, mark: &Mark) -> CacheVerdict
        ensures verdict { (taken : List TakenMark) → Holds self.now taken
            → result ≡ cache_verdict self.now.capacity self.now.greatest taken mark.now }
        ensures room { result ≡ CacheVerdict.Taken → length self.now.held < self.now.capacity }
        ensures new { result ≡ CacheVerdict.Taken → place_of mark.now self.now.held ≡ None }
        ensures near { result ≡ CacheVerdict.Taken → is_stale self.now.greatest mark.now ≡ false }
    {
        let greatest = self.greatest.total();
        let at = mark.at.total();
        if greatest.saturating_sub(at) > SKEW || at.saturating_sub(greatest) > SKEW {
            return CacheVerdict::Stale {
                greatest: self.greatest,
            };
        }
        match self.find(mark) {
            Some(place) => CacheVerdict::Repeat { place },
            None => {
                if self.times.len() < self.capacity {
                    CacheVerdict::Taken
                } else {
                    CacheVerdict::Full
                }
            }
        }
    }

    fn find(&self, mark: &Mark) -> Option<u64>
        ensures { result ≡ place_of mark.now self.now.held }
    {
        let home = home_place(mark, self.cells.len());
        let reach = self.reaches[home] as usize;
        match find_mark(&self.cells, self.greatest, mark, home, reach) {
            Some(place) => Some(self.cells[place].place),
            None => None,
        }
    }

    // Keeps a mark that isn't held, in the first cell after its home that holds none.
    fn keep(&mut self, mark: Mark, place: u64)
        requires room { length self.old.held < self.old.capacity }
        requires new { place_of mark self.old.held ≡ None }
        requires near { is_stale self.old.greatest mark ≡ false }
        ensures capacity { self.new.capacity ≡ self.old.capacity }
        ensures greatest { self.new.greatest ≡ self.old.greatest }
        ensures held { self.new.held ≡ self.old.held ++ record { mark = mark; place = place } ∷ [] }
    {
        let count = self.cells.len();
        let home = home_place(&mark, count);
        let reach = self.reaches[home] as usize;
        let needed = needed_reach(&self.cells, self.greatest, home, reach);
        let step = free_step(&self.cells, self.greatest, home);
        self.taken += 1;
        let cell = Cell {
            who: mark.who,
            nth: self.taken,
            at: mark.at,
            place,
            when: self.greatest,
        };
        self.cells[place_at(count, home, step)] = cell;
        self.reaches[home] = needed.max(step) as u32;
        self.times.put(mark.at.total());
    }
}

fn empty_cells(alloc: Global, count: usize) -> Result<Vec<Cell>, NoMemory>
    requires { count < 2 ^ 32 }
    ensures count { IfOk result (λ cells. vec_len cells ≡ count) }
    ensures empty { IfOk result (λ cells. (p : ℕ) → (cell_at cells.items p).nth ≡ 0) }
    ensures early { IfOk result (λ cells. (p : ℕ) → (cell_at cells.items p).when ≡ 0) }
{
    let blank = Cell {
        who: [0; 20],
        nth: 0,
        at: Moment::start(),
        place: 0,
        when: Moment::start(),
    };
    let mut cells = Vec::new(alloc);
    cells.resize(count, blank)?;
    Ok(cells)
}

fn no_reaches(alloc: Global, count: usize) -> Result<Vec<u32>, NoMemory>
    requires { count < 2 ^ 32 }
    ensures count { IfOk result (λ reaches. vec_len reaches ≡ count) }
    ensures none { IfOk result (λ reaches. (h : ℕ) → slice_index_or reaches.items h 0 ≡ 0) }
{
    let mut reaches = Vec::new(alloc);
    reaches.resize(count, 0)?;
    Ok(reaches)
}
