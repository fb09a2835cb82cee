//! The cells of the taken marks, and how a mark is found in them.
ghost use Rattle.std.specs.Prelude.{◌≡◌, ℕ, ◌+◌, ◌<◌, ◌≤◌, ◌^◌, true, false, length, IfSome};
ghost use Rattle.std.specs.Prelude.{IfNone, Some, None, ◌&&◌, ◌==◌, if◌then◌else◌};
ghost use Rattle.replay_cache.specs.Taking.{same_mark};
ghost use Rattle.replay_cache.specs.Tally.{tally};
ghost use Rattle.replay_cache.specs.Cells.{cell_at, mark_in, is_held, has_mark, is_from, home_of};
ghost use Rattle.replay_cache.specs.Cells.{word_of, place_after, steps_to};

use crate::cache::SKEW;
use gss_base::Mark;
use sec_base::Moment;

/// An odd number by which moments are spread over the cells: 2^32 divided by the golden ratio.
const MIXER: u64 = 2_654_435_761;

/// A taken mark, the place that it was taken with, and its turn: the greatest moment when it was taken, and
/// which one it was at that moment, from 1. The number is 0 where nothing was ever kept.
#[derive(Clone, Copy)]
pub struct Cell {
    pub who: [u8; 20],
    pub nth: u32,
    pub at: Moment,
    pub place: u64,
    pub when: Moment,
}

/// Whether a mark is kept in the cell that is still recent.
pub fn is_kept(cell: &Cell, greatest: Moment) -> bool
    ensures { result ≡ is_held greatest cell.now }
{
    cell.nth > 0 && greatest.total().saturating_sub(cell.at.total()) <= SKEW
}

/// The place where the search for a mark begins.
pub fn home_place(mark: &Mark, count: usize) -> usize
    requires some { 0 < count }
    requires bounded { count ≤ 2 ^ 21 }
    ensures value { result ≡ home_of count mark.now }
    ensures inside { result < count }
{
    let mixed = mark.at.total() % 0x1_0000_0000 * MIXER + name_word(&mark.who);
    (mixed % 0x1_0000_0000 * count as u64 / 0x1_0000_0000) as usize
}

fn name_word(who: &[u8; 20]) -> u64
    ensures value { result ≡ word_of who.now }
    ensures small { result < 0x100000000 }
{
    let high = who[0] as u64 * 0x100_0000 + who[1] as u64 * 0x1_0000;
    high + who[2] as u64 * 0x100 + who[3] as u64
}

/// The place `step` steps after a home.
pub fn place_at(count: usize, home: usize, step: usize) -> usize
    requires home { home < count }
    requires step { step < count }
    requires bounded { count ≤ 2 ^ 21 }
    ensures value { result ≡ place_after count (home + step) }
    ensures inside { result < count }
{
    let place = home + step;
    if place < count { place } else { place - count }
}

fn holds_mark(cell: &Cell, greatest: Moment, mark: &Mark) -> bool
    ensures { result ≡ (is_held greatest cell.now && same_mark (mark_in cell.now) mark.now) }
{
    // most cells on the way hold another moment, which is compared at once
    cell.at == mark.at && is_kept(cell, greatest) && cell.who == mark.who
}

/// The place of the mark's cell, where one within reach of its home holds it.
pub fn find_mark(
    cells: &[Cell],
    greatest: Moment,
    mark: &Mark,
    home: usize,
    reach: usize,
) -> Option<usize>
    requires bounded { length cells.now ≤ 2 ^ 21 }
    requires home { home < length cells.now }
    requires reach { reach < length cells.now }
    ensures found { IfSome result
        (λ p. (p < length cells.now) × (has_mark greatest cells.now mark.now p ≡ true)) }
    ensures none { IfNone result ((p : ℕ) → p < length cells.now → steps_to (length cells.now) home
        p ≤ reach → has_mark greatest cells.now mark.now p ≡ false) }
{
    for step in 0..reach + 1 {
        let place = place_at(cells.len(), home, step);
        if holds_mark(&cells[place], greatest, mark) {
            return Some(place);
        }
    }
    None
}

// What is needed where a cell so many steps after a home is looked at too.
fn need_with(
    cell: &Cell,
    greatest: Moment,
    count: usize,
    home: usize,
    needed: usize,
    step: usize,
) -> usize
    requires some { 0 < count }
    requires bounded { count ≤ 2 ^ 21 }
    ensures { result ≡ (if is_held greatest cell.now && (home_of count (mark_in cell.now) == home)
        then step else needed) }
{
    let who = cell.who;
    let mark = Mark { who, at: cell.at };
    if is_kept(cell, greatest) && home_place(&mark, count) == home {
        step
    } else {
        needed
    }
}

/// How many steps after their home the held marks of a home lie at most.
pub fn needed_reach(cells: &[Cell], greatest: Moment, home: usize, reach: usize) -> usize
    requires bounded { length cells.now ≤ 2 ^ 21 }
    requires home { home < length cells.now }
    requires reach { reach < length cells.now }
    ensures less { result ≤ reach }
    ensures covers { (p : ℕ) → p < length cells.now → is_from greatest cells.now home p ≡ true
        → steps_to (length cells.now) home p ≤ reach → steps_to (length cells.now) home p ≤ result }
{
    let mut needed = 0;
    for step in 0..reach + 1 {
        let place = place_at(cells.len(), home, step);
        needed = need_with(&cells[place], greatest, cells.len(), home, needed, step);
    }
    needed
}

/// How many steps after a home the first cell lies that holds no mark.
pub fn free_step(cells: &[Cell], greatest: Moment, home: usize) -> usize
    requires bounded { length cells.now ≤ 2 ^ 21 }
    requires home { home < length cells.now }
    requires some { tally (is_held greatest) cells.now < length cells.now }
    ensures inside { result < length cells.now }
    ensures free { is_held greatest
        (cell_at cells.now (place_after (length cells.now) (home + result))) ≡ false }
{
    for step in 0..cells.len() {
        let place = place_at(cells.len(), home, step);
        if !is_kept(&cells[place], greatest) {
            return step;
        }
    }
    unreachable!()
}
