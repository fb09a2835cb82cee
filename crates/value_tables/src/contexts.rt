//! A table full of contexts.

ghost use Rattle.std.specs.Prelude.{◌≡◌, ◌≤◌, ◌+◌, ℕ, [], IsSome};
ghost use Rattle.context_table.specs.Places.{slot_at, live_of, WideAt};

use crate::windows::verdict_said;
use context_table::Table;
use sec_base::Moment;
use seq_window::Verdict;
use table_rows::{Cells, Said};

/// The most contexts of a table.
const MOST: u32 = 65_536;

/// The width of the windows.
const WIDTH: u32 = 4;

/// Opens a context for each id from 1 to `count`.
fn fill(table: &mut Table<u8, u8>, count: u64)
    requires empty { table.old.slots ≡ [] }
    requires room { count ≤ table.old.limit }
    requires few { count ≤ 65536 }
    ensures live { live_of table.new ≡ count }
    ensures limit { table.new.limit ≡ table.old.limit }
    ensures known { (id : ℕ) → IsSome (slot_at table.new id) → id ≤ count }
    ensures wide { (id : ℕ) → WideAt table.new.width (slot_at table.new id) }
{
    for last in 0..count {
        table.open(last + 1, 7, Moment::start());
    }
}

/// Says what a table shows of an id and the next one: how many contexts live, what lives under both, and the least id that is past its end.
fn shown(said: &mut Said, table: &Table<u8, u8>, id: u64) {
    said.number(table.live() as u64);
    said.form(&table.phase(id));
    said.form(&table.phase(id.saturating_add(1)));
    said.number(table.past(Moment::greatest()).unwrap_or(0));
}

/// Ends one context of a table that has those from 1 to `last`, and opens a further one in its place.
fn replace(table: &mut Table<u8, u8>, last: u64, ended: u64, state: u8) -> bool
    requires few { last ≤ 65536 }
    requires room { live_of table.old ≤ table.old.limit }
    requires known { (id : ℕ) → IsSome (slot_at table.old id) → id ≤ last }
    requires wide { (id : ℕ) → WideAt table.old.width (slot_at table.old id) }
{
    if !table.end(ended) {
        return false;
    }
    table.open(last + 1, state, Moment::greatest());
    true
}

/// Says what a full table shows of its last id, then of one that ended once a further context took its place; and what that one's state
/// is when it is taken twice.
fn full(said: &mut Said, table: &mut Table<u8, u8>, last: u64, ended: u64, state: u8)
    requires empty { table.old.slots ≡ [] }
    requires room { last ≤ table.old.limit }
    requires few { last ≤ 65536 }
{
    fill(table, last);
    shown(said, table, last);
    if !replace(table, last, ended, state) {
        return;
    }
    shown(said, table, ended);
    said.form(&table.take(last + 1));
    said.form(&table.take(last + 1));
    said.form(&table.phase(last + 1));
}

/// The same, by the cells count, id that ends, and state.
pub fn replaced(cells: &mut Cells<'_>, said: &mut Said) {
    let (count, ended, state) = (cells.word_number(), cells.number(), cells.number());
    if count > MOST || state > 255 {
        cells.expect(false);
        return;
    }
    match Table::<u8, u8>::new(cells.alloc(), count as usize, WIDTH) {
        Ok(table) => {
            let mut table = table;
            full(said, &mut table, count as u64, ended, state as u8);
        }
        Err(_) => said.starve(),
    }
}

/// Completes a context that negotiates.
fn complete(table: &mut Table<u8, u8>, id: u64) -> bool {
    match table.take(id) {
        Some(state) => {
            table.settle(id, state, Moment::greatest());
            true
        }
        None => false,
    }
}

/// Marks a number in the window of a complete context, where it is lent and the number is fresh.
fn mark(table: &mut Table<u8, u8>, id: u64, number: u32) -> bool {
    match table.window(id) {
        None => false,
        Some(window) => match window.judge(number) {
            Verdict::Fresh => {
                window.mark(number);
                true
            }
            _ => false,
        },
    }
}

/// Says what is said of a number in the window of an id.
fn judged(said: &mut Said, table: &Table<u8, u8>, id: u64, number: u32) {
    match table.judge(id, number) {
        Some(verdict) => verdict_said(said, verdict),
        None => said.word("None"),
    }
}

/// Says whether the window of a context is lent before and after the context is complete, and what is said then of the number that was
/// marked in it, of 1, and of the same number in the window of the next id.
fn lent(said: &mut Said, table: &mut Table<u8, u8>, id: u64, number: u32) {
    said.form(&mark(table, id, number));
    said.form(&complete(table, id));
    said.form(&mark(table, id, number));
    judged(said, table, id, number);
    judged(said, table, id, 1);
    judged(said, table, id.saturating_add(1), number);
}

/// The same, by the cells count, id and number.
pub fn windowed(cells: &mut Cells<'_>, said: &mut Said) {
    let (count, id, number) = (cells.word_number(), cells.number(), cells.word_number());
    if count > MOST {
        cells.expect(false);
        return;
    }
    match Table::<u8, u8>::new(cells.alloc(), count as usize, WIDTH) {
        Ok(table) => {
            let mut table = table;
            fill(&mut table, count as u64);
            lent(said, &mut table, id, number);
        }
        Err(_) => said.starve(),
    }
}

/// Says which contexts give their places: how many are complete, the one of them that was used longest ago, and the least id that negotiates and
/// isn't held.
fn order_said(said: &mut Said, table: &Table<u8, u8>) {
    said.number(table.whole() as u64);
    said.form(&table.oldest());
    said.form(&table.waiting());
}

/// Marks a number of a context by the table itself, where it is fresh.
fn used(table: &mut Table<u8, u8>, id: u64, number: u32) -> bool {
    match table.judge(id, number) {
        Some(Verdict::Fresh) => {
            table.mark(id, number);
            true
        }
        _ => false,
    }
}

/// Says that order once one context ended, once two are complete, once one is used, and once the state of one is taken.
fn aged(said: &mut Said, table: &mut Table<u8, u8>, ids: [u64; 5])
    requires wide { (id : ℕ) → WideAt table.old.width (slot_at table.old id) }
{
    order_said(said, table);
    said.form(&table.end(ids[0]));
    order_said(said, table);
    said.form(&complete(table, ids[1]));
    said.form(&complete(table, ids[2]));
    order_said(said, table);
    said.form(&used(table, ids[3], 5));
    order_said(said, table);
    said.form(&table.take(ids[4]));
    order_said(said, table);
}

/// The same, by the cells count and the ids of the one that ends, the two that are completed, the one that is used and the one that is taken.
pub fn ordered(cells: &mut Cells<'_>, said: &mut Said) {
    let count = cells.word_number();
    let (ended, first, second) = (cells.number(), cells.number(), cells.number());
    let ids = [ended, first, second, cells.number(), cells.number()];
    if count > MOST {
        cells.expect(false);
        return;
    }
    match Table::<u8, u8>::new(cells.alloc(), count as usize, WIDTH) {
        Ok(table) => {
            let mut table = table;
            fill(&mut table, count as u64);
            aged(said, &mut table, ids);
        }
        Err(_) => said.starve(),
    }
}
