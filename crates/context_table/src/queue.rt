//! The orders of a table's live cells.
ghost use Rattle.std.specs.Prelude.{◌≡◌, ◌<◌, ◌≤◌, ℕ, ◌++◌, ◌∷◌, [], true, if◌then◌else◌, length};
ghost use Rattle.use_order.specs.Orders.{Order, is_among, without};
ghost use Rattle.use_order.specs.Links.{Distinct};
ghost use Rattle.context_table.specs.Order.{gathered, Rising};
ghost use Rattle.context_table.specs.Queues.{IsFirstWaiting, IsAhead};
ghost use Rattle.context_table.specs.Order.{IsOrder};
ghost use Rattle.std.specs.Prelude.{min, take, slice_get, Some};

use crate::slot::{Slot, is_waiting};
use sec_base::Moment;
use use_order::UseOrder;

/// Moves the cell of a complete context behind those that were used before.
pub fn touch_if(used: &mut UseOrder, whole: bool, cell: u32)
    requires { whole ≡ true → is_among cell used.old.cells ≡ true }
    ensures { used.new ≡ record used.old {
      cells = if whole then without cell used.old.cells ++ cell ∷ [] else used.old.cells;
    } }
{
    if whole {
        used.touch(cell);
    }
}

/// Takes a cell out of the order in which it stands.
pub fn leave(opening: &mut UseOrder, used: &mut UseOrder, whole: bool, cell: u32)
    requires { is_among cell (if whole then used.old.cells else opening.old.cells) ≡ true }
    ensures used { used.new ≡ record used.old {
      cells = if whole then without cell used.old.cells else used.old.cells;
    } }
    ensures opening { opening.new ≡ record opening.old {
      cells = if whole then opening.old.cells else without cell opening.old.cells;
    } }
{
    if whole {
        used.remove(cell);
    } else {
        opening.remove(cell);
    }
}

/// The first of these cells whose context negotiates and isn't held.
pub fn first_waiting<N, S>(opening: &UseOrder, slots: &[Slot<N, S>]) -> Option<u64>
    requires once { Distinct opening.now.cells }
    requires within { (cell : ℕ) → is_among cell opening.now.cells ≡ true
        → cell < length slots.now }
    ensures { IsFirstWaiting (gathered opening.now.cells slots.now) result }
{
    let mut next = opening.first();
    for place in 0..opening.len() {
        match next {
            None => return None,
            Some(cell) => {
                let slot = &slots[cell as usize];
                if is_waiting(slot) {
                    return Some(slot.id);
                }
                next = opening.after(cell);
            }
        }
    }
    None
}

/// The earlier of two moments.
pub fn earlier(one: Moment, other: Moment) -> Moment
    ensures { result ≡ min one other }
{
    if one.total() < other.total() {
        one
    } else {
        other
    }
}

/// The end of a live slot that comes first.
pub fn first_end<N, S>(order: &[u32], slots: &[Slot<N, S>], live: usize) -> Moment
    requires { IsOrder live order.now slots.now }
    ensures { IsAhead live order.now slots.now result }
{
    let mut soonest = Moment::greatest();
    for place in 0..live {
        let slot = &slots[order[place] as usize];
        soonest = earlier(soonest, slot.ends);
    }
    soonest
}
