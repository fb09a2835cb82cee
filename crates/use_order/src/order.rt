//! The order, and its links.
ghost use Rattle.std.specs.Prelude.{◌≡◌, ℕ, ◌+◌, ◌<◌, ◌≤◌, List, [], ◌∷◌, ◌++◌, length, true};
ghost use Rattle.std.specs.Prelude.{false, IfOk, slice_get};
ghost use Rattle.use_order.specs.Orders.{is_among, without, next_of};

use std::alloc::{AllocError, Global};
use std::marker::Model;

/// Cells in an order, each at most once. A cell is a number below the limit.
///
/// Contracts see an `Order`: its limit, and its cells from the first to the last.
#[derive(Drop)]
pub struct UseOrder {
    none: u32,
    count: usize,
    next: Vec<u32>,
    prev: Vec<u32>,
}

impl Model for UseOrder {
    ghost use Rattle.use_order.specs.Orders.{Order};
    ghost use Rattle.use_order.specs.Links.{order_of, IsRing};

    ghost Value = { Order };

    ghost view = { λ o. order_of o.none o.count o.next.items };

    ghost invariant = { λ o. IsRing o.none o.count o.next.items o.prev.items };
}

impl UseOrder {
    /// An order without cells, with the memory for all cells below the limit.
    pub fn new(alloc: Global, limit: u32) -> Result<UseOrder, AllocError>
        requires { limit ≤ 65536 }
        ensures { IfOk result (λ order. order ≡ record { limit = limit; cells = [] }) }
    {
        let places = limit as usize + 1;
        let next = vec![in alloc; limit; places]?;
        let prev = vec![in alloc; limit; places]?;
        Ok(UseOrder {
            none: limit,
            count: 0,
            next,
            prev,
        })
    }

    /// How many cells stand in the order.
    pub fn len(&self) -> usize
        ensures { result ≡ length self.now.cells }
    {
        self.count
    }

    /// The first cell, None exactly where there is none.
    pub fn first(&self) -> Option<u32>
        ensures { result ≡ slice_get self.now.cells 0 }
    {
        if self.count == 0 {
            None
        } else {
            Some(self.next[self.none as usize])
        }
    }

    /// The cell that follows a cell, None where that is the last.
    pub fn after(&self, cell: u32) -> Option<u32>
        requires { is_among cell self.now.cells ≡ true }
        ensures { result ≡ next_of cell self.now.cells }
    {
        let next = self.next[cell as usize];
        if next == self.none { None } else { Some(next) }
    }

    /// Puts a cell behind all others.
    pub fn push(&mut self, cell: u32)
        requires within { cell < self.old.limit }
        requires new { is_among cell self.old.cells ≡ false }
        ensures { self.new ≡ record self.old { cells = self.old.cells ++ cell ∷ [] } }
    {
        let last = self.prev[self.none as usize];
        self.next[last as usize] = cell;
        self.prev[cell as usize] = last;
        self.next[cell as usize] = self.none;
        self.prev[self.none as usize] = cell;
        self.count += 1;
    }

    /// Takes a cell out.
    pub fn remove(&mut self, cell: u32)
        requires { is_among cell self.old.cells ≡ true }
        ensures { self.new ≡ record self.old { cells = without cell self.old.cells } }
    {
        let next = self.next[cell as usize];
        let prev = self.prev[cell as usize];
        self.next[prev as usize] = next;
        self.prev[next as usize] = prev;
        self.count -= 1;
    }

    /// Moves a cell behind all others.
    pub fn touch(&mut self, cell: u32)
        requires { is_among cell self.old.cells ≡ true }
        ensures { self.new
            ≡ record self.old { cells = without cell self.old.cells ++ cell ∷ [] } }
    {
        // The links say that a cell lies below the limit, and stands once: the value is opened for
        // that.
        let _links = &self.next;
        self.remove(cell);
        self.push(cell);
    }
}
