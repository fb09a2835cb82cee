//! A table of contexts whose slots stay where they are.
ghost use Rattle.std.specs.Prelude.{◌≡◌, ◌≢◌, ℕ, ◌+◌, ◌<◌, ◌≤◌, ◌↔◌, List, [], ◌∷◌, IfOk, IfSome};
ghost use Rattle.std.specs.Prelude.{IsSome, IsSomeAnd, IsTrue, is_some, is_none, None, Some, false};
ghost use Rattle.std.specs.Prelude.{if◌then◌else◌, ◌++◌, length, slice_get};
ghost use Rattle.seq_window.specs.Marks.{Shows, verdict_of};
ghost use Rattle.context_table.specs.Slots.{IsOpened, is_whole};
ghost use Rattle.context_table.specs.Places.{slot_at, live_of, KeepsOthers, phase_of, is_complete};
ghost use Rattle.context_table.specs.Places.{state_of, held_after, with_state, settled_as, WideAt};
ghost use Rattle.context_table.specs.Places.{HasValue, IsHeld, ShowsAt, width_at, IsFreshAt, Marks};
ghost use Rattle.context_table.specs.Places.{IsPast, IsWaiting};
ghost use Rattle.context_table.specs.Queues.{touched};
ghost use Rattle.use_order.specs.Orders.{without};

use crate::order::{find, first_past, turn};
use crate::queue::{earlier, first_end, first_waiting, leave, touch_if};
use crate::slot::{
    Phase, Slot, SlotState, begin_slot, clear_slot, hold_slot, is_complete, mark_slot, phase_in,
    set_state, settle_slot, value_in,
};
use sec_base::{Moment, NoMemory};
use seq_window::{Verdict, Window};
use std::alloc::Global;
use std::marker::Model;
use use_order::UseOrder;

/// A map from the ids of contexts to their slots.
///
/// Contracts see a `Places`, and read it by `slot_at`.
#[derive(Drop)]
pub struct Table<N, S> {
    limit: usize,
    width: u32,
    live: usize,
    order: Vec<u32>,
    slots: Vec<Slot<N, S>>,
    opening: UseOrder,
    used: UseOrder,
    soonest: Moment,
}

impl<N, S> Model for Table<N, S> {
    ghost use Rattle.context_table.specs.Places.{Places};
    ghost use Rattle.context_table.specs.Queues.{table_of, IsAging};

    ghost Value = { Places N S };

    ghost view = { λ t. table_of t.limit t.width t.live t.order.items t.slots.items t.used.cells };

    ghost invariant = { λ t. IsAging t.limit t.width t.live t.order.items t.slots.items
        t.opening t.used t.soonest };
}

impl<N: Drop, S: Drop> Table<N, S> {
    /// A table with room for `limit` contexts, whose windows have this width.
    pub fn new(alloc: Global, limit: usize, width: u32) -> Result<Table<N, S>, NoMemory>
        requires few { limit ≤ 65536 }
        requires some { 0 < width }
        requires narrow { width ≤ 1024 }
        ensures limit { IfOk result (λ table. table.limit ≡ limit) }
        ensures width { IfOk result (λ table. table.width ≡ width) }
        ensures empty { IfOk result (λ table. table.slots ≡ []) }
        ensures unused { IfOk result (λ table. table.used ≡ []) }
    {
        let mut order = Vec::with_capacity(alloc, limit)?;
        let mut slots = Vec::with_capacity(alloc, limit)?;
        let opening = UseOrder::new(alloc, limit as u32)?;
        let used = UseOrder::new(alloc, limit as u32)?;
        for cell in 0..limit as u32 {
            let window = Window::new(alloc, width)?;
            order.push_reserved(cell);
            slots.push_reserved(Slot {
                id: 0,
                state: SlotState::Held,
                ends: Moment::greatest(),
                window,
            });
        }
        Ok(Table {
            limit,
            width,
            live: 0,
            order,
            slots,
            opening,
            used,
            soonest: Moment::greatest(),
        })
    }

    /// How many contexts live.
    pub fn live(&self) -> usize
        ensures value { result ≡ live_of self.now }
        ensures most { result ≤ self.now.limit }
    {
        self.live
    }

    /// What lives under an id.
    pub fn phase(&self, id: u64) -> Phase
        ensures { result ≡ phase_of (slot_at self.now id) }
    {
        match find(self.order.as_slice(), self.slots.as_slice(), self.live, id) {
            None => Phase::None,
            Some(place) => phase_in(&self.slots[self.order[place] as usize].state),
        }
    }

    /// Opens a context that negotiates, with this state.
    pub fn open(&mut self, id: u64, state: N, ends: Moment)
        requires room { live_of self.old < self.old.limit }
        requires above { (other : ℕ) → IsSome (slot_at self.old other) → other < id }
        ensures slot { IsSomeAnd (slot_at self.new id)
            (λ slot. IsOpened slot id (SlotState.Negotiating state) ends self.old.width) }
        ensures others { KeepsOthers self.old self.new id }
        ensures live { live_of self.new ≡ live_of self.old + 1 }
        ensures used { self.new.used ≡ self.old.used }
    {
        self.begin(id, SlotState::Negotiating(state), ends);
    }

    /// Opens a context that negotiates, with its state in the caller's hands.
    pub fn open_held(&mut self, id: u64, ends: Moment)
        requires room { live_of self.old < self.old.limit }
        requires above { (other : ℕ) → IsSome (slot_at self.old other) → other < id }
        ensures slot { IsSomeAnd (slot_at self.new id)
            (λ slot. IsOpened slot id SlotState.Held ends self.old.width) }
        ensures others { KeepsOthers self.old self.new id }
        ensures live { live_of self.new ≡ live_of self.old + 1 }
        ensures used { self.new.used ≡ self.old.used }
    {
        self.begin(id, SlotState::Held, ends);
    }

    fn begin(&mut self, id: u64, state: SlotState<N, S>, ends: Moment)
        requires room { live_of self.old < self.old.limit }
        requires unsettled { is_whole state ≡ false }
        requires above { (other : ℕ) → IsSome (slot_at self.old other) → other < id }
        ensures slot { IsSomeAnd (slot_at self.new id)
            (λ slot. IsOpened slot id state ends self.old.width) }
        ensures others { KeepsOthers self.old self.new id }
        ensures live { live_of self.new ≡ live_of self.old + 1 }
        ensures used { self.new.used ≡ self.old.used }
    {
        let cell = self.order[self.live] as usize;
        begin_slot(&mut self.slots[cell], id, state, ends);
        self.opening.push(cell as u32);
        self.soonest = earlier(self.soonest, ends);
        self.live += 1;
    }

    /// Takes the state of a context that negotiates; it is held from then on.
    pub fn take(&mut self, id: u64) -> Option<N>
        ensures state { result ≡ state_of (slot_at self.old id) }
        ensures slot { slot_at self.new id ≡ held_after (slot_at self.old id) }
        ensures others { KeepsOthers self.old self.new id }
        ensures live { live_of self.new ≡ live_of self.old }
        ensures used { self.new.used ≡ self.old.used }
    {
        match find(self.order.as_slice(), self.slots.as_slice(), self.live, id) {
            None => None,
            Some(place) => {
                let cell = self.order[place] as usize;
                hold_slot(&mut self.slots[cell])
            }
        }
    }

    /// Gives a held context its state back, or the one after it.
    pub fn put_back(&mut self, id: u64, state: N)
        requires { IsHeld (slot_at self.old id) }
        ensures slot { slot_at self.new id
            ≡ with_state (slot_at self.old id) (SlotState.Negotiating state) }
        ensures others { KeepsOthers self.old self.new id }
        ensures live { live_of self.new ≡ live_of self.old }
        ensures used { self.new.used ≡ self.old.used }
    {
        match find(self.order.as_slice(), self.slots.as_slice(), self.live, id) {
            None => unreachable!(),
            Some(place) => {
                let cell = self.order[place] as usize;
                set_state(&mut self.slots[cell], SlotState::Negotiating(state));
            }
        }
    }

    /// Completes a held context with this value, which has this end.
    pub fn settle(&mut self, id: u64, value: S, ends: Moment)
        requires { IsHeld (slot_at self.old id) }
        ensures slot { slot_at self.new id
            ≡ settled_as (slot_at self.old id) (SlotState.Complete value) ends }
        ensures others { KeepsOthers self.old self.new id }
        ensures live { live_of self.new ≡ live_of self.old }
        ensures used { self.new.used ≡ self.old.used ++ id ∷ [] }
    {
        match find(self.order.as_slice(), self.slots.as_slice(), self.live, id) {
            None => unreachable!(),
            Some(place) => {
                let cell = self.order[place] as usize;
                settle_slot(&mut self.slots[cell], SlotState::Complete(value), ends);
                self.opening.remove(cell as u32);
                self.used.push(cell as u32);
                self.soonest = earlier(self.soonest, ends);
            }
        }
    }

    /// The value of a complete context and its end, None exactly where there is no such.
    pub fn get(&self, id: u64) -> Option<(&S, Moment)>
        ensures some { is_some result ≡ is_complete (slot_at self.now id) }
        ensures value { IfSome result
            (λ found. HasValue (slot_at self.now id) found.0.now found.1) }
    {
        match self.read(id) {
            None => None,
            Some((value, ends)) => Some((value, *ends)),
        }
    }

    /// The same, with the end where it lies.
    pub fn read(&self, id: u64) -> Option<(&S, &Moment)>
        ensures some { is_some result ≡ is_complete (slot_at self.now id) }
        ensures value { IfSome result
            (λ found. HasValue (slot_at self.now id) found.0.now found.1.now) }
    {
        match find(self.order.as_slice(), self.slots.as_slice(), self.live, id) {
            None => None,
            Some(place) => value_in(&self.slots[self.order[place] as usize]),
        }
    }

    /// What the window of a context says of a number, None exactly where the id has no context.
    pub fn judge(&self, id: u64, n: u32) -> Option<Verdict>
        ensures some { is_some result ≡ is_some (slot_at self.now id) }
        ensures verdict { IfSome
            result (λ verdict. (numbers : List ℕ) → ShowsAt (slot_at self.now id) numbers
            → verdict ≡ verdict_of (width_at (slot_at self.now id)) numbers n) }
        ensures fresh { result ≡ Some Verdict.Fresh → IsFreshAt (slot_at self.now id) n }
    {
        match find(self.order.as_slice(), self.slots.as_slice(), self.live, id) {
            None => None,
            Some(place) => Some(self.slots[self.order[place] as usize].window.judge(n)),
        }
    }

    /// Marks a number that is fresh in the window of a context.
    pub fn mark(&mut self, id: u64, n: u32)
        requires { IsFreshAt (slot_at self.old id) n }
        ensures slot { Marks (slot_at self.old id) (slot_at self.new id) n }
        ensures others { KeepsOthers self.old self.new id }
        ensures live { live_of self.new ≡ live_of self.old }
        ensures used { self.new.used ≡ touched id self.old.used }
    {
        match find(self.order.as_slice(), self.slots.as_slice(), self.live, id) {
            None => unreachable!(),
            Some(place) => {
                let cell = self.order[place] as usize;
                let whole = is_complete(&self.slots[cell]);
                touch_if(&mut self.used, whole, cell as u32);
                mark_slot(&mut self.slots[cell], n);
            }
        }
    }

    /// Ends a context, whatever its phase; true exactly where there was one.
    pub fn end(&mut self, id: u64) -> bool
        requires { WideAt self.old.width (slot_at self.old id) }
        ensures lived { result ≡ is_some (slot_at self.old id) }
        ensures gone { slot_at self.new id ≡ None }
        ensures others { KeepsOthers self.old self.new id }
        ensures live { live_of self.new + (if result then 1 else 0) ≡ live_of self.old }
        ensures used { self.new.used ≡ without id self.old.used }
    {
        match find(self.order.as_slice(), self.slots.as_slice(), self.live, id) {
            None => false,
            Some(place) => {
                let cell = self.order[place] as usize;
                let whole = is_complete(&self.slots[cell]);
                leave(&mut self.opening, &mut self.used, whole, cell as u32);
                clear_slot(&mut self.slots[cell]);
                turn(&mut self.order, place, self.live);
                self.live -= 1;
                true
            }
        }
    }

    /// How many contexts are complete.
    pub fn whole(&self) -> usize
        ensures { result ≡ length self.now.used }
    {
        self.used.len()
    }

    /// The complete context that was used longest ago, None where none is complete.
    pub fn oldest(&self) -> Option<u64>
        ensures { result ≡ slice_get self.now.used 0 }
    {
        match self.used.first() {
            None => None,
            Some(cell) => Some(self.slots[cell as usize].id),
        }
    }

    /// The least id whose context negotiates and isn't held, None where there is none.
    pub fn waiting(&self) -> Option<u64>
        ensures { IsWaiting self.now result }
    {
        first_waiting(&self.opening, self.slots.as_slice())
    }

    /// Looks for the end that comes first, unless `now` lies before all that was known of: `past`
    /// reads no context until then.
    pub fn look_ahead(&mut self, now: Moment)
        ensures { self.new ≡ self.old }
    {
        if self.soonest.total() < now.total() {
            self.soonest = first_end(self.order.as_slice(), self.slots.as_slice(), self.live);
        }
    }

    /// The least id whose end lies before `now`, None where there is none.
    pub fn past(&self, now: Moment) -> Option<u64>
        ensures { IsPast self.now now result }
    {
        if now.total() <= self.soonest.total() {
            return None;
        }
        first_past(self.order.as_slice(), self.slots.as_slice(), self.live, now)
    }
}

impl<N: Drop, S: Drop> Table<N, S> {
    ghost use Rattle.std.specs.Borrow.{LendsIf, sem};
    ghost use Rattle.seq_window.specs.contracts.window.Window.{the_row as window_row};
    ghost use Rattle.context_table.specs.contracts.table.Table.{the_row};
    ghost use Rattle.context_table.specs.Lending.{with_window, IsWindowOf};

    /// Lends the window of a complete context, None exactly where there is no such.
    pub fn window(&mut self, id: u64) -> Option<&mut Window>
        ensures* lends { sem 𝓛 (LendsIf (the_row N.row S.row) window_row self.entry result
            (with_window self.entry.now id) self.entry.now) }
        ensures some { is_some result ≡ is_complete (slot_at self.old id) }
        ensures value { IfSome result (IsWindowOf (slot_at self.old id)) }
    {
        match find(self.order.as_slice(), self.slots.as_slice(), self.live, id) {
            None => None,
            Some(place) => {
                let cell = self.order[place] as usize;
                if !is_complete(&self.slots[cell]) {
                    return None;
                }
                let slot = &mut self.slots[cell];
                Some(&mut slot.window)
            }
        }
    }
}
