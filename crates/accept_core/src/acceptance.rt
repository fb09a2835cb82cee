//! The acceptance history as a plain sequential object.
ghost use Rattle.std.specs.Prelude.{◌≡◌, ◌≢◌, ℕ, ◌+◌, ◌<◌, ◌≤◌, ◌↔◌, [], ◌∷◌, Option, IfOk, IfSome};
ghost use Rattle.std.specs.Prelude.{IsSome, IsOk, is_some, is_none, is_ok, None, Some, Ok, Err};
ghost use Rattle.std.specs.Prelude.{length, reverse, max, ◌==◌, ◌||◌, true, false, IfErr, OnErr};
ghost use Rattle.std.specs.Prelude.{if◌then◌else◌, ◌&&◌, nat_lt, nat_le};
ghost use Rattle.context_table.specs.declared.slot.SlotState.{SlotState};
ghost use Rattle.seq_window.specs.Marks.{Shows};
ghost use Rattle.context_table.specs.Places.{slot_at, live_of, KeepsOthers, phase_of, is_complete};
ghost use Rattle.context_table.specs.Places.{state_of, held_after, IsHeld, IsFreshAt};
ghost use Rattle.context_table.specs.Places.{Marks, with_state, settled_as, HasValue};
ghost use Rattle.accept_core.specs.declared.entry.Entry.{Entry};
ghost use Rattle.accept_core.specs.History.{standing, has_auth, opened, taken_of};
ghost use Rattle.accept_core.specs.Legal.{Legal, MayCall, MayEnd};
ghost use Rattle.gss_base.specs.Mech.{is_kerberos};
ghost use Rattle.replay_cache.specs.Taking.{cache_verdict};
ghost use Rattle.accept_core.specs.Logs.{greatest_log};
ghost use Rattle.accept_core.specs.Replays.{Keeps, Replays, end_of_opened};
ghost use Rattle.accept_core.specs.Answers.{refused, or_refused, after, receipt_of, Free};
ghost use Rattle.accept_core.specs.Answers.{taken_by, LooksBy};
ghost use Rattle.accept_core.specs.Phases.{PhaseBy};
ghost use Rattle.accept_core.specs.Ready.{ReadyFor};
ghost use Rattle.accept_core.specs.Naming.{NamedBy, IsValueAt};
ghost use Rattle.accept_core.specs.Aging.{in_use, most_whole};
ghost use Rattle.accept_core.specs.Stepping.{settles, is_crowded, is_full, IsNext, Goes, goes_by};
ghost use Rattle.accept_core.specs.Stepping.{IsNoRoom, kept_slot, context_of};
ghost use Rattle.accept_core.specs.Stepping.{context_after, slot_after, until_of, SameWindow};
ghost use Rattle.accept_core.specs.Stepping.{Stays};
ghost use Rattle.accept_core.specs.Entering.{id_of, lapsed, started, noted, finished, entered};
ghost use Rattle.accept_core.specs.Entering.{mark_refused_in, after_mark, auth_of, auth_after};
ghost use Rattle.accept_core.specs.Entering.{SettlesBy, given, gained};

use crate::answer::{
    AdmitRefusal, Entered, LookRefusal, MarkRefusal, Next, RoomRefusal, TakeRefusal,
};
use crate::entry::{EndCause, Entry, Limits, Receipt, Receipts};
use crate::log::Log;
use crate::named::Named;
use context_table::{Phase, Table};
use gss_base::{Mark, MechKind};
use replay_cache::{Cache, CacheVerdict, SKEW};
use sec_base::{Moment, NoMemory};
use seq_window::Verdict;
use std::alloc::Global;
use std::marker::Model;

/// The contexts, the marks and the log of an acceptor, kept together.
///
/// Contracts see an `Accepting`, whose history is the log, newest entry first.
#[derive(Drop)]
pub struct Core<N, S: Named> {
    log: Log,
    given: u64,
    most: usize,
    table: Table<N, S>,
    cache: Cache,
}

impl<N, S: Named> Model for Core<N, S> {
    ghost use Rattle.std.specs.Prelude.{reverse};
    ghost use Rattle.accept_core.specs.Replays.{Accepting, IsCore};

    ghost Value = { Accepting N S };

    ghost view = { λ c. record {
      history = reverse c.log.entries;
      limit = c.log.limit;
      width = c.log.width;
      keeping = c.log.keeping;
      table = c.table;
      cache = c.cache;
    } };

    ghost invariant = { λ c. IsCore (record { mech = S.mech_of; names = S.names_of })
        c.log c.given c.most c.table c.cache };
}

impl<N: Drop, S: Named + Drop> Core<N, S> {
    /// An acceptor with these limits, which has seen the moment `start`. It takes all memory here.
    pub fn new(alloc: Global, limits: Limits, start: Moment) -> Result<Core<N, S>, NoMemory>
        requires contexts { limits.contexts ≤ 65536 }
        requires some_mark { 0 < limits.marks }
        requires marks { limits.marks ≤ 1000000 }
        requires entries { limits.log ≤ greatest_log }
        requires some_width { 0 < limits.width }
        requires width { limits.width ≤ 1024 }
        ensures history { IfOk result (λ core. core.history ≡ []) }
        ensures limit { IfOk result (λ core. core.limit ≡ limits.log) }
        ensures width { IfOk result (λ core. core.width ≡ limits.width) }
        ensures keeping { IfOk result (λ core. core.keeping ≡ limits.keeping) }
        ensures contexts { IfOk result (λ core. core.table.limit ≡ limits.contexts) }
        ensures empty { IfOk result (λ core. core.table.slots ≡ []) }
        ensures marks { IfOk result (λ core. core.cache.capacity ≡ limits.marks) }
        ensures greatest { IfOk result (λ core. core.cache.greatest ≡ start) }
    {
        let log = Log::open(alloc, &limits)?;
        let table = Table::new(alloc, limits.contexts, limits.width)?;
        let cache = Cache::new(alloc, limits.marks, start)?;
        Ok(Core {
            log,
            given: 0,
            most: most_whole(limits.contexts),
            table,
            cache,
        })
    }

    /// What lives under an id.
    pub fn phase(&self, id: u64) -> Phase
        ensures phase { result ≡ phase_of (slot_at self.now.table id) }
        ensures stands { PhaseBy (standing id self.now.history) result }
    {
        self.table.phase(id)
    }

    /// Admits a call of a complete context with a number that is fresh.
    pub fn admit(
        &mut self,
        id: u64,
        seq: u32,
        procedure: u32,
        args: [u8; 20],
    ) -> Result<Receipt, AdmitRefusal>
        ensures answer { result
            ≡ or_refused (refused self.old.limit self.old.width self.old.history id seq)
            (receipt_of self.old.history (Entry.Call id seq procedure args)) }
        ensures history { self.new.history
            ≡ after (refused self.old.limit self.old.width self.old.history id seq)
            (Entry.Call id seq procedure args) self.old.history }
        ensures exactly { IsOk result
            ↔ Free self.old.limit self.old.width self.old.history id seq }
        ensures unchanged { OnErr result (self.new ≡ self.old) }
        ensures keeps { Keeps self.old self.new }
        ensures others { KeepsOthers self.old.table self.new.table id }
        ensures slot { IsOk result
            → Marks (slot_at self.old.table id) (slot_at self.new.table id) seq }
    {
        match self.refusal(id, seq) {
            Some(refusal) => Err(refusal),
            None => {
                let place = self.log.len();
                self.call(id, seq, procedure, args);
                let entry = Entry::Call {
                    id,
                    seq,
                    procedure,
                    args,
                };
                Ok(Receipt { place, entry })
            }
        }
    }

    /// Takes note of a moment.
    pub fn raise(&mut self, now: Moment)
        ensures history { self.new.history ≡ self.old.history }
        ensures limit { self.new.limit ≡ self.old.limit }
        ensures width { self.new.width ≡ self.old.width }
        ensures keeping { self.new.keeping ≡ self.old.keeping }
        ensures table { self.new.table ≡ self.old.table }
        ensures capacity { self.new.cache.capacity ≡ self.old.cache.capacity }
        ensures greatest { self.new.cache.greatest ≡ max self.old.cache.greatest now }
    {
        self.cache.raise(now);
    }

    // Adds a call.
    fn call(&mut self, id: u64, seq: u32, procedure: u32, args: [u8; 20])
        requires may { MayCall self.old.width self.old.history id seq }
        requires room { length self.old.history < self.old.limit }
        requires fresh { IsFreshAt (slot_at self.old.table id) seq }
        ensures history { self.new.history ≡ Entry.Call id seq procedure args ∷ self.old.history }
        ensures keeps { Keeps self.old self.new }
        ensures others { KeepsOthers self.old.table self.new.table id }
        ensures slot { Marks (slot_at self.old.table id) (slot_at self.new.table id) seq }
    {
        self.table.mark(id, seq);
        self.log.add(Entry::Call {
            id,
            seq,
            procedure,
            args,
        });
    }

    /// Ends a complete context by a call with a number that is fresh.
    pub fn end(&mut self, id: u64, seq: u32) -> Result<Receipt, AdmitRefusal>
        ensures answer { result
            ≡ or_refused (refused self.old.limit self.old.width self.old.history id seq)
            (receipt_of self.old.history (Entry.Ended id (EndCause.Destroyed seq))) }
        ensures history { self.new.history
            ≡ after (refused self.old.limit self.old.width self.old.history id seq)
            (Entry.Ended id (EndCause.Destroyed seq)) self.old.history }
        ensures exactly { IsOk result
            ↔ Free self.old.limit self.old.width self.old.history id seq }
        ensures unchanged { OnErr result (self.new ≡ self.old) }
        ensures keeps { Keeps self.old self.new }
        ensures others { KeepsOthers self.old.table self.new.table id }
        ensures gone { IsOk result → slot_at self.new.table id ≡ None }
    {
        match self.refusal(id, seq) {
            Some(refusal) => Err(refusal),
            None => Ok(self.close(id, EndCause::Destroyed { seq })),
        }
    }

    /// Ends a context whose step was refused.
    pub fn refuse(&mut self, id: u64) -> Receipt
        requires held { IsHeld (slot_at self.old.table id) }
        requires room { length self.old.history < self.old.limit }
        ensures receipt { result ≡ receipt_of self.old.history (Entry.Ended id EndCause.Refused) }
        ensures history { self.new.history ≡ Entry.Ended id EndCause.Refused ∷ self.old.history }
        ensures keeps { Keeps self.old self.new }
        ensures others { KeepsOthers self.old.table self.new.table id }
        ensures gone { slot_at self.new.table id ≡ None }
    {
        // The history says that a held context is open: the value is opened for that.
        let _log = &self.log;
        self.close(id, EndCause::Refused)
    }

    // Ends a context for a cause that the history allows.
    fn close(&mut self, id: u64, cause: EndCause) -> Receipt
        requires may { MayEnd self.old.width self.old.history id cause }
        requires room { length self.old.history < self.old.limit }
        ensures receipt { result ≡ receipt_of self.old.history (Entry.Ended id cause) }
        ensures history { self.new.history ≡ Entry.Ended id cause ∷ self.old.history }
        ensures keeps { Keeps self.old self.new }
        ensures others { KeepsOthers self.old.table self.new.table id }
        ensures gone { slot_at self.new.table id ≡ None }
        ensures live { live_of self.new.table
            + (if is_some (slot_at self.old.table id) then 1 else 0) ≡ live_of self.old.table }
    {
        let place = self.log.len();
        let _ = self.table.end(id);
        self.log.add(Entry::Ended { id, cause });
        Receipt {
            place,
            entry: Entry::Ended { id, cause },
        }
    }

    // Opens a context, whose state is in the caller's hands.
    fn open(&mut self) -> u64
        requires live { live_of self.old.table < self.old.table.limit }
        requires room { length self.old.history < self.old.limit }
        ensures id { result ≡ opened self.old.history + 1 }
        ensures history { self.new.history
            ≡ Entry.Opened result self.old.cache.greatest ∷ self.old.history }
        ensures keeps { Keeps self.old self.new }
        ensures held { IsHeld (slot_at self.new.table result) }
        ensures auth { has_auth result self.new.history ≡ false }
        ensures others { KeepsOthers self.old.table self.new.table result }
        ensures context { context_of (slot_at self.new.table result)
            ≡ Some (record {
              state = SlotState.Held;
              ends = end_of_opened self.old.cache.greatest;
            }) }
        ensures window { IfSome (slot_at self.new.table result) (λ slot. Shows slot.window []) }
    {
        let id = self.given + 1;
        let now = self.cache.greatest();
        self.table.open_held(id, now.later(SKEW));
        self.log.add(Entry::Opened { id, at: now });
        self.given = id;
        id
    }

    // Which context goes for a step, where one does.
    fn victim(&self, first: bool, settles: bool) -> Option<u64>
        ensures goes { Goes settles first self.now.history self.now.table self.now.cache.greatest
            result }
        ensures few { live_of self.now.table ≤ self.now.table.limit }
    {
        let live = self.table.live();
        if self.is_crowded(settles) {
            return self.table.oldest();
        }
        if first && self.log.contexts() <= live as u64 {
            return self.next();
        }
        None
    }

    // The context that gives its place to a new one: one that is past its end, else the one that
    // waits and was opened first. In a table of one place none waits for that.
    fn next(&self) -> Option<u64>
        ensures { IsNext self.now.table self.now.cache.greatest result }
    {
        match self.table.past(self.cache.greatest()) {
            Some(id) => Some(id),
            None => {
                if self.log.contexts() < 2 {
                    None
                } else {
                    self.table.waiting()
                }
            }
        }
    }

    // Whether no context gives its place to a new one. One that waits is found at once, so the ends
    // are looked at only where none does.
    fn has_no_next(&self) -> bool
        ensures next { result ≡ true → IsNext self.now.table self.now.cache.greatest None }
        ensures none { IsNext self.now.table self.now.cache.greatest None → result ≡ true }
    {
        if 1 < self.log.contexts() {
            match self.table.waiting() {
                Some(_) => return false,
                None => {}
            }
        }
        match self.table.past(self.cache.greatest()) {
            Some(_) => false,
            None => true,
        }
    }

    // Where a first token finds no free place: that none is past its end is known without a walk
    // until one is.
    fn look_ahead(&mut self, first: bool, settles: bool)
        ensures { self.new ≡ self.old }
    {
        if self.is_full(first) && !self.is_crowded(settles) {
            self.table.look_ahead(self.cache.greatest());
        }
    }

    // Ends the context that goes for a step.
    fn let_go(&mut self, first: bool, settles: bool)
        requires room { length self.old.history < self.old.limit }
        ensures history { (gone : Option ℕ)
            → Goes settles first self.old.history self.old.table self.old.cache.greatest gone
            → self.new.history ≡ lapsed gone self.old.history }
        ensures keeps { Keeps self.old self.new }
        ensures place { first ≡ true → (IsNoRoom self.old.table self.old.cache.greatest → ⊥)
            → live_of self.new.table < self.new.table.limit }
        ensures share { settles ≡ true
            → length (in_use self.new.history) < most_whole self.new.table.limit }
        ensures held { first ≡ false → (id : ℕ) → IsHeld (slot_at self.old.table id)
            → slot_at self.new.table id ≡ slot_at self.old.table id }
        ensures given { opened self.new.history ≡ opened self.old.history }
        ensures taken { taken_of self.new.history ≡ taken_of self.old.history }
        ensures grows { length self.old.history ≤ length self.new.history }
        ensures count { length self.new.history ≤ length self.old.history + 1 }
        ensures slots { (gone : Option ℕ)
            → Goes settles first self.old.history self.old.table self.old.cache.greatest gone
            → (other : ℕ) → slot_at self.new.table other
            ≡ kept_slot gone other (slot_at self.old.table other) }
        ensures stays { (other : ℕ)
            → Stays (slot_at self.old.table other) (slot_at self.new.table other) }
        ensures auths { (other : ℕ)
            → has_auth other self.new.history ≡ has_auth other self.old.history }
        ensures unopened { slot_at self.old.table (opened self.old.history + 1) ≡ None }
    {
        // The history says that what goes lives: the value is opened for that.
        let _log = &self.log;
        match self.victim(first, settles) {
            None => {}
            Some(id) => {
                let _ = self.close(id, EndCause::Lapsed);
            }
        }
    }

    // Ends the context that goes for a step, once the ends of all are known.
    fn make_place(&mut self, first: bool, settles: bool)
        requires room { length self.old.history < self.old.limit }
        ensures history { (gone : Option ℕ)
            → Goes settles first self.old.history self.old.table self.old.cache.greatest gone
            → self.new.history ≡ lapsed gone self.old.history }
        ensures keeps { Keeps self.old self.new }
        ensures place { first ≡ true → (IsNoRoom self.old.table self.old.cache.greatest → ⊥)
            → live_of self.new.table < self.new.table.limit }
        ensures share { settles ≡ true
            → length (in_use self.new.history) < most_whole self.new.table.limit }
        ensures held { first ≡ false → (id : ℕ) → IsHeld (slot_at self.old.table id)
            → slot_at self.new.table id ≡ slot_at self.old.table id }
        ensures given { opened self.new.history ≡ opened self.old.history }
        ensures taken { taken_of self.new.history ≡ taken_of self.old.history }
        ensures grows { length self.old.history ≤ length self.new.history }
        ensures count { length self.new.history ≤ length self.old.history + 1 }
        ensures slots { (gone : Option ℕ)
            → Goes settles first self.old.history self.old.table self.old.cache.greatest gone
            → (other : ℕ) → slot_at self.new.table other
            ≡ kept_slot gone other (slot_at self.old.table other) }
        ensures stays { (other : ℕ)
            → Stays (slot_at self.old.table other) (slot_at self.new.table other) }
        ensures auths { (other : ℕ)
            → has_auth other self.new.history ≡ has_auth other self.old.history }
        ensures unopened { slot_at self.old.table (opened self.old.history + 1) ≡ None }
    {
        self.look_ahead(first, settles);
        self.let_go(first, settles);
    }

    // The context of a step, once the one that goes for it has ended: a first token opens one.
    fn start(&mut self, id: Option<u64>, settles: bool) -> u64
        requires ready { ReadyFor self.old id }
        ensures id { result ≡ id_of id self.old.history }
        ensures history { (gone : Option ℕ) → Goes settles (is_none id) self.old.history
            self.old.table self.old.cache.greatest gone
            → self.new.history ≡ started id gone self.old.cache.greatest self.old.history }
        ensures keeps { Keeps self.old self.new }
        ensures share { settles ≡ true
            → length (in_use self.new.history) < most_whole self.new.table.limit }
        ensures held { IsHeld (slot_at self.new.table result) }
        ensures taken { taken_of self.new.history ≡ taken_of self.old.history }
        ensures auth { has_auth result self.new.history ≡ auth_of id self.old.history }
        ensures grows { length self.old.history ≤ length self.new.history }
        ensures count { length self.new.history ≤ length self.old.history + 2 }
        ensures slots { (gone : Option ℕ) → Goes settles (is_none id) self.old.history
            self.old.table self.old.cache.greatest gone
            → (other : ℕ) → result ≢ other → slot_at self.new.table other
            ≡ kept_slot gone other (slot_at self.old.table other) }
        ensures stays { (other : ℕ) → result ≢ other
            → Stays (slot_at self.old.table other) (slot_at self.new.table other) }
        ensures auths { (other : ℕ)
            → has_auth other self.new.history ≡ has_auth other self.old.history }
        ensures context { context_of (slot_at self.new.table result)
            ≡ Some (record {
              state = SlotState.Held;
              ends = until_of id self.old.cache.greatest self.old.table;
            }) }
        ensures window { SameWindow (slot_at self.old.table result)
            (slot_at self.new.table result) }
    {
        let first = id.is_none();
        self.make_place(first, settles);
        match id {
            Some(id) => id,
            None => self.open(),
        }
    }

    // Takes the mark of a step, where it has one.
    fn note(&mut self, id: u64, mark: Option<Mark>)
        requires held { IsHeld (slot_at self.old.table id) }
        requires room { length self.old.history < self.old.limit }
        requires first { IsSome mark → has_auth id self.old.history ≡ false }
        requires verdict { mark_refused_in self.old mark ≡ None }
        ensures history { self.new.history
            ≡ noted mark id self.old.cache.greatest self.old.history }
        ensures keeps { Keeps self.old self.new }
        ensures table { self.new.table ≡ self.old.table }
        ensures auth { has_auth id self.new.history
            ≡ (is_some mark || has_auth id self.old.history) }
        ensures auths { (other : ℕ) → id ≢ other
            → has_auth other self.new.history ≡ has_auth other self.old.history }
        ensures grows { length self.old.history ≤ length self.new.history }
        ensures count { length self.new.history ≤ length self.old.history + 1 }
    {
        match mark {
            None => {}
            Some(mark) => self.auth(id, mark),
        }
    }

    fn auth(&mut self, id: u64, mark: Mark)
        requires held { IsHeld (slot_at self.old.table id) }
        requires room { length self.old.history < self.old.limit }
        requires first { has_auth id self.old.history ≡ false }
        requires verdict { cache_verdict self.old.cache.capacity self.old.cache.greatest
            (taken_of self.old.history) mark ≡ CacheVerdict.Taken }
        ensures history { self.new.history
            ≡ Entry.Auth id mark self.old.cache.greatest ∷ self.old.history }
        ensures keeps { Keeps self.old self.new }
        ensures table { self.new.table ≡ self.old.table }
    {
        let at = self.cache.greatest();
        let place = self.log.len();
        let who = mark.who;
        let stamp = mark.at;
        let _ = self.cache.admit(at, Mark { who, at: stamp }, place);
        let mark = Mark { who, at: stamp };
        self.log.add(Entry::Auth { id, mark, at });
    }

    // What a step makes of its context.
    fn finish(&mut self, id: u64, first: bool, step: Next<N, S>)
        requires held { IsHeld (slot_at self.old.table id) }
        requires room { length self.old.history < self.old.limit }
        requires settles { SettlesBy (record { mech = S.mech_of; names = S.names_of }) step
            (has_auth id self.old.history) }
        requires share { settles step ≡ true
            → length (in_use self.old.history) < most_whole self.old.table.limit }
        ensures history { self.new.history
            ≡ finished first step id self.old.cache.greatest self.old.history }
        ensures keeps { Keeps self.old self.new }
        ensures grows { length self.old.history ≤ length self.new.history }
        ensures count { length self.new.history ≤ length self.old.history + 1 }
        ensures slot { slot_at self.new.table id ≡ slot_after step (slot_at self.old.table id) }
        ensures others { KeepsOthers self.old.table self.new.table id }
        ensures auths { (other : ℕ)
            → has_auth other self.new.history ≡ has_auth other self.old.history }
    {
        match step {
            Next::Going(state) => self.go_on(id, first, state),
            Next::Settled {
                mech,
                names,
                value,
                ends,
            } => self.settle(id, mech, names, value, ends),
        }
    }

    fn go_on(&mut self, id: u64, first: bool, state: N)
        requires held { IsHeld (slot_at self.old.table id) }
        requires room { length self.old.history < self.old.limit }
        ensures history { self.new.history
            ≡ (if first then self.old.history
            else Entry.Went id self.old.cache.greatest ∷ self.old.history) }
        ensures keeps { Keeps self.old self.new }
        ensures slot { slot_at self.new.table id
            ≡ with_state (slot_at self.old.table id) (SlotState.Negotiating state) }
        ensures others { KeepsOthers self.old.table self.new.table id }
        ensures auths { (other : ℕ)
            → has_auth other self.new.history ≡ has_auth other self.old.history }
    {
        if !first {
            self.went(id);
        }
        self.put_back(id, state);
    }

    fn went(&mut self, id: u64)
        requires held { IsHeld (slot_at self.old.table id) }
        requires room { length self.old.history < self.old.limit }
        ensures history { self.new.history
            ≡ Entry.Went id self.old.cache.greatest ∷ self.old.history }
        ensures keeps { Keeps self.old self.new }
        ensures table { self.new.table ≡ self.old.table }
    {
        self.log.add(Entry::Went {
            id,
            at: self.cache.greatest(),
        });
    }

    fn put_back(&mut self, id: u64, state: N)
        requires held { IsHeld (slot_at self.old.table id) }
        ensures history { self.new.history ≡ self.old.history }
        ensures keeps { Keeps self.old self.new }
        ensures slot { slot_at self.new.table id
            ≡ with_state (slot_at self.old.table id) (SlotState.Negotiating state) }
        ensures others { KeepsOthers self.old.table self.new.table id }
    {
        self.table.put_back(id, state);
    }

    fn settle(&mut self, id: u64, mech: MechKind, names: [u8; 20], value: S, ends: Moment)
        requires held { IsHeld (slot_at self.old.table id) }
        requires room { length self.old.history < self.old.limit }
        requires auth { has_auth id self.old.history ≡ is_kerberos mech }
        requires mech { S.mech_of value ≡ mech }
        requires names { S.names_of value ≡ names }
        requires share { length (in_use self.old.history) < most_whole self.old.table.limit }
        ensures history { self.new.history
            ≡ Entry.Settled id mech names ends self.old.cache.greatest ∷ self.old.history }
        ensures keeps { Keeps self.old self.new }
        ensures slot { slot_at self.new.table id
            ≡ settled_as (slot_at self.old.table id) (SlotState.Complete value) ends }
        ensures others { KeepsOthers self.old.table self.new.table id }
    {
        let at = self.cache.greatest();
        self.table.settle(id, value, ends);
        self.log.add(Entry::Settled {
            id,
            mech,
            names,
            ends,
            at,
        });
    }

    // Whether the log has no room for the entries of a step.
    fn is_log_full(&self) -> bool
        ensures { result ≡ nat_lt self.now.limit (length self.now.history + 4) }
    {
        self.log.limit() < self.log.len() + 4
    }

    // Whether a step is a first one, and no place is free.
    fn is_full(&self, first: bool) -> bool
        ensures { result ≡ is_full first self.now.table }
    {
        first && self.log.contexts() <= self.table.live() as u64
    }

    // Whether a step settles, and complete contexts have their share.
    fn is_crowded(&self, settles: bool) -> bool
        ensures { result ≡ is_crowded settles self.now.history self.now.table.limit }
    {
        settles && self.most <= self.table.whole()
    }

    /// Whether a step may be taken, a first one where `first`.
    pub fn room(&self, first: bool) -> Result<(), RoomRefusal>
        ensures log_full { (result ≡ Err RoomRefusal.LogFull)
            ↔ (self.now.limit < length self.now.history + 4) }
        ensures table_full { (result ≡ Err RoomRefusal.TableFull)
            ↔ ((length self.now.history + 4 ≤ self.now.limit) × (first ≡ true)
            × IsNoRoom self.now.table self.now.cache.greatest) }
        ensures places { IsOk result → length self.now.history + 4 ≤ self.now.limit }
        ensures place { IsOk result → first ≡ true
            → IsNoRoom self.now.table self.now.cache.greatest → ⊥ }
    {
        if self.is_log_full() {
            return Err(RoomRefusal::LogFull);
        }
        if self.is_full(first) {
            if self.has_no_next() {
                return Err(RoomRefusal::TableFull);
            }
        }
        Ok(())
    }

    /// Takes the state of a context that negotiates; it is held until `enter` or `refuse`.
    pub fn take(&mut self, id: u64) -> Result<N, TakeRefusal>
        ensures unchanged { OnErr result (self.new ≡ self.old) }
        ensures answer { result
            ≡ taken_by (standing id self.old.history) (state_of (slot_at self.old.table id)) }
        ensures history { self.new.history ≡ self.old.history }
        ensures keeps { Keeps self.old self.new }
        ensures held { IsOk result
            → slot_at self.new.table id ≡ held_after (slot_at self.old.table id) }
        ensures others { KeepsOthers self.old.table self.new.table id }
    {
        match self.table.phase(id) {
            Phase::Negotiating => match self.hold(id) {
                Some(state) => Ok(state),
                None => unreachable!(),
            },
            Phase::Complete => Err(TakeRefusal::AlreadyComplete),
            _ => Err(TakeRefusal::NoContext),
        }
    }

    fn hold(&mut self, id: u64) -> Option<N>
        ensures state { result ≡ state_of (slot_at self.old.table id) }
        ensures history { self.new.history ≡ self.old.history }
        ensures keeps { Keeps self.old self.new }
        ensures slot { slot_at self.new.table id ≡ held_after (slot_at self.old.table id) }
        ensures others { KeepsOthers self.old.table self.new.table id }
    {
        self.table.take(id)
    }

    /// Takes a step: its mark, if one is given, and what it makes of its context, which is a new
    /// one if no id is given.
    pub fn enter(
        &mut self,
        id: Option<u64>,
        mark: Option<Mark>,
        step: Next<N, S>,
    ) -> Result<Entered, MarkRefusal>
        requires ready { ReadyFor self.old id }
        requires first { IsSome mark → auth_of id self.old.history ≡ false }
        requires settles { SettlesBy (record { mech = S.mech_of; names = S.names_of }) step
            (auth_after id mark self.old.history) }

        // The mark is refused by the cache's verdict, and then nothing changed.
        ensures taken { is_ok result ≡ is_none (mark_refused_in self.old mark) }
        ensures refusal { IfErr result (λ refusal. mark_refused_in self.old mark ≡ Some refusal) }
        ensures unchanged { OnErr result (self.new ≡ self.old) }

        // The entries of the step, and their receipts. One context at most goes for it: where it
        // settles and complete ones have their share, the one of them that was used longest ago,
        // else where a first token finds no place, the next.
        ensures history { (next : Option ℕ)
            → (id ≡ None → IsNext self.old.table self.old.cache.greatest next)
            → self.new.history ≡ after_mark (mark_refused_in self.old mark) self.old.history
            (entered id (goes_by id step next self.old.history self.old.table) mark step
            self.old.cache.greatest self.old.history) }
        ensures receipts { IfOk result (λ entered.
            given entered.receipts ≡ gained (length self.old.history) self.new.history) }

        // The step's own context, and all others.
        ensures id { IfOk result (λ entered. entered.id ≡ id_of id self.old.history) }
        ensures context { IfOk result (λ entered.
            context_of (slot_at self.new.table entered.id)
            ≡ Some (context_after (until_of id self.old.cache.greatest self.old.table) step)) }
        ensures window { IfOk result (λ entered.
            SameWindow (slot_at self.old.table entered.id) (slot_at self.new.table entered.id)) }
        ensures others { IfOk result (λ entered.
            (next : Option ℕ) → (id ≡ None → IsNext self.old.table self.old.cache.greatest next)
            → (other : ℕ) → entered.id ≢ other → slot_at self.new.table other
            ≡ kept_slot (goes_by id step next self.old.history self.old.table) other
            (slot_at self.old.table other)) }
        ensures stays { IfOk result (λ entered. (other : ℕ) → entered.id ≢ other
            → Stays (slot_at self.old.table other) (slot_at self.new.table other)) }
        ensures auth { IfOk result (λ entered.
            has_auth entered.id self.new.history ≡ auth_after id mark self.old.history) }
        ensures auths { IfOk result (λ entered. (other : ℕ) → entered.id ≢ other
            → has_auth other self.new.history ≡ has_auth other self.old.history) }
        ensures keeps { Keeps self.old self.new }
    {
        match self.mark_refusal(&mark) {
            Some(refusal) => Err(refusal),
            None => {
                let from = self.log.len();
                let first = id.is_none();
                let settled = is_settled(&step);
                let id = self.start(id, settled);
                self.note(id, mark);
                self.finish(id, first, step);
                let receipts = self.receipts_since(from);
                Ok(Entered { id, receipts })
            }
        }
    }

    // The entries of the log from a place on.
    fn receipts_since(&self, from: u64) -> Receipts
        requires from { from ≤ length self.now.history }
        requires few { length self.now.history ≤ from + 4 }
        ensures { given result ≡ gained from self.now.history }
    {
        self.log.since(from)
    }

    /// The value of a complete context and its end.
    pub fn peek(&self, id: u64, now: Moment) -> Result<(&S, Moment), LookRefusal>
        ensures value { IfOk result (λ found.
            HasValue (slot_at self.now.table id) found.0.now found.1) }
        ensures looks { LooksBy (standing id self.now.history) (slot_at self.now.table id) now
            result }
        ensures named { IfOk result (λ found.
            NamedBy (record { mech = S.mech_of; names = S.names_of })
            (standing id self.now.history) found.0.now found.1) }
    {
        match self.table.read(id) {
            Some((value, ends)) => {
                if ends.total() < now.total() {
                    Err(LookRefusal::Expired)
                } else {
                    Ok((value, *ends))
                }
            }
            None => match self.table.phase(id) {
                Phase::None => Err(LookRefusal::NoContext),
                _ => Err(LookRefusal::NotReady),
            },
        }
    }

    /// The value of a complete context, None exactly where there is no such.
    pub fn value(&self, id: u64) -> Option<&S>
        ensures some { is_some result ≡ is_complete (slot_at self.now.table id) }
        ensures value { IfSome result (λ found. IsValueAt (slot_at self.now.table id) found.now) }
    {
        match self.table.read(id) {
            None => None,
            Some((value, _)) => Some(value),
        }
    }

    /// The log. It is legal, and the table and the cache are what it says.
    pub fn log(&self) -> &Log
        ensures entries { reverse result.now.entries ≡ self.now.history }
        ensures width { result.now.width ≡ self.now.width }
        ensures limit { result.now.limit ≡ self.now.limit }
        ensures keeping { result.now.keeping ≡ self.now.keeping }
        ensures contexts { result.now.contexts ≡ self.now.table.limit }
        ensures marks { result.now.marks ≡ self.now.cache.capacity }
        ensures legal { Legal self.now.width self.now.history }
        ensures replays { Replays (record { mech = S.mech_of; names = S.names_of })
            self.now.width self.now.history self.now.table self.now.cache }
        ensures share { length (in_use self.now.history) ≤ most_whole self.now.table.limit }
    {
        &self.log
    }

    /// The log, for good.
    pub fn into_log(self) -> Log
        ensures entries { reverse result.entries ≡ self.history }
        ensures width { result.width ≡ self.width }
        ensures limit { result.limit ≡ self.limit }
        ensures keeping { result.keeping ≡ self.keeping }
        ensures contexts { result.contexts ≡ self.table.limit }
        ensures marks { result.marks ≡ self.cache.capacity }
        ensures legal { Legal self.width self.history }
    {
        let Core {
            log,
            given: _,
            most: _,
            table: _,
            cache: _,
        } = self;
        log
    }

    // Why a mark may not be taken.
    fn mark_refusal(&self, mark: &Option<Mark>) -> Option<MarkRefusal>
        ensures { result ≡ mark_refused_in self.now mark.now }
    {
        match mark {
            None => None,
            Some(mark) => match self.cache.judge(mark) {
                CacheVerdict::Stale { greatest } => Some(MarkRefusal::Stale { greatest }),
                CacheVerdict::Repeat { place } => Some(MarkRefusal::Repeat { place }),
                CacheVerdict::Full => Some(MarkRefusal::CacheFull),
                CacheVerdict::Taken => None,
            },
        }
    }

    // Why a number of a context may not be called.
    fn refusal(&self, id: u64, seq: u32) -> Option<AdmitRefusal>
        ensures first { result ≡ refused self.now.limit self.now.width self.now.history id seq }
        ensures fresh { result ≡ None → IsFreshAt (slot_at self.now.table id) seq }
    {
        match self.table.get(id) {
            None => return Some(AdmitRefusal::Gone),
            Some(_) => {}
        }
        match self.table.judge(id, seq) {
            None => Some(AdmitRefusal::Gone),
            Some(Verdict::AboveMax) => Some(AdmitRefusal::AboveMax),
            Some(Verdict::Below { last }) => Some(AdmitRefusal::Below { last }),
            Some(Verdict::Repeat) => Some(AdmitRefusal::Repeat),
            Some(Verdict::Fresh) => {
                if self.log.len() < self.log.limit() {
                    None
                } else {
                    Some(AdmitRefusal::LogFull)
                }
            }
        }
    }
}

// How many of so many contexts may be complete.
fn most_whole(limit: usize) -> usize
    requires { limit ≤ 65536 }
    ensures { result ≡ most_whole limit }
{
    (limit * 3 / 4).max(1)
}

// Whether a step makes its context complete.
fn is_settled<N, S>(step: &Next<N, S>) -> bool
    ensures { result ≡ settles step.now }
{
    match step {
        Next::Going(_) => false,
        Next::Settled { .. } => true,
    }
}
