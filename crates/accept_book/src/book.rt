//! The contexts of a server, from their first token to their end, in one history.
ghost use Rattle.std.specs.Prelude.{◌≡◌, ◌≢◌, ◌↔◌, false, ℕ, List, [], ◌∷◌, ◌<◌, ◌≤◌, IfOk, IsSome};
ghost use Rattle.std.specs.Prelude.{None, Some, Err, length, reverse};
ghost use Rattle.gss_base.specs.Mech.{is_kerberos};
ghost use Rattle.spnego_core.specs.Accepting.{IsSettled, accept_step};
ghost use Rattle.spnego_core.specs.Sizes.{ShortAccept};
ghost use Rattle.context_table.specs.Places.{slot_at, phase_of};
ghost use Rattle.accept_core.specs.Phases.{PhaseBy};
ghost use Rattle.accept_core.specs.declared.entry.Entry.{Entry};
ghost use Rattle.accept_core.specs.History.{standing};
ghost use Rattle.accept_core.specs.Entering.{auth_of, auth_after, given, gained};
ghost use Rattle.accept_core.specs.Replays.{Keeps, Replays};
ghost use Rattle.accept_core.specs.Logs.{greatest_log};
ghost use Rattle.accept_core.specs.Legal.{Legal};
ghost use Rattle.accept_book.specs.BookAnswers.{ComesTo};
ghost use Rattle.accept_book.specs.Tokens.{AwaitsStep, TookToken};
ghost use Rattle.accept_book.specs.Booking.{names_of, by_outcome, Fits, AllFit};
ghost use Rattle.accept_book.specs.Booking.{StepFits, token_size, mark_of, settled_of, stands_of};
ghost use Rattle.accept_book.specs.Booking.{spends, by_step, by_stepped, begun_by, opened_by};
ghost use Rattle.accept_book.specs.Booking.{taken, negotiated, refusal_of_mark, has_key};
ghost use Rattle.accept_book.specs.Booking.{with_setup};
ghost use Rattle.accept_book.specs.FirstSteps.{IsFirstStep, WasStepped};

use crate::book_answer::{BookRefusal, Lease, NegAnswer, Negotiated};
use accept_core::{
    AdmitRefusal, Core, Limits, Log, LookRefusal, MarkRefusal, Named, Next, Receipt, Receipts,
    RoomRefusal, blank,
};
use context_table::Phase;
use gss_base::{Mark, MechKind};
use krb_derive::Key;
use sec_base::{Moment, NoMemory, Octets};
use sha1::Sha1;
use spnego_core::{AcceptEnd, AcceptSetup, AcceptStep, NegRefusal, Outcome};
use std::alloc::Global;
use std::marker::Model;

/// The digest by which the log knows an outcome.
#[tactic(auto, unfolding(crate::specs::Booking::names_of))]
pub fn names_of(outcome: &Outcome) -> [u8; 20]
    ensures { result ≡ names_of outcome.now }
{
    let mut hasher = Sha1::new();
    hasher.update(outcome.initiator.text().as_bytes());
    hasher.update(&[0]);
    hasher.update(outcome.acceptor.text().as_bytes());
    hasher.update(&[0]);
    hasher.update(outcome.key.bytes());
    hasher.update(&[if outcome.subkey { 1 } else { 0 }]);
    hasher.finalize()
}

/// An outcome as the value of a complete context. Contracts see the outcome.
#[derive(Drop)]
pub struct Agreed {
    outcome: Outcome,
}

impl Model for Agreed {
    ghost use Rattle.spnego_core.specs.declared.outcome.Outcome.{Outcome as OutcomeIs};

    ghost Value = { OutcomeIs };

    ghost view = { λ a. a.outcome };
}

impl Named for Agreed {
    ghost mech_of = { λ o. o.mech };

    ghost names_of = { names_of };

    fn mech(&self) -> MechKind {
        self.outcome.mech
    }

    fn names(&self) -> [u8; 20] {
        names_of(&self.outcome)
    }
}

/// A book of contexts. What its ends are begun with is lent to each call that steps one.
///
/// Contracts see the contexts, marks and log.
#[derive(Drop)]
pub struct Book {
    core: Core<AcceptEnd, Agreed>,
}

impl Model for Book {
    ghost use Rattle.accept_core.specs.Replays.{Accepting};
    ghost use Rattle.spnego_core.specs.declared.accept_end.AcceptEnd.{AcceptEnd as EndIs};
    ghost use Rattle.spnego_core.specs.declared.outcome.Outcome.{Outcome as OutcomeIs};

    ghost Value = { Accepting EndIs OutcomeIs };

    ghost use Rattle.accept_book.specs.Booking.{AllFit};

    ghost view = { λ b. b.core };

    ghost invariant = { λ b. AllFit b.core };
}

// No entry, and one.
fn no_receipts() -> Receipts
    ensures { given result ≡ [] }
{
    Receipts {
        count: 0,
        list: [blank(), blank(), blank(), blank()],
    }
}

fn one_receipt(receipt: Receipt) -> Receipts
    ensures { given result ≡ receipt ∷ [] }
{
    let mut list = [blank(), blank(), blank(), blank()];
    list[0] = receipt;
    Receipts { count: 1, list }
}

// A token that isn't taken once it was read: a later one ends its context.
fn refuse(core: &mut Core<AcceptEnd, Agreed>, id: Option<u64>, answer: NegAnswer) -> Negotiated
    requires ready { AwaitsStep core.old id }
    ensures answer { result.answer ≡ answer }
    ensures comes { ComesTo (stands_of core.old) id
        (λ past. spends id core.old.history answer)
        result core.new }
    ensures keeps { Keeps core.old core.new }
    ensures fits { AllFit core.new }
{
    match id {
        None => Negotiated {
            answer,
            receipts: no_receipts(),
        },
        Some(id) => {
            let receipt = core.refuse(id);
            Negotiated {
                answer,
                receipts: one_receipt(receipt),
            }
        }
    }
}

fn refusal_of_mark(refusal: MarkRefusal) -> BookRefusal
    ensures { result ≡ refusal_of_mark refusal }
{
    match refusal {
        MarkRefusal::Stale { greatest } => BookRefusal::Stale { greatest },
        MarkRefusal::Repeat { place } => BookRefusal::Repeat { place },
        MarkRefusal::CacheFull => BookRefusal::CacheFull,
    }
}

// What a step comes to once it was made. Its mark is given apart.
fn go_on(
    core: &mut Core<AcceptEnd, Agreed>,
    id: Option<u64>,
    mark: Option<Mark>,
    end: AcceptEnd,
    token: Octets,
) -> Negotiated
    requires ready { AwaitsStep core.old id }
    requires first { IsSome mark → auth_of id core.old.history ≡ false }
    requires fits { Fits end (auth_after id mark core.old.history) }
    requires short { length token ≤ 65536 }
    ensures took { TookToken core.old core.new id
        (λ past. taken (stands_of core.old) id past mark (AcceptStep.More end token)) result }
    ensures memory { result.answer ≢ NegAnswer.NoMemory }
{
    match core.enter(id, mark, Next::Going(end)) {
        Ok(entered) => Negotiated {
            answer: NegAnswer::Going {
                id: entered.id,
                token,
            },
            receipts: entered.receipts,
        },
        Err(refusal) => refuse(core, id, NegAnswer::Refused(refusal_of_mark(refusal))),
    }
}

fn settle(
    core: &mut Core<AcceptEnd, Agreed>,
    id: Option<u64>,
    mark: Option<Mark>,
    outcome: Outcome,
    ends: Moment,
    token: Octets,
) -> Negotiated
    requires ready { AwaitsStep core.old id }
    requires first { IsSome mark → auth_of id core.old.history ≡ false }
    requires fits { auth_after id mark core.old.history ≡ is_kerberos outcome.mech }
    requires short { length token ≤ 65536 }
    ensures took { TookToken core.old core.new id
        (λ past. taken (stands_of core.old) id past mark (AcceptStep.Done outcome ends token))
        result }
    ensures memory { result.answer ≢ NegAnswer.NoMemory }
{
    let step = Next::Settled {
        mech: outcome.mech,
        names: names_of(&outcome),
        value: Agreed { outcome },
        ends,
    };
    match core.enter(id, mark, step) {
        Ok(entered) => {
            let id = entered.id;
            Negotiated {
                answer: NegAnswer::Settled {
                    lease: Lease { id, outcome, ends },
                    token,
                },
                receipts: entered.receipts,
            }
        }
        Err(refusal) => refuse(core, id, NegAnswer::Refused(refusal_of_mark(refusal))),
    }
}

fn finish(
    core: &mut Core<AcceptEnd, Agreed>,
    id: Option<u64>,
    mark: Option<Mark>,
    step: AcceptStep,
) -> Negotiated
    requires settled { IsSettled step }
    requires ready { AwaitsStep core.old id }
    requires first { IsSome mark → auth_of id core.old.history ≡ false }
    requires fits { StepFits step (auth_after id mark core.old.history) }
    requires short { ShortAccept step }
    ensures took { TookToken core.old core.new id
        (λ past. taken (stands_of core.old) id past mark step) result }
    ensures memory { result.answer ≢ NegAnswer.NoMemory }
{
    match step {
        AcceptStep::More(end, token) => go_on(core, id, mark, end, token),
        AcceptStep::Done(outcome, ends, token) => settle(core, id, mark, outcome, ends, token),
        AcceptStep::WantsAuth(_) => unreachable!(),
    }
}

// A step with its mark, where it asks for the repeat test.
fn enter(core: &mut Core<AcceptEnd, Agreed>, id: Option<u64>, step: AcceptStep) -> Negotiated
    requires ready { AwaitsStep core.old id }
    requires fits { StepFits step (auth_of id core.old.history) }
    requires short { ShortAccept step }
    ensures took { TookToken core.old core.new id
        (λ past. taken (stands_of core.old) id past (mark_of step) (settled_of step)) result }
    ensures memory { result.answer ≢ NegAnswer.NoMemory }
{
    match step {
        AcceptStep::WantsAuth(pause) => {
            let mark = pause.mark();
            finish(core, id, Some(mark), pause.go_on())
        }
        AcceptStep::More(end, token) => go_on(core, id, None, end, token),
        AcceptStep::Done(outcome, ends, token) => settle(core, id, None, outcome, ends, token),
    }
}

// A token that leaves the book as it was.
fn leave(answer: NegAnswer) -> Negotiated
    ensures answer { result.answer ≡ answer }
    ensures receipts { (h : List Entry) → given result.receipts ≡ gained (length h) h }
{
    Negotiated {
        answer,
        receipts: no_receipts(),
    }
}

// Takes what an end made of a token.
fn take_stepped(
    core: &mut Core<AcceptEnd, Agreed>,
    id: Option<u64>,
    stepped: Result<AcceptStep, NegRefusal>,
) -> Negotiated
    requires ready { AwaitsStep core.old id }
    requires fits { IfOk stepped (λ step. StepFits step (auth_of id core.old.history)) }
    requires short { IfOk stepped ShortAccept }
    ensures took { TookToken core.old core.new id
        (λ past. by_stepped (stands_of core.old) id past stepped) result }
    ensures memory { result.answer ≡ NegAnswer.NoMemory ↔ stepped ≡ Err NegRefusal.NoMemory }
{
    match stepped {
        Ok(step) => enter(core, id, step),
        Err(NegRefusal::NoMemory) => refuse(core, id, NegAnswer::NoMemory),
        Err(refusal) => refuse(core, id, NegAnswer::Refused(BookRefusal::Neg(refusal))),
    }
}

// Takes a token by an end, which is spent.
fn take_step(
    alloc: Global,
    setup: &AcceptSetup,
    core: &mut Core<AcceptEnd, Agreed>,
    id: Option<u64>,
    end: AcceptEnd,
    token: &[u8],
    now: Moment,
    draws: &[u8; 66],
) -> Negotiated
    requires ready { AwaitsStep core.old id }
    requires fits { Fits end (auth_of id core.old.history) }
    ensures { TookToken core.old core.new id
        (λ past. by_step (stands_of core.old) id past
        (accept_step setup.now end token.now now draws.now)) result }
{
    let stepped = end.step(alloc, setup, token, now, draws);
    take_stepped(core, id, stepped)
}

// Whether an end took a token, without what it made of it, which is let go here alone.
fn emptied(stepped: Result<AcceptStep, NegRefusal>) -> Result<(), NegRefusal>
    ensures { result ≡ Err NegRefusal.NoMemory ↔ stepped ≡ Err NegRefusal.NoMemory }
{
    let told = match &stepped {
        Ok(_) => Ok(()),
        Err(refusal) => Err(*refusal),
    };
    drop(stepped);
    told
}

// A first token for which there is no room. Want of memory at its step is told before that.
fn turn_away(stepped: Result<AcceptStep, NegRefusal>, refusal: BookRefusal) -> Negotiated
    ensures size { token_size result.answer ≡ 0 }
    ensures answer { result.answer ≢ NegAnswer.NoMemory
        → result.answer ≡ NegAnswer.Refused refusal }
    ensures memory { result.answer ≡ NegAnswer.NoMemory ↔ stepped ≡ Err NegRefusal.NoMemory }
    ensures receipts { (h : List Entry) → given result.receipts ≡ gained (length h) h }
{
    match emptied(stepped) {
        Ok(_) => leave(NegAnswer::Refused(refusal)),
        Err(NegRefusal::NoMemory) => leave(NegAnswer::NoMemory),
        Err(_) => leave(NegAnswer::Refused(refusal)),
    }
}

// A first token, of which a new end made this.
fn begin(core: &mut Core<AcceptEnd, Agreed>, stepped: Result<AcceptStep, NegRefusal>) -> Negotiated
    requires fits { AllFit core.old }
    requires step_fits { IfOk stepped (λ step. StepFits step false) }
    requires short { IfOk stepped ShortAccept }
    ensures took { TookToken core.old core.new None
        (λ past. begun_by (stands_of core.old) past stepped) result }
    ensures memory { result.answer ≡ NegAnswer.NoMemory ↔ stepped ≡ Err NegRefusal.NoMemory }
{
    match core.room(true) {
        Err(RoomRefusal::LogFull) => turn_away(stepped, BookRefusal::LogFull),
        Err(RoomRefusal::TableFull) => turn_away(stepped, BookRefusal::TableFull),
        Ok(()) => take_stepped(core, None, stepped),
    }
}

// A later token of a context that negotiates.
fn proceed(
    alloc: Global,
    setup: &AcceptSetup,
    core: &mut Core<AcceptEnd, Agreed>,
    id: u64,
    token: &[u8],
    now: Moment,
    draws: &[u8; 66],
) -> Negotiated
    requires fits { AllFit core.old }
    requires negotiates { phase_of (slot_at core.old.table id) ≡ Phase.Negotiating }
    requires opened { PhaseBy (standing id core.old.history) Phase.Negotiating }
    ensures { TookToken core.old core.new (Some id)
        (λ past. opened_by setup.now (stands_of core.old) id past token.now now draws.now)
        result }
{
    match core.room(false) {
        Err(_) => leave(NegAnswer::Refused(BookRefusal::LogFull)),
        Ok(()) => match core.take(id) {
            Ok(end) => take_step(alloc, setup, core, Some(id), end, token, now, draws),
            Err(_) => unreachable!(),
        },
    }
}

// A later token.
fn continue_with(
    alloc: Global,
    setup: &AcceptSetup,
    core: &mut Core<AcceptEnd, Agreed>,
    id: u64,
    token: &[u8],
    now: Moment,
    draws: &[u8; 66],
) -> Negotiated
    requires { AllFit core.old }
    ensures { TookToken core.old core.new (Some id)
        (λ past. negotiated setup.now (stands_of core.old) (Some id) past token.now now draws.now)
        result }
{
    match core.phase(id) {
        Phase::None => leave(NegAnswer::Refused(BookRefusal::NoContext)),
        Phase::Complete => leave(NegAnswer::Refused(BookRefusal::AlreadyComplete)),
        Phase::Negotiating => proceed(alloc, setup, core, id, token, now, draws),
        Phase::Held => unreachable!(),
    }
}

/// What a new end, begun with this setup, makes of a first token.
pub fn step_first(
    alloc: Global,
    setup: &AcceptSetup,
    token: &[u8],
    now: Moment,
    draws: &[u8; 66],
) -> Result<AcceptStep, NegRefusal>
    ensures { IsFirstStep setup.now token.now now draws.now result }
{
    AcceptEnd::new().step(alloc, setup, token, now, draws)
}

// Whether a context is complete with the lease's key.
fn holds_key(core: &Core<AcceptEnd, Agreed>, lease: &Lease) -> bool
    ensures { result ≡ has_key (slot_at core.now.table lease.now.id) lease.now.outcome.key }
{
    match core.value(lease.id) {
        None => false,
        Some(agreed) => agreed.outcome.key.bytes() == lease.outcome.key.bytes(),
    }
}

impl Book {
    ghost use Rattle.accept_book.specs.BookAnswers.{BookStepped, BookLooked, BookAdmitted};
    ghost use Rattle.accept_book.specs.BookAnswers.{BookEnded};

    /// A book without contexts, which has seen the moment `start`. It takes the memory of table,
    /// cache and log here.
    pub fn open(alloc: Global, limits: Limits, start: Moment) -> Result<Book, NoMemory>
        requires contexts { limits.contexts ≤ 65536 }
        requires some_mark { 0 < limits.marks }
        requires marks { limits.marks ≤ 1000000 }
        requires entries { limits.log ≤ greatest_log }
        requires some_width { 0 < limits.width }
        requires width { limits.width ≤ 1024 }
        ensures history { IfOk result (λ book. book.history ≡ []) }
        ensures limit { IfOk result (λ book. book.limit ≡ limits.log) }
        ensures width { IfOk result (λ book. book.width ≡ limits.width) }
        ensures keeping { IfOk result (λ book. book.keeping ≡ limits.keeping) }
        ensures contexts { IfOk result (λ book. book.table.limit ≡ limits.contexts) }
        ensures empty { IfOk result (λ book. book.table.slots ≡ []) }
        ensures marks { IfOk result (λ book. book.cache.capacity ≡ limits.marks) }
        ensures greatest { IfOk result (λ book. book.cache.greatest ≡ start) }
    {
        match Core::new(alloc, limits, start) {
            Ok(core) => Ok(Book { core }),
            Err(error) => Err(error),
        }
    }

    /// Takes what a new end made of a first token at this moment, whatever it was begun with. It
    /// takes no memory, so it answers want of memory only where the step did.
    pub fn first(&mut self, stepped: Result<AcceptStep, NegRefusal>, now: Moment) -> Negotiated
        requires { WasStepped now stepped }
        ensures size { token_size result.answer ≤ 65536 }
        ensures stepped { (setup : AcceptSetup) (token draws : List ℕ)
            → IsFirstStep setup token now draws stepped
            → BookStepped (with_setup setup self.old) (with_setup setup self.new) None token now
            draws result }
        ensures memory { result.answer ≡ NegAnswer.NoMemory ↔ stepped ≡ Err NegRefusal.NoMemory }
    {
        self.core.raise(now);
        let answer = begin(&mut self.core, stepped);
        // The log says how many contexts live: it is looked at for that.
        let _ = self.core.log();
        answer
    }

    /// Takes a token: the first of a context if no id is given, else a later one of that id's
    /// context. A first token that is refused, or meets want of memory, leaves all but the greatest
    /// moment as it was; a later one ends its own context.
    pub fn negotiate(
        &mut self,
        alloc: Global,
        setup: &AcceptSetup,
        id: Option<u64>,
        token: &[u8],
        now: Moment,
        draws: &[u8; 66],
    ) -> Negotiated
        ensures size { token_size result.answer ≤ 65536 }
        ensures stepped { BookStepped (with_setup setup.now self.old)
            (with_setup setup.now self.new) id token.now now draws.now result }
    {
        match id {
            None => {
                let stepped = step_first(alloc, setup, token, now, draws);
                self.first(stepped, now)
            }
            Some(id) => {
                self.core.raise(now);
                let answer = continue_with(alloc, setup, &mut self.core, id, token, now, draws);
                let _ = self.core.log();
                answer
            }
        }
    }

    /// Takes note of a moment, and gives the lease of a complete context.
    pub fn look(&mut self, id: u64, now: Moment) -> Result<Lease, LookRefusal>
        ensures looked { (setup : AcceptSetup)
            → BookLooked (with_setup setup self.old) (with_setup setup self.new) id now result }
    {
        self.core.raise(now);
        match self.core.peek(id, now) {
            Ok((agreed, ends)) => Ok(Lease {
                id,
                outcome: agreed.outcome,
                ends,
            }),
            Err(refusal) => Err(refusal),
        }
    }

    /// Admits a call of a lease's context with a number that is fresh. Gone is where no complete
    /// context has the id and the key.
    pub fn admit(
        &mut self,
        lease: &Lease,
        seq: u32,
        procedure: u32,
        args: [u8; 20],
    ) -> Result<Receipt, AdmitRefusal>
        ensures admitted { (setup : AcceptSetup)
            → BookAdmitted (with_setup setup self.old) (with_setup setup self.new) lease.now seq
            procedure args result }
    {
        let answer = if holds_key(&self.core, lease) {
            self.core.admit(lease.id, seq, procedure, args)
        } else {
            Err(AdmitRefusal::Gone)
        };
        let _ = self.core.log();
        answer
    }

    /// Ends a lease's context by a call with a number that is fresh.
    pub fn end(&mut self, lease: &Lease, seq: u32) -> Result<Receipt, AdmitRefusal>
        ensures ended { (setup : AcceptSetup)
            → BookEnded (with_setup setup self.old) (with_setup setup self.new) lease.now seq
            result }
    {
        let answer = if holds_key(&self.core, lease) {
            self.core.end(lease.id, seq)
        } else {
            Err(AdmitRefusal::Gone)
        };
        let _ = self.core.log();
        answer
    }

    /// The log. It is legal, and the table and the cache are what it says.
    pub fn log(&self) -> &Log
        ensures entries { reverse result.now.entries ≡ self.now.history }
        ensures width { result.now.width ≡ self.now.width }
        ensures limit { result.now.limit ≡ self.now.limit }
        ensures keeping { result.now.keeping ≡ self.now.keeping }
        ensures contexts { result.now.contexts ≡ self.now.table.limit }
        ensures marks { result.now.marks ≡ self.now.cache.capacity }
        ensures legal { Legal self.now.width self.now.history }
        ensures replays { Replays by_outcome self.now.width self.now.history self.now.table
            self.now.cache }
    {
        self.core.log()
    }

    /// The log, for good.
    pub fn into_log(self) -> Log
        ensures entries { reverse result.entries ≡ self.history }
        ensures width { result.width ≡ self.width }
        ensures limit { result.limit ≡ self.limit }
        ensures keeping { result.keeping ≡ self.keeping }
        ensures contexts { result.contexts ≡ self.table.limit }
        ensures marks { result.marks ≡ self.cache.capacity }
        ensures legal { Legal self.width self.history }
    {
        let Book { core } = self;
        core.into_log()
    }
}
