//! A gate over a list of answers, for tests.

ghost use Rattle.std.specs.Prelude.{◌≡◌, ◌<◌, ◌≤◌, ◌+◌, ◌++◌, IsTrue, true, [], ◌∷◌, drop, IfOk};
ghost use Rattle.std.specs.Prelude.{None, option_to_list, vec_len, vec_capacity};
ghost use Rattle.gate_models.specs.Listed.{IsFull, StepNext, look_next, admission_next};
ghost use Rattle.gate_models.specs.Listed.{receipt_next, end_next};
ghost use Rattle.accept_book.specs.Booking.{token_size};
ghost use Rattle.gss_server.specs.Programs.{passed};
ghost use Rattle.gss_server.specs.Telling.{Gains, step_told, told_of};
ghost use Rattle.rpc_program.specs.Programs.{IsShort, NONE};
ghost use Rattle.accept_book.specs.RecordShown.{AskedStep, AskedLook, AskedAdmit, AskedEnd};
ghost use Rattle.accept_book.specs.RecordShown.{with_ok};
ghost use Rattle.sha1.specs.Sha1.{sha1};

use crate::gate_answer::{GateAnswer, call_of, step_of};
use accept_book::{
    AdmitRefusal, Admitted, BookRefusal, EndCause, Entry, Lease, LookRefusal, NegAnswer,
    Negotiated, Receipt, Receipts,
};
use gss_server::{DataCall, Gate, StepTold, Told};
use rpc_program::{ProgramId, Speller};
use rpcsec_bodies::Service;
use sec_base::{Moment, NoMemory};
use sha1::Sha1;
use std::alloc::Global;
use std::marker::PhantomData;

/// The procedure that no program has.
const NO_PROCEDURE: u32 = 0xffff_ffff;

/// A gate that gives the answers of a list, in order. Where the next answer is of another kind, or there is none, it answers
/// LogFull, NoContext, Gone and Gone; such an answer is used up. It tells what it was asked, up to two questions more than it had answers.
/// It says of the program what the speller says, and has nothing spelled.
#[derive(Drop)]
pub struct ListGate<T, S> {
    speller: S,
    of: PhantomData<T>,
    answers: Vec<GateAnswer>,
    told: Vec<Told>,
    limit: usize,
    ghost within: { vec_len told ≤ limit },
    ghost reserved: { limit ≤ vec_capacity told },
}

/// What a step's answer tells.
fn told_step(answer: &NegAnswer) -> StepTold
    ensures { result ≡ step_told answer.now }
{
    match answer {
        NegAnswer::Going { id, token } => StepTold::Going {
            id: *id,
            token: Sha1::digest(token.as_slice()),
        },
        NegAnswer::Settled { lease, token } => StepTold::Settled {
            lease: *lease,
            token: Sha1::digest(token.as_slice()),
        },
        NegAnswer::Refused(refusal) => StepTold::Refused(*refusal),
        NegAnswer::NoMemory => StepTold::NoMemory,
    }
}

/// The answer where the list has none: no place in the log.
fn log_full() -> Negotiated
    ensures full { IsFull result }
    ensures size { token_size result.answer ≤ 65536 }
{
    let entry = Entry::Ended {
        id: 0,
        cause: EndCause::Refused,
    };
    let none = Receipt { place: 0, entry };
    Negotiated {
        answer: NegAnswer::Refused(BookRefusal::LogFull),
        receipts: Receipts {
            count: 0,
            list: [none; 4],
        },
    }
}

/// Puts one more behind a list, where there is room.
fn put<T: Drop>(list: &mut Vec<T>, one: T)
    requires { vec_len list.old < vec_capacity list.old }
    ensures items { list.new.items ≡ list.old.items ++ one ∷ [] }
    ensures count { vec_len list.new ≡ vec_len list.old + 1 }
    ensures capacity { vec_capacity list.old ≤ vec_capacity list.new }
{
    let _ = list.push(one);
}

/// A look, as it is told.
fn told_look(id: u64, now: Moment, answer: &Result<Lease, LookRefusal>) -> Told
    ensures { result ≡ told_of (AskedLook id now answer.now) }
{
    let answer = *answer;
    Told::Looking { id, now, answer }
}

/// A call that asked for its admission as one of this procedure, as it is told.
fn told_admission(
    lease: &Lease,
    call: &DataCall<'_>,
    procedure: u32,
    answer: &Result<Receipt, AdmitRefusal>,
) -> Told
    ensures { result ≡ Told.Admitting lease.now call.now.seq call.now.service procedure
        (sha1 call.now.args.now) answer.now }
{
    let answer = *answer;
    let lease = *lease;
    let args = call.digest;
    Told::Admitting {
        lease,
        seq: call.seq,
        service: call.service,
        procedure,
        args,
        answer,
    }
}

/// The receipt of an admission.
fn receipt_of(answer: &Result<Admitted, AdmitRefusal>) -> Result<Receipt, AdmitRefusal>
    ensures { result ≡ with_ok (λ admitted. admitted.receipt) answer.now }
{
    match answer {
        Ok(admitted) => Ok(admitted.receipt),
        Err(refusal) => Err(*refusal),
    }
}

/// An end, as it is told.
fn told_end(lease: &Lease, seq: u32, answer: &Result<Receipt, AdmitRefusal>) -> Told
    ensures { result ≡ told_of (AskedEnd lease.now seq answer.now) }
{
    let answer = *answer;
    let lease = *lease;
    Told::Ending { lease, seq, answer }
}

impl<T, S: Speller<T> + Drop> ListGate<T, S> {
    ghost use Rattle.gate_models.specs.ListGate.{answers_left};

    /// A gate that gives these answers, in order.
    pub fn new(
        alloc: Global,
        speller: S,
        answers: Vec<GateAnswer>,
    ) -> Result<ListGate<T, S>, NoMemory>
        ensures answers { IfOk result (λ gate. answers_left gate ≡ answers.items) }
        ensures tells { IfOk result (λ gate. ⟦<ListGate<T, S> as Gate>⟧.tells gate ≡ true) }
        ensures told { IfOk result (λ gate. ⟦<ListGate<T, S> as Gate>⟧.told gate ≡ []) }
        ensures room { IfOk result (λ gate. ⟦<ListGate<T, S> as Gate>⟧.room gate ≡ vec_len answers
            + 2) }
    {
        let limit = answers.len() + 2;
        let told = Vec::with_capacity(alloc, limit)?;
        Ok(ListGate {
            speller,
            of: PhantomData,
            answers,
            told,
            limit,
        })
    }

    /// Takes the next answer of the list.
    fn take_next(&mut self) -> Option<GateAnswer>
        ensures next { self.old.answers.items ≡ option_to_list result ++ self.new.answers.items }
        ensures none { result ≡ None → self.old.answers.items ≡ [] }
        ensures told { self.new.told.items ≡ self.old.told.items }
        ensures count { vec_len self.new.told ≡ vec_len self.old.told }
        ensures limit { self.new.limit ≡ self.old.limit }
    {
        if self.answers.is_empty() {
            return None;
        }
        Some(self.answers.remove(0))
    }

    /// Takes the next answer of the list to a step.
    fn next_step(&mut self) -> Negotiated
        ensures next { StepNext self.old.answers.items result }
        ensures size { token_size result.answer ≤ 65536 }
        ensures rest { self.new.answers.items ≡ drop 1 self.old.answers.items }
        ensures told { self.new.told.items ≡ self.old.told.items }
        ensures count { vec_len self.new.told ≡ vec_len self.old.told }
        ensures limit { self.new.limit ≡ self.old.limit }
    {
        match self.take_next() {
            Some(GateAnswer::Negotiated(step)) => step_of(step),
            Some(GateAnswer::Looked(_answer)) => log_full(),
            Some(GateAnswer::Admitted(_answer)) => log_full(),
            Some(GateAnswer::Ended(_answer)) => log_full(),
            None => log_full(),
        }
    }

    /// Takes the next answer of the list to a look.
    fn next_look(&mut self) -> Result<Lease, LookRefusal>
        ensures next { result ≡ look_next self.old.answers.items }
        ensures rest { self.new.answers.items ≡ drop 1 self.old.answers.items }
        ensures told { self.new.told.items ≡ self.old.told.items }
        ensures count { vec_len self.new.told ≡ vec_len self.old.told }
        ensures limit { self.new.limit ≡ self.old.limit }
    {
        match self.take_next() {
            Some(GateAnswer::Looked(answer)) => answer,
            Some(GateAnswer::Negotiated(_answer)) => Err(LookRefusal::NoContext),
            Some(GateAnswer::Admitted(_answer)) => Err(LookRefusal::NoContext),
            Some(GateAnswer::Ended(_answer)) => Err(LookRefusal::NoContext),
            None => Err(LookRefusal::NoContext),
        }
    }

    /// Takes the next answer of the list to an admission.
    fn next_admission(&mut self) -> Result<Admitted, AdmitRefusal>
        ensures next { result ≡ admission_next self.old.answers.items }
        ensures short { IfOk result (λ admitted. IsShort admitted.outcome) }
        ensures rest { self.new.answers.items ≡ drop 1 self.old.answers.items }
        ensures told { self.new.told.items ≡ self.old.told.items }
        ensures count { vec_len self.new.told ≡ vec_len self.old.told }
        ensures limit { self.new.limit ≡ self.old.limit }
    {
        match self.take_next() {
            Some(GateAnswer::Admitted(call)) => call_of(call),
            Some(GateAnswer::Negotiated(_answer)) => Err(AdmitRefusal::Gone),
            Some(GateAnswer::Looked(_answer)) => Err(AdmitRefusal::Gone),
            Some(GateAnswer::Ended(_answer)) => Err(AdmitRefusal::Gone),
            None => Err(AdmitRefusal::Gone),
        }
    }

    /// Takes the next answer of the list to an end.
    fn next_end(&mut self) -> Result<Receipt, AdmitRefusal>
        ensures next { result ≡ end_next self.old.answers.items }
        ensures rest { self.new.answers.items ≡ drop 1 self.old.answers.items }
        ensures told { self.new.told.items ≡ self.old.told.items }
        ensures count { vec_len self.new.told ≡ vec_len self.old.told }
        ensures limit { self.new.limit ≡ self.old.limit }
    {
        match self.take_next() {
            Some(GateAnswer::Ended(answer)) => answer,
            Some(GateAnswer::Negotiated(_answer)) => Err(AdmitRefusal::Gone),
            Some(GateAnswer::Looked(_answer)) => Err(AdmitRefusal::Gone),
            Some(GateAnswer::Admitted(_answer)) => Err(AdmitRefusal::Gone),
            None => Err(AdmitRefusal::Gone),
        }
    }

    /// Tells a question, where there is room.
    fn tell(&mut self, one: Told)
        ensures told { vec_len self.old.told < self.old.limit
            → self.new.told.items ≡ self.old.told.items ++ one ∷ [] }
        ensures count { vec_len self.old.told < self.old.limit
            → vec_len self.new.told ≡ vec_len self.old.told + 1 }
        ensures answers { self.new.answers.items ≡ self.old.answers.items }
        ensures limit { self.new.limit ≡ self.old.limit }
    {
        // The types inside are named, since the check has to know of them here.
        let _refusal: Option<BookRefusal> = None;
        let _receipts: Option<Receipts> = None;
        let _step: Option<StepTold> = None;
        let _receipt: Option<Receipt> = None;
        let _entry: Option<Entry> = None;
        let _look: Option<Result<Lease, LookRefusal>> = None;
        let _service: Option<Service> = None;
        let _end: Option<Result<Receipt, AdmitRefusal>> = None;
        if self.told.len() < self.limit {
            put(&mut self.told, one);
        }
    }
}

impl<T, S: Speller<T> + Drop> Gate for ListGate<T, S> {
    ghost use Rattle.std.specs.Prelude.{◌-◌, true, false, vec_len};
    ghost use Rattle.gate_models.specs.ListGate.{answers_left};
    ghost use Rattle.gate_models.specs.Listed.{ListAnswers};

    ghost program = { S.says };

    ghost tells = { λ _. true };

    ghost room = { λ gate. gate.limit - vec_len gate.told };

    ghost told = { λ gate. gate.told.items };

    ghost limits = { λ _. record {
      contexts = 0;
      marks = 0;
      log = 0;
      width = 0;
      keeping = record { entries = false; digest = false };
    } };

    ghost answers = { λ old asked new. ListAnswers old.answers.items asked new.answers.items };

    fn id(&self) -> ProgramId {
        self.speller.id()
    }

    fn has(&self, procedure: u32) -> bool {
        self.speller.has(procedure)
    }

    fn needs(&self, procedure: u32) -> Service {
        self.speller.needs(procedure)
    }

    fn takes(&self, procedure: u32, args: &[u8]) -> bool {
        self.speller.takes(procedure, args)
    }

    fn negotiate(
        &mut self,
        alloc: Global,
        id: Option<u64>,
        token: &[u8],
        now: Moment,
        draws: &[u8; 66],
    ) -> Negotiated
        ensures next { StepNext (answers_left self.old) result }
        ensures rest { answers_left self.new ≡ drop 1 (answers_left self.old) }
        ensures size { token_size result.answer ≤ 65536 }
        ensures tells { ⟦<ListGate<T, S> as Gate>⟧.tells self.new
            ≡ ⟦<ListGate<T, S> as Gate>⟧.tells self.old }
        ensures limits { ⟦<ListGate<T, S> as Gate>⟧.limits self.new
            ≡ ⟦<ListGate<T, S> as Gate>⟧.limits self.old }
        ensures told { IsTrue (⟦<ListGate<T, S> as Gate>⟧.tells self.old)
            → 1 ≤ ⟦<ListGate<T, S> as Gate>⟧.room self.old
            → Gains (⟦<ListGate<T, S> as Gate>⟧.room self.old)
            (⟦<ListGate<T, S> as Gate>⟧.room self.new)
            (⟦<ListGate<T, S> as Gate>⟧.told self.old) (⟦<ListGate<T, S> as Gate>⟧.told self.new)
            (told_of (AskedStep id token.now now draws.now result) ∷ []) }
        ensures answers { ⟦<ListGate<T, S> as Gate>⟧.answers self.old
            (AskedStep id token.now now draws.now result) self.new }
    {
        let negotiated = self.next_step();
        let draws = *draws;
        let answer = told_step(&negotiated.answer);
        let receipts = negotiated.receipts;
        self.tell(Told::Negotiating {
            id,
            token: Sha1::digest(token),
            now,
            draws,
            answer,
            receipts,
        });
        negotiated
    }

    fn look(&mut self, id: u64, now: Moment) -> Result<Lease, LookRefusal>
        ensures next { result ≡ look_next (answers_left self.old) }
        ensures rest { answers_left self.new ≡ drop 1 (answers_left self.old) }
        ensures tells { ⟦<ListGate<T, S> as Gate>⟧.tells self.new
            ≡ ⟦<ListGate<T, S> as Gate>⟧.tells self.old }
        ensures limits { ⟦<ListGate<T, S> as Gate>⟧.limits self.new
            ≡ ⟦<ListGate<T, S> as Gate>⟧.limits self.old }
        ensures told { IsTrue (⟦<ListGate<T, S> as Gate>⟧.tells self.old)
            → 1 ≤ ⟦<ListGate<T, S> as Gate>⟧.room self.old → Gains
            (⟦<ListGate<T, S> as Gate>⟧.room self.old)
            (⟦<ListGate<T, S> as Gate>⟧.room self.new) (⟦<ListGate<T, S> as Gate>⟧.told self.old)
            (⟦<ListGate<T, S> as Gate>⟧.told self.new) (told_of (AskedLook id now result) ∷ []) }
        ensures answers { ⟦<ListGate<T, S> as Gate>⟧.answers self.old
            (AskedLook id now result) self.new }
    {
        let answer = self.next_look();
        self.tell(told_look(id, now, &answer));
        answer
    }

    fn admit(
        &mut self,
        alloc: Global,
        lease: &Lease,
        call: &DataCall<'_>,
    ) -> Result<Admitted, AdmitRefusal>
        ensures next { result ≡ admission_next (answers_left self.old) }
        ensures short { IfOk result (λ admitted. IsShort admitted.outcome) }
        ensures rest { answers_left self.new ≡ drop 1 (answers_left self.old) }
        ensures tells { ⟦<ListGate<T, S> as Gate>⟧.tells self.new
            ≡ ⟦<ListGate<T, S> as Gate>⟧.tells self.old }
        ensures limits { ⟦<ListGate<T, S> as Gate>⟧.limits self.new
            ≡ ⟦<ListGate<T, S> as Gate>⟧.limits self.old }
        ensures told { IsTrue (⟦<ListGate<T, S> as Gate>⟧.tells self.old)
            → 1 ≤ ⟦<ListGate<T, S> as Gate>⟧.room self.old
            → Gains (⟦<ListGate<T, S> as Gate>⟧.room self.old)
            (⟦<ListGate<T, S> as Gate>⟧.room self.new)
            (⟦<ListGate<T, S> as Gate>⟧.told self.old)
            (⟦<ListGate<T, S> as Gate>⟧.told self.new)
            (told_of (AskedAdmit lease.now call.now.seq call.now.service call.now.procedure
            call.now.args.now result) ∷ []) }
        ensures answers { ⟦<ListGate<T, S> as Gate>⟧.answers self.old
            (AskedAdmit lease.now call.now.seq call.now.service call.now.procedure
            call.now.args.now result) self.new }
    {
        let answer = self.next_admission();
        let receipt = receipt_of(&answer);
        self.tell(told_admission(lease, call, call.procedure, &receipt));
        answer
    }

    fn pass(&mut self, lease: &Lease, call: &DataCall<'_>) -> Result<Receipt, AdmitRefusal>
        ensures next { result ≡ receipt_next (answers_left self.old) }
        ensures rest { answers_left self.new ≡ drop 1 (answers_left self.old) }
        ensures tells { ⟦<ListGate<T, S> as Gate>⟧.tells self.new
            ≡ ⟦<ListGate<T, S> as Gate>⟧.tells self.old }
        ensures limits { ⟦<ListGate<T, S> as Gate>⟧.limits self.new
            ≡ ⟦<ListGate<T, S> as Gate>⟧.limits self.old }
        ensures told { IsTrue (⟦<ListGate<T, S> as Gate>⟧.tells self.old)
            → 1 ≤ ⟦<ListGate<T, S> as Gate>⟧.room self.old
            → Gains (⟦<ListGate<T, S> as Gate>⟧.room self.old)
            (⟦<ListGate<T, S> as Gate>⟧.room self.new)
            (⟦<ListGate<T, S> as Gate>⟧.told self.old)
            (⟦<ListGate<T, S> as Gate>⟧.told self.new)
            (told_of (AskedAdmit lease.now call.now.seq call.now.service NONE
            call.now.args.now (passed result)) ∷ []) }
        ensures answers { ⟦<ListGate<T, S> as Gate>⟧.answers self.old
            (AskedAdmit lease.now call.now.seq call.now.service NONE
            call.now.args.now (passed result)) self.new }
    {
        let admission = self.next_admission();
        let answer = receipt_of(&admission);
        self.tell(told_admission(lease, call, NO_PROCEDURE, &answer));
        answer
    }

    fn end(&mut self, lease: &Lease, seq: u32) -> Result<Receipt, AdmitRefusal>
        ensures next { result ≡ end_next (answers_left self.old) }
        ensures rest { answers_left self.new ≡ drop 1 (answers_left self.old) }
        ensures tells { ⟦<ListGate<T, S> as Gate>⟧.tells self.new
            ≡ ⟦<ListGate<T, S> as Gate>⟧.tells self.old }
        ensures limits { ⟦<ListGate<T, S> as Gate>⟧.limits self.new
            ≡ ⟦<ListGate<T, S> as Gate>⟧.limits self.old }
        ensures told { IsTrue (⟦<ListGate<T, S> as Gate>⟧.tells self.old)
            → 1 ≤ ⟦<ListGate<T, S> as Gate>⟧.room self.old → Gains
            (⟦<ListGate<T, S> as Gate>⟧.room self.old)
            (⟦<ListGate<T, S> as Gate>⟧.room self.new) (⟦<ListGate<T, S> as Gate>⟧.told self.old)
            (⟦<ListGate<T, S> as Gate>⟧.told self.new) (told_of
            (AskedEnd lease.now seq result) ∷ []) }
        ensures answers { ⟦<ListGate<T, S> as Gate>⟧.answers self.old
            (AskedEnd lease.now seq result)
            self.new }
    {
        let answer = self.next_end();
        self.tell(told_end(lease, seq, &answer));
        answer
    }
}
