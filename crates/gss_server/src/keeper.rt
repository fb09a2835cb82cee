//! Who is given what a run makes, one thing at a time.

ghost use Rattle.std.specs.Prelude.{◌≡◌, ◌+◌, ◌≤◌, ◌++◌, [], List, IfOk, length, take};
ghost use Rattle.std.specs.Prelude.{vec_len, vec_capacity};
ghost use Rattle.gss_server.specs.Receipts.{of_step, of_call, of_end};

use crate::answer::Kept;
use accept_book::{AdmitRefusal, Admitted, Negotiated, Receipt};
use sec_base::NoMemory;
use std::alloc::Global;

/// A keeper of things. It says which parts of a thing it keeps, and `kept` has the parts that it
/// kept, in order. It takes a thing when it is ready, and makes itself ready before the thing is
/// made, so that nothing that was made is lost.
pub trait Keeper<T> {
    type Part;

    ghost parts: { T → List Self.Part };

    ghost kept: { Self → List Self.Part };

    ghost ready: { Self → Type 0 };

    /// Makes ready for one thing.
    fn make_room(&mut self) -> Result<(), NoMemory>
        ensures same { kept self.new ≡ kept self.old }
        ensures ready { IfOk result (λ _. ready self.new) };

    /// Keeps of a thing what this keeper keeps.
    fn keep(&mut self, one: T)
        requires { ready self.old }
        ensures { kept self.new ≡ kept self.old ++ parts one };
}

/// Keeps all that it is given.
#[derive(Drop)]
pub struct KeepAll<T> {
    /// All that it was given, in order.
    pub all: Vec<T>,
}

impl<T> KeepAll<T> {
    /// It was given nothing yet.
    pub fn new(alloc: Global) -> KeepAll<T>
        ensures { result.all.items ≡ [] }
    {
        KeepAll {
            all: Vec::new(alloc),
        }
    }
}

impl<T> Keeper<T> for KeepAll<T> {
    ghost use Rattle.std.specs.Prelude.{◌+◌, ◌≤◌, vec_len, vec_capacity, ◌∷◌, []};

    type Part = T;

    ghost parts = { λ one. one ∷ [] };

    ghost kept = { λ keeper. keeper.all.items };

    ghost ready = { λ keeper. vec_len keeper.all + 1 ≤ vec_capacity keeper.all };

    fn make_room(&mut self) -> Result<(), NoMemory> {
        match self.all.reserve(1) {
            Ok(()) => Ok(()),
            Err(_) => Err(NoMemory),
        }
    }

    fn keep(&mut self, one: T) {
        self.all.push_reserved(one);
    }
}

/// Keeps nothing of what it is given, and lets it go.
#[derive(Drop)]
pub struct KeepNothing;

impl<T: Drop> Keeper<T> for KeepNothing {
    ghost use Rattle.std.specs.Prelude.{[]};

    type Part = ();

    ghost parts = { λ _. [] };

    ghost kept = { λ _. [] };

    ghost ready = { λ _. Unit {0} };

    fn make_room(&mut self) -> Result<(), NoMemory> {
        Ok(())
    }

    fn keep(&mut self, one: T) {
        drop(one);
    }
}

/// The most receipts that the answer to one record has: four of a step, one of a call, one of an
/// end.
const MOST: usize = 6;

/// Keeps the receipts of the log's entries alone. Each is of an entry that the book added, so they
/// are at most as many as its log may have.
#[derive(Drop)]
pub struct KeepReceipts {
    /// The receipts, in the order of the answers.
    pub receipts: Vec<Receipt>,
}

impl KeepReceipts {
    /// It was given nothing yet.
    pub fn new(alloc: Global) -> KeepReceipts
        ensures { result.receipts.items ≡ [] }
    {
        KeepReceipts {
            receipts: Vec::new(alloc),
        }
    }

    /// Keeps these receipts, in order.
    fn keep_all(&mut self, receipts: &[Receipt])
        requires { vec_len self.old.receipts + length receipts.now
            ≤ vec_capacity self.old.receipts }
        ensures items { self.new.receipts.items ≡ self.old.receipts.items ++ receipts.now }
        ensures capacity { vec_capacity self.old.receipts ≤ vec_capacity self.new.receipts }
    {
        match self.receipts.extend_from_slice(receipts) {
            Ok(()) => {}
            Err(_) => {}
        }
    }

    /// Keeps the receipt of an admitted call.
    fn keep_call(&mut self, admitted: &Option<Result<Admitted, AdmitRefusal>>)
        requires { vec_len self.old.receipts + 1 ≤ vec_capacity self.old.receipts }
        ensures items { self.new.receipts.items ≡ self.old.receipts.items ++ of_call admitted.now }
        ensures capacity { vec_capacity self.old.receipts ≤ vec_capacity self.new.receipts }
    {
        match admitted {
            Some(Ok(admitted)) => self.keep_all(&[admitted.receipt]),
            Some(Err(_)) => {}
            None => {}
        }
    }

    /// Keeps the receipt of a context's end.
    fn keep_end(&mut self, ended: &Option<Result<Receipt, AdmitRefusal>>)
        requires { vec_len self.old.receipts + 1 ≤ vec_capacity self.old.receipts }
        ensures items { self.new.receipts.items ≡ self.old.receipts.items ++ of_end ended.now }
        ensures capacity { vec_capacity self.old.receipts ≤ vec_capacity self.new.receipts }
    {
        match ended {
            Some(Ok(receipt)) => self.keep_all(&[*receipt]),
            Some(Err(_)) => {}
            None => {}
        }
    }
}

/// The first `count` of these, or all.
#[tactic(auto, using(crate::proofs::Takings::take_past))]
fn first_of(list: &[Receipt; 4], count: u8) -> &[Receipt]
    ensures first { result.now ≡ take count list.now }
    ensures most { length result.now ≤ 4 }
{
    &list[..count.min(4) as usize]
}

/// The receipts of a step, oldest first.
fn of_step(negotiated: &Option<Negotiated>) -> &[Receipt]
    ensures receipts { result.now ≡ of_step negotiated.now }
    ensures most { length result.now ≤ 4 }
{
    match negotiated {
        Some(negotiated) => first_of(&negotiated.receipts.list, negotiated.receipts.count),
        None => &[],
    }
}

impl Keeper<Kept> for KeepReceipts {
    ghost use Rattle.std.specs.Prelude.{◌+◌, ◌≤◌, vec_len, vec_capacity};
    ghost use Rattle.gss_server.specs.Receipts.{receipts_of};

    type Part = Receipt;

    ghost parts = { λ one. receipts_of one };

    ghost kept = { λ keeper. keeper.receipts.items };

    ghost ready = { λ keeper. vec_len keeper.receipts + 6 ≤ vec_capacity keeper.receipts };

    fn make_room(&mut self) -> Result<(), NoMemory> {
        match self.receipts.reserve(MOST) {
            Ok(()) => Ok(()),
            Err(_) => Err(NoMemory),
        }
    }

    fn keep(&mut self, one: Kept) {
        self.keep_all(of_step(&one.negotiated));
        self.keep_call(&one.admitted);
        self.keep_end(&one.ended);
    }
}
