//! What the history says of the desks, of the program, and of what desks were told.
ghost use Rattle.std.specs.Prelude.{◌≡◌, ◌≤◌, ℕ, List, []};
ghost use Rattle.accept_book.specs.RecordShown.{Asked};
ghost use Rattle.accept_core.specs.declared.entry.Receipt.{Receipt};
ghost use Rattle.book_seats.specs.Acts.{ActsOnceLaw};
ghost use Rattle.book_seats.specs.Notes.{Note, Noted, noted_by, noted_in, asked_by, questions_of};
ghost use Rattle.book_seats.specs.Telling.{DeskToldLaw};
ghost use Rattle.book_seats.specs.Weights.{weigh, total};

use crate::board::Begins;
use rpc_program::{Program, Speller};

/// What the desks asked is what stands in the history, each question once: however questions are weighed, those of the desks, desk for
/// desk, weigh together what the history weighs, both with what entering calls gave and as the book has them.
pub fn prove_desks_weigh<T>()
    ensures noted { (desks : ℕ) (weight : Noted T → ℕ) (all : List (Note T))
        → ((desk : ℕ) → desks ≤ desk → noted_by desk all ≡ [])
        → total desks (λ desk. weigh weight (noted_by desk all)) ≡ weigh weight (noted_in all) }
    ensures asked { (desks : ℕ) (weight : Asked Receipt → ℕ) (all : List (Note T))
        → ((desk : ℕ) → desks ≤ desk → asked_by desk all ≡ [])
        → total desks (λ desk. weigh weight (asked_by desk all)) ≡ weigh weight (questions_of all) }
{}

/// For any program: the calls that the log gained are those of the history whose number was taken, each once, at its place, and the program
/// entered each of them once, in the log's order.
pub fn prove_acts_once<T, P: Program<Ticket = T>>()
    ensures { ActsOnceLaw P.Program }
{}

/// For any program, and whoever spells: what a desk was told are its own questions of the history, all of them, in order, and each outcome was
/// spelled from the ticket of its own call's entry, once, in the same order.
pub fn prove_desk_told<P: Program<Ticket = T>, T, S: Speller<T>, J: Begins<P>>()
    ensures { DeskToldLaw P.Program S.Speller J.begins }
{}
