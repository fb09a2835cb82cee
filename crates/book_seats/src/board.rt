//! The table on which the history is noted. It has one word, which says nothing; what its seats know exists in the proofs alone.
ghost use Rattle.std.specs.Prelude.{ℕ};

use atomic_table::{Join, Play, Split, Table, TableRule};
use std::alloc::Global;
use std::marker::{Brand, Model, PhantomData};

/// Names a table, and says of the book whose questions are noted on it what its ends are begun with,
/// which limits it has, and how many desks ask it.
pub trait Room {
    ghost use Rattle.atomic_table.specs.Seated.{TableId};
    ghost use Rattle.spnego_core.specs.declared.setup.AcceptSetup.{AcceptSetup};
    ghost use Rattle.accept_core.specs.declared.entry.Limits.{Limits};

    ghost table: { TableId };

    ghost setup: { AcceptSetup };

    ghost desks: { ℕ };

    ghost limits: { Limits };
}

impl Room for Brand {
    ghost use Rattle.std.specs.Prelude.{false};
    ghost use Rattle.book_seats.specs.Views.{no_table, no_setup};

    ghost table = { no_table };

    ghost setup = { no_setup };

    ghost desks = { 0 };

    ghost limits = { record {
      contexts = 0;
      marks = 0;
      log = 0;
      width = 0;
      keeping = record { entries = false; digest = false };
    } };
}

/// Says with what a book and the program beside it begin.
pub trait Begins<P> {
    ghost use Rattle.book_seats.specs.Both.{BothOf};

    ghost begins: { BothOf P → Type 0 };
}

impl<P> Begins<P> for Brand {
    ghost begins = { λ _. Unit {0} };
}

/// A question with its answer, which a call notes.
pub trait Entry<T> {
    ghost use Rattle.book_seats.specs.Notes.{Noted};

    ghost entry: { Noted T };
}

impl<T> Entry<T> for Brand {
    ghost use Rattle.book_seats.specs.Views.{blank};

    ghost entry = { blank };
}

/// What a seat of the table knows. No value of it is made.
pub struct View<T> {
    pub writes: bool,
    pub of: PhantomData<T>,
}

impl<T> Model for View<T> {
    ghost use Rattle.std.specs.Prelude.{[], false};
    ghost use Rattle.book_seats.specs.Views.{ViewOf};

    ghost Value = { ViewOf T };

    ghost view = { λ v. record {
      writes = v.writes;
      all = [];
      made = 0;
      claims = false;
      desk = 0;
      seen = [];
    } };
}

/// The rule of the table: there is one history.
pub struct OneOrder;

impl<T> TableRule<(), View<T>, ()> for OneOrder {
    ghost use Rattle.std.specs.Prelude.{[]};
    ghost use Rattle.book_seats.specs.Views.{writer, Kept};

    ghost holds = { λ _. Kept };

    ghost first = { λ _. writer 0 [] };
}

/// The writer makes a clerk.
pub struct Hires;

impl<T> Split<View<T>> for Hires {
    ghost use Rattle.book_seats.specs.Views.{with_one_more, new_clerk};

    ghost left = { with_one_more };

    ghost right = { new_clerk };
}

/// A clerk hands over all that it knows.
pub struct Hands;

impl<T> Split<View<T>> for Hands {
    ghost use Rattle.book_seats.specs.Views.{nobody};

    ghost left = { λ _. nobody };

    ghost right = { λ v. v };
}

impl<T> Join<View<T>> for Hands {
    ghost use Rattle.book_seats.specs.Views.{holding, nobody};

    ghost both = { holding };

    ghost spent = { nobody };
}

/// A clerk takes back what it is handed.
pub struct Returns;

impl<T> Join<View<T>> for Returns {
    ghost use Rattle.book_seats.specs.Views.{nobody};

    ghost both = { λ _ w. w };

    ghost spent = { nobody };
}

/// The writer notes a question of the clerk in hand.
pub struct Notes<E> {
    of: PhantomData<E>,
}

impl<T, E: Entry<T>> Split<View<T>> for Notes<E> {
    ghost use Rattle.book_seats.specs.Views.{noting, noted};

    ghost left = { noting E.entry };

    ghost right = { noted E.entry };
}

/// The writer looks at what the clerk in hand has seen.
pub struct Looks;

impl<T> Play<(), View<T>> for Looks {
    ghost use Rattle.book_seats.specs.Views.{Looks};

    ghost then = { Looks };
}

/// The writer compares what the clerk in hand knows with the history.
pub struct Compares;

impl<T> Play<(), View<T>> for Compares {
    ghost use Rattle.book_seats.specs.Views.{Compares};

    ghost then = { Compares };
}

/// The table.
pub type Board<T> = Table<(), View<T>, (), OneOrder, Global>;

/// A seat at the table. It has no bytes.
pub type Token<T> = atomic_table::Seat<(), View<T>>;
