//! The writer of the history, and the clerks of the desks.
ghost use Rattle.std.specs.Prelude.{◌≡◌, ◌<◌, ◌≤◌, ◌+◌, ℕ, ◌++◌, [], ◌∷◌};
ghost use Rattle.book_seats.specs.Notes.{StartsWith, noted_by};
ghost use Rattle.book_seats.specs.Views.{WriterOf, ClerkOf, writer};

use crate::board::{Board, Compares, Entry, Hands, Hires, Looks, Notes, Returns, Room, Token};
use std::marker::{Model, PhantomData};

/// The table of the room's name.
#[derive(Drop)]
pub struct Hall<T, J: Room> {
    board: Board<T>,
    of: PhantomData<J>,
    ghost named: { board.shared.table_id ≡ J.table },
    ghost words: { 0 < board.shared.table_id.words },
}

/// Who knows the whole history, and how many clerks there are. It has no bytes.
#[derive(Drop)]
pub struct Writer<T, J: Room> {
    token: Token<T>,
    of: PhantomData<J>,
}

impl<T, J: Room> Model for Writer<T, J> {
    ghost use Rattle.book_seats.specs.Views.{WriterOf, IsWriter};

    ghost Value = { WriterOf T };

    ghost view = { λ w. record { made = w.token.me.0.made; all = w.token.me.0.all } };

    ghost invariant = { λ w. IsWriter J.table w.token };
}

/// Who knows the number of a desk, and the history up to the last question of that desk. It has no bytes.
#[derive(Drop)]
pub struct Clerk<T, J: Room> {
    token: Token<T>,
    of: PhantomData<J>,
}

impl<T, J: Room> Model for Clerk<T, J> {
    ghost use Rattle.book_seats.specs.Views.{ClerkOf, IsClerk};

    ghost Value = { ClerkOf T };

    ghost view = { λ c. record { desk = c.token.me.0.desk; seen = c.token.me.0.seen } };

    ghost invariant = { λ c. IsClerk J.table c.token };
}

/// The hall over a table of its name, with the writer, who knows of no note and no clerk.
pub fn open_hall<T, J: Room>(board: Board<T>, token: Token<T>) -> (Hall<T, J>, Writer<T, J>)
    requires board { board.shared.table_id ≡ J.table }
    requires words { 0 < board.shared.table_id.words }
    requires token { (token.table_id ≡ board.shared.table_id) × (token.me ≡ (writer 0 [], [])) }
    ensures { result.1 ≡ record { made = 0; all = [] } }
{
    (
        Hall {
            board,
            of: PhantomData,
        },
        Writer {
            token,
            of: PhantomData,
        },
    )
}

impl<T, J: Room> Writer<T, J> {
    /// A clerk for the next desk, who has seen the history so far.
    pub fn hire(&mut self, hall: &Hall<T, J>) -> Clerk<T, J>
        ensures writer { self.new ≡ record { made = self.old.made + 1; all = self.old.all } }
        ensures clerk { result ≡ record { desk = self.old.made; seen = self.old.all } }
    {
        let token = hall.board.shared.split_seat::<Hires>(&mut self.token);
        Clerk {
            token,
            of: PhantomData,
        }
    }

    /// Notes a question of a clerk's desk. The clerk has seen all of the history then.
    pub(crate) fn note<E: Entry<T>>(&mut self, hall: &Hall<T, J>, clerk: &mut Clerk<T, J>)
        ensures writer { self.new ≡ record {
          made = self.old.made;
          all = self.old.all ++ (clerk.old.desk, E.entry) ∷ [];
        } }
        ensures clerk { clerk.new ≡ record {
          desk = clerk.old.desk;
          seen = self.old.all ++ (clerk.old.desk, E.entry) ∷ [];
        } }
        ensures prefix { StartsWith self.old.all clerk.old.seen }
        ensures others { noted_by clerk.old.desk self.old.all
            ≡ noted_by clerk.old.desk clerk.old.seen }
    {
        let lent = hall.board.shared.split_seat::<Hands>(&mut clerk.token);
        hall.board.shared.join_seat::<Hands>(&mut self.token, lent);
        hall.board.shared.load::<Looks>(&mut self.token, 0);
        let back = hall.board.shared.split_seat::<Notes<E>>(&mut self.token);
        hall.board
            .shared
            .join_seat::<Returns>(&mut clerk.token, back);
    }

    /// Dismisses a clerk: of its desk the history has what the clerk has seen of it.
    pub fn compare(&mut self, hall: &Hall<T, J>, clerk: Clerk<T, J>)
        ensures same { self.new ≡ self.old }
        ensures mine { noted_by clerk.desk self.old.all ≡ noted_by clerk.desk clerk.seen }
    {
        let Clerk { token, of: _ } = clerk;
        hall.board.shared.join_seat::<Hands>(&mut self.token, token);
        hall.board.shared.load::<Compares>(&mut self.token, 0);
    }

    /// Of a desk that no clerk was made for, the history has nothing.
    pub fn close(&mut self, hall: &Hall<T, J>)
        ensures same { self.new ≡ self.old }
        ensures others { (desk : ℕ) → self.old.made ≤ desk → noted_by desk self.old.all ≡ [] }
    {
        hall.board.shared.load::<Compares>(&mut self.token, 0);
    }
}
