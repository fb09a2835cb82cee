//! Octets that stand within a vector.

ghost use Rattle.std.specs.Prelude.{◌≡◌, ◌-◌, ◌≤◌, length, take, drop};

use std::marker::Model;

/// A row of octets that stands within a vector, as what was opened stands between a confounder and a tag. It is cut where it stands, and
/// contracts see the row alone.
#[derive(Drop)]
pub struct Piece {
    list: Vec<u8>,
    start: usize,
    end: usize,
}

impl Model for Piece {
    ghost use Rattle.std.specs.Prelude.{List, ℕ, ◌-◌, ◌≤◌, length, take, drop};

    ghost Value = { List ℕ };

    ghost view = { λ p. take (p.end - p.start) (drop p.start p.list.items) };

    ghost invariant = { λ p. (p.start ≤ p.end) × (p.end ≤ length p.list.items) };
}

impl Piece {
    /// The octets from `start` up to `end`.
    pub fn between(list: Vec<u8>, start: usize, end: usize) -> Piece
        requires order { start ≤ end }
        requires within { end ≤ length list.items }
        ensures { result ≡ take (end - start) (drop start list.items) }
    {
        Piece { list, start, end }
    }

    /// The octets.
    pub fn as_slice(&self) -> &[u8]
        ensures { result.now ≡ self.now }
    {
        &self.list.as_slice()[self.start..self.end]
    }

    /// Lets all but the first octets go.
    pub fn keep_first(&mut self, count: usize)
        requires { count ≤ length self.old }
        ensures { self.new ≡ take count self.old }
    {
        self.end = self.start + count;
    }

    /// The octets, as a vector of their own.
    pub fn into_vec(self) -> Vec<u8>
        ensures { result.items ≡ self }
    {
        let Piece {
            mut list,
            start,
            end,
        } = self;
        list.truncate(end);
        list.rotate_left(start);
        list.truncate(end - start);
        list
    }
}
