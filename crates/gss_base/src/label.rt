//! The text of a name, of a size at which it is copied freely.
ghost use Rattle.std.specs.Prelude.{◌≡◌, ◌≤◌, if◌then◌else◌, nat_le, nat_eq, length, Some, None};
ghost use Rattle.std.proofs.Common.{rules};
ghost use Rattle.std.specs.Cmp.Rules.{comparing};
ghost use Rattle.std.specs.Cmp.Lexicographic.{pointwise};

use std::marker::Model;
use std::{fmt, str};

/// The most octets of a label.
const MOST: usize = 255;

/// At most 255 octets of UTF-8. Contracts see the list of these octets.
#[derive(Clone, Copy)]
pub struct Label {
    cells: [u8; 255],
    count: u8,
}

impl Model for Label {
    ghost use Rattle.std.specs.Prelude.{List, ℕ, length, take};
    ghost use Rattle.std.proofs.Common.{length-take-le};
    ghost use Rattle.sec_base.specs.Padded.{zeros_after, padded_again, within_of};
    ghost use Rattle.gss_base.specs.Label.{IsLabel};

    ghost Value = { List ℕ };

    ghost view = { λ l. take l.count l.cells };

    ghost invariant = { λ l. IsLabel l.cells l.count };

    ghost inverse = { λ t. record { cells = zeros_after 255 t; count = length t } };

    ghost inverse_ok = { λ l h i. record {
      cells = padded_again 255 l.cells l.count h.padded i;
      count = length-take-le l.count l.cells (within_of 255 l.cells l.count h.padded) i;
    } };
}

impl Label {
    /// The label of `text`; None exactly where it has more than 255 octets.
    pub fn new(text: &str) -> Option<Label>
        ensures { result ≡ (if nat_le (length text.now) 255 then Some text.now else None) }
    {
        if text.len() > MOST {
            return None;
        }
        let mut cells = [0; MOST];
        cells[..text.len()].copy_from_slice(text.as_bytes());
        Some(Label {
            cells,
            count: text.len() as u8,
        })
    }

    /// The octets of it.
    pub fn octets(&self) -> &[u8]
        ensures value { result.now ≡ self.now }
        ensures most { length self.now ≤ 255 }
    {
        &self.cells[..self.count as usize]
    }

    /// The text of it.
    pub fn text(&self) -> &str
        ensures value { result.now ≡ self.now }
        ensures most { length self.now ≤ 255 }
    {
        match str::from_utf8(&self.cells[..self.count as usize]) {
            Ok(text) => text,
            Err(_) => unreachable!(),
        }
    }
}

impl PartialEq for Label {
    ghost eq = { pointwise nat_eq };

    ghost laws = { Prim.search (comparing, rules) };

    fn eq(&self, other: &Label) -> bool {
        self.text().as_bytes() == other.text().as_bytes()
    }
}

impl fmt::Debug for Label {
    fn fmt<W: fmt::Write>(&self, f: &mut fmt::Formatter<W>) -> fmt::Result {
        write!(f, "{:?}", self.text())
    }
}
