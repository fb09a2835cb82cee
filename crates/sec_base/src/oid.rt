//! Object identifiers by their content octets, ITU-T X.690 section 8.19.

ghost use Rattle.std.specs.Prelude.{◌≡◌, if◌then◌else◌, true, Some, None, nat_eq};
ghost use Rattle.std.proofs.Common.{rules};
ghost use Rattle.std.specs.Cmp.Rules.{comparing};
ghost use Rattle.std.specs.Cmp.Lexicographic.{pointwise};
ghost use Rattle.sec_base.specs.Oid.{is_oid};

use std::marker::Model;

/// The most content octets of an object identifier.
const MOST: usize = 32;

/// An object identifier of at most 32 content octets. Contracts see the content.
#[derive(Clone, Copy, Debug)]
pub struct Oid {
    cells: [u8; 32],
    count: usize,
}

impl Model for Oid {
    ghost use Rattle.std.specs.Prelude.{List, ℕ, length, take, ◌++◌};
    ghost use Rattle.sec_base.specs.Padded.{IsPadded, zeros_after, padded_again, within_of};

    ghost Value = { List ℕ };

    ghost view = { λ o. take o.count o.cells };

    ghost use Rattle.std.proofs.Common.{length-take-le};
    ghost use Rattle.sec_base.specs.OidCells.{IsOidCells};

    ghost invariant = { λ o. IsOidCells o.cells o.count };

    ghost inverse = { λ c. record { cells = zeros_after 32 c; count = length c } };

    ghost inverse_ok = { λ o h i. record {
      cells = padded_again 32 o.cells o.count h.padded i;
      count = length-take-le o.count o.cells (within_of 32 o.cells o.count h.padded) i;
    } };
}

impl Oid {
    /// The object identifier with this content; None exactly where it isn't one.
    pub fn new(content: &[u8]) -> Option<Oid>
        ensures { result ≡ (if is_oid content.now then Some content.now else None) }
    {
        if !is_content(content) {
            return None;
        }
        let mut cells = [0; MOST];
        cells[..content.len()].copy_from_slice(content);
        Some(Oid {
            cells,
            count: content.len(),
        })
    }

    /// The content octets.
    pub fn content(&self) -> &[u8]
        ensures content { result.now ≡ self.now }
        ensures grammar { is_oid self.now ≡ true }
    {
        &self.cells[..self.count]
    }
}

impl PartialEq for Oid {
    ghost eq = { pointwise nat_eq };

    ghost laws = { Prim.search (comparing, rules) };

    fn eq(&self, other: &Oid) -> bool {
        self.content() == other.content()
    }
}

/// Whether these octets are the content of an object identifier of at most 32 octets.
fn is_content(content: &[u8]) -> bool
    ensures { result ≡ is_oid content.now }
{
    let mut begins = true;
    for octet in content {
        if begins && *octet == 0x80 {
            return false;
        }
        begins = *octet < 0x80;
    }
    begins && !content.is_empty() && content.len() <= MOST
}
