//! A source of octets in memory.

ghost use Rattle.std.specs.Prelude.{◌≡◌, ◌+◌, ◌++◌, ◌∷◌, [], IsTrue, length};
ghost use Rattle.sec_base.specs.MemDraw.{octets_given, stated_octets};

use crate::draw::Draw;

/// A source that gives the octets of a list and then counts upwards from 0, modulo 256. It tells them, until it has given
/// 2^64 - 1.
#[derive(Drop)]
pub struct MemDraw {
    octets: Vec<u8>,
    count: u64,
}

impl MemDraw {
    pub fn new(octets: Vec<u8>) -> MemDraw
        ensures given { ⟦<MemDraw as Draw>⟧.given result ≡ [] }
        ensures tells { IsTrue (⟦<MemDraw as Draw>⟧.tells result) }
        ensures stated { stated_octets result ≡ octets.items }
    {
        MemDraw { octets, count: 0 }
    }

    /// The next octet.
    fn next(&mut self) -> u8
        ensures kept { IsTrue (⟦<MemDraw as Draw>⟧.tells self.new)
            → IsTrue (⟦<MemDraw as Draw>⟧.tells self.old) }
        ensures told { IsTrue (⟦<MemDraw as Draw>⟧.tells self.new) → ⟦<MemDraw as Draw>⟧.given
            self.new ≡ ⟦<MemDraw as Draw>⟧.given self.old ++ result ∷ [] }
        ensures stated { stated_octets self.new ≡ stated_octets self.old }
    {
        let octet = octet_at(&self.octets, self.count);
        self.count = self.count.saturating_add(1);
        octet
    }
}

/// The octet after `count` others.
fn octet_at(octets: &[u8], count: u64) -> u8
    ensures { octets_given octets.now (count + 1) ≡ octets_given octets.now count ++ result ∷ [] }
{
    let length = octets.len() as u64;
    if count < length {
        octets[count as usize]
    } else {
        ((count - length) % 256) as u8
    }
}

impl Draw for MemDraw {
    ghost use Rattle.std.specs.Prelude.{nat_lt, ◌^◌, ◌-◌};

    ghost tells = { λ d. nat_lt d.count (2 ^ 64 - 1) };

    ghost given = { λ d. octets_given d.octets.items d.count };

    fn fill(&mut self, out: &mut [u8])
        ensures kept { IsTrue (⟦<MemDraw as Draw>⟧.tells self.new)
            → IsTrue (⟦<MemDraw as Draw>⟧.tells self.old) }
        ensures told { IsTrue (⟦<MemDraw as Draw>⟧.tells self.new)
            → ⟦<MemDraw as Draw>⟧.given self.new
            ≡ ⟦<MemDraw as Draw>⟧.given self.old ++ out.new }
        ensures stated { stated_octets self.new ≡ stated_octets self.old }
        ensures front { ⟦<MemDraw as Draw>⟧.given self.new
            ≡ octets_given (stated_octets self.new)
            (length (⟦<MemDraw as Draw>⟧.given self.new)) }
    {
        for octet in out.iter_mut() {
            *octet = self.next();
        }
    }
}
