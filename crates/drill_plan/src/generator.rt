//! The generators of a drill.

ghost use Rattle.std.specs.Prelude.{◌≡◌, ◌++◌, length, IsTrue};
ghost use Rattle.drill_plan.specs.Generator.{stepped, top_of, octets_from, after_steps};

use sec_base::Draw;

/// What a step multiplies by, what it adds, and what it divides by: 2^64.
const FACTOR: u128 = 6_364_136_223_846_793_005;

const SUMMAND: u128 = 1_442_695_040_888_963_407;

const MODULUS: u128 = 18_446_744_073_709_551_616;

/// 2^56, by which a value is divided to give its top octet.
const TOP: u64 = 72_057_594_037_927_936;

/// A linear congruence modulo 2^64, of whose new value each step gives the top octet.
#[derive(Clone, Copy)]
pub struct Generator {
    pub value: u64,
}

impl Generator {
    /// The next octet.
    pub fn next(&mut self) -> u8
        ensures value { self.new.value ≡ stepped self.old.value }
        ensures octet { result ≡ top_of (stepped self.old.value) }
    {
        let next = (self.value as u128 * FACTOR + SUMMAND) % MODULUS;
        self.value = next as u64;
        (self.value / TOP) as u8
    }

    /// Passes over so many octets.
    pub fn pass(&mut self, count: u64)
        ensures { self.new.value ≡ after_steps count self.old.value }
    {
        for number in 0..count {
            let _octet = self.next();
        }
    }
}

impl Draw for Generator {
    ghost use Rattle.std.specs.Prelude.{false, []};

    ghost tells = { λ _. false };

    ghost given = { λ _. [] };

    fn fill(&mut self, out: &mut [u8])
        ensures kept { IsTrue (⟦<Generator as Draw>⟧.tells self.new)
            → IsTrue (⟦<Generator as Draw>⟧.tells self.old) }
        ensures told { IsTrue (⟦<Generator as Draw>⟧.tells self.new)
            → ⟦<Generator as Draw>⟧.given self.new
            ≡ ⟦<Generator as Draw>⟧.given self.old ++ out.new }
        // the octets are those of the next steps
        ensures octets { out.new ≡ octets_from (length out.old) self.old.value }
        ensures place { self.new.value ≡ after_steps (length out.old) self.old.value }
    {
        for octet in out.iter_mut() {
            *octet = self.next();
        }
    }
}
