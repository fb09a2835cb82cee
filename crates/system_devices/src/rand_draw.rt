//! Random octets of a generator that the system seeds.

ghost use Rattle.std.specs.Prelude.{◌≡◌, ◌++◌, ℕ, List, [], length, IfOk, IsTrue};
ghost use Rattle.rand_chacha.specs.ChaCha as chacha;
ghost use Rattle.rand_core.specs.Stream.{fill_bytes};
ghost use Rattle.system_devices.specs.Devices.{generator_of, to_come};

use rand::rngs::StdRng;
use rand::{Rng, make_rng};
use sec_base::{Draw, Trail};
use std::io;
use std::random::RandomSource;

/// A strong generator that the system's source of random octets seeded. It tells the octets that it gave.
#[derive(Drop)]
pub struct RandDraw {
    generator: StdRng,
    given: Trail,
}

impl RandDraw {
    /// A generator with a new seed; an error where the system gives none.
    pub fn new<R: RandomSource>(rt: &R) -> io::Result<RandDraw>
        ensures seed { IfOk result (λ draw. (seed : List ℕ) × (length seed ≡ 32)
            × (generator_of draw ≡ chacha.of_seed seed)) }
        ensures none { IfOk result (λ draw. ⟦<RandDraw as Draw>⟧.given draw ≡ []) }
        ensures tells { IfOk result (λ draw. IsTrue (⟦<RandDraw as Draw>⟧.tells draw)) }
    {
        let generator = make_rng(rt)?;
        let given = Trail::new();
        Ok(RandDraw { generator, given })
    }
}

impl Draw for RandDraw {
    ghost use Rattle.std.specs.Prelude.{true};

    ghost tells = { λ _. true };

    ghost given = { λ draw. draw.given.octets };

    fn fill(&mut self, out: &mut [u8])
        ensures kept { IsTrue (⟦<RandDraw as Draw>⟧.tells self.new)
            → IsTrue (⟦<RandDraw as Draw>⟧.tells self.old) }
        ensures told { IsTrue (⟦<RandDraw as Draw>⟧.tells self.new)
            → ⟦<RandDraw as Draw>⟧.given self.new
            ≡ ⟦<RandDraw as Draw>⟧.given self.old ++ out.new }
        // the octets are the next ones of the generator
        ensures stream { (out.new, to_come self.new)
            ≡ fill_bytes (length out.old) (to_come self.old) }
    {
        self.generator.fill_bytes(out);
        self.given = self.given.then(out);
    }
}
