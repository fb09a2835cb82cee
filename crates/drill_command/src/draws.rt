//! What a session's draws are: a generator that tells what it gave.

ghost use Rattle.std.specs.Prelude.{◌≡◌, ◌++◌, ◌+◌, ◌*◌, [], ℕ, IsTrue, length};
ghost use base.Fml.{ftrue};
ghost use Rattle.gate_models.specs.Looping.{drawn_in};
ghost use Rattle.drill_plan.specs.Generator.{octets_from, after_steps};

use drill_plan::Generator;
use gss_server::Kept;
use sec_base::Draw;
use std::marker::{Brand, Model, PhantomData};

/// Names the value that a generator has as a session begins.
pub trait Begun {
    ghost value: { ℕ };
}

impl Begun for Brand {
    ghost value = { 0 };
}

/// How many octets were given. It has no bytes: the count exists in the proofs alone.
#[derive(Drop)]
struct Count {
    pub(crate) ghost count: { ℕ },
}

impl Model for Count {
    ghost also_owns = { λ _. ftrue };
}

impl Count {
    /// None.
    fn new() -> Count
        ensures { result.count ≡ 0 }
    {
        Count {}
    }

    /// So many more.
    fn then(&self, _more: usize) -> Count
        ensures { result.count ≡ self.now.count + _more }
    {
        Count {}
    }
}

/// A generator that began with a value which its type names, and tells what it gave since.
#[derive(Drop)]
pub struct Drawing<B: Begun> {
    generator: Generator,
    count: Count,
    of: PhantomData<B>,
    ghost place: { generator.value ≡ after_steps count.count B.value },
}

impl<B: Begun> Drawing<B> {
    /// A generator that gave nothing yet.
    pub fn new(generator: Generator) -> Drawing<B>
        requires { generator.value ≡ B.value }
        ensures { ⟦<Drawing<B> as Draw>⟧.given result ≡ [] }
    {
        Drawing {
            generator,
            count: Count::new(),
            of: PhantomData,
        }
    }

    /// The generator, after what it gave: the octets that come next of the value with which it began.
    pub fn into_generator(self) -> Generator
        ensures given { ⟦<Drawing<B> as Draw>⟧.given self
            ≡ octets_from (length (⟦<Drawing<B> as Draw>⟧.given self)) B.value }
        ensures place { result.value
            ≡ after_steps (length (⟦<Drawing<B> as Draw>⟧.given self)) B.value }
    {
        let Drawing { generator, .. } = self;
        generator
    }
}

impl<B: Begun> Draw for Drawing<B> {
    ghost use Rattle.std.specs.Prelude.{true};

    ghost tells = { λ _. true };

    ghost given = { λ d. octets_from d.count.count B.value };

    fn fill(&mut self, out: &mut [u8])
        ensures kept { IsTrue (⟦<Drawing<B> as Draw>⟧.tells self.new)
            → IsTrue (⟦<Drawing<B> as Draw>⟧.tells self.old) }
        ensures told { IsTrue (⟦<Drawing<B> as Draw>⟧.tells self.new)
            → ⟦<Drawing<B> as Draw>⟧.given self.new
            ≡ ⟦<Drawing<B> as Draw>⟧.given self.old ++ out.new }
    {
        self.generator.fill(out);
        self.count = self.count.then(out.len());
    }
}

/// Does nothing: this many octets were drawn for an answer.
fn tell_size(draws: &[u8; 82])
    ensures { length draws.now ≡ 82 }
{
    let _size = draws.len();
}

/// Does nothing: 82 octets were drawn for each of these answers.
pub fn tell_sizes(kept: &[Kept])
    ensures { length (drawn_in kept.now) ≡ 82 * length kept.now }
{
    for one in kept {
        tell_size(&one.draws);
    }
}
