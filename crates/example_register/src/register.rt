//! A register: a word that callers read and write.

ghost use Rattle.std.specs.Prelude.{◌≡◌, ℕ, length};
ghost use Rattle.std.specs.Int.{w32, from_be_bytes};
ghost use Rattle.service_kit.specs.Apart.{IsApart, NoList};
ghost use Rattle.example_register.specs.Register.{register_says, result_of};

use service_kit::{
    Answerer, Caller, Fault, Octets, Outcome, Program, ProgramId, Service, prove_told_apart,
};
use std::alloc::Global;

/// The program (of the range that RFC 5531 section 8.3 leaves to users).
pub const PROGRAM: u32 = 0x2000_4754;

/// Its version.
pub const VERSION: u32 = 1;

/// Its procedures: nothing is done (RFC 5531 section 12.1).
pub const NULL: u32 = 0;

/// Its procedures: the word.
pub const READ: u32 = 1;

/// Its procedures, the last: another word in its place.
pub const WRITE: u32 = 2;

/// What the register holds.
#[derive(Drop)]
pub struct Register {
    pub word: u32,
}

/// The word that four octets spell (RFC 4506 section 4.2).
fn word_in(octets: &[u8]) -> u32
    requires { length octets.now ≡ 4 }
    ensures { result ≡ from_be_bytes w32 octets.now }
{
    let mut word = [0; 4];
    word.copy_from_slice(octets);
    u32::from_be_bytes(word)
}

impl Program for Register {
    ghost use Rattle.std.specs.Prelude.{◌≡◌, Ok};
    ghost use Rattle.example_register.specs.Register.{register_says, word_after};

    type Ticket = u32;

    ghost says = { register_says };

    ghost enters = { λ old _ procedure args entered new. (entered ≡ Ok old.word)
        × (new.word ≡ word_after old.word procedure args) };

    fn enter(&mut self, caller: &Caller<'_>, procedure: u32, args: &[u8]) -> Result<u32, Fault> {
        let before = self.word;
        if procedure == WRITE {
            self.word = word_in(args);
        }
        Ok(before)
    }
}

/// Who spells the results.
#[derive(Drop)]
pub struct Words;

impl Answerer<u32> for Words {
    ghost use Rattle.example_register.specs.Register.{register_says, result_of};

    ghost says = { register_says };

    ghost answers = { λ _ procedure _ before. result_of procedure before };

    fn id(&self) -> ProgramId {
        ProgramId {
            number: PROGRAM,
            version: VERSION,
        }
    }

    fn has(&self, procedure: u32) -> bool {
        procedure < 3
    }

    fn needs(&self, procedure: u32) -> Service {
        if procedure == NULL {
            return Service::None;
        }
        Service::Integrity
    }

    fn takes(&self, procedure: u32, args: &[u8]) -> bool {
        if procedure == WRITE {
            return args.len() == 4;
        }
        args.is_empty()
    }

    fn answer(
        &self,
        alloc: Global,
        caller: &Caller<'_>,
        procedure: u32,
        args: &[u8],
        ticket: u32,
    ) -> Outcome {
        if procedure == NULL {
            return Outcome::Done(Octets::from_vec(Vec::new(alloc)));
        }
        match Octets::of(alloc, &ticket.to_be_bytes()) {
            Ok(octets) => Outcome::Done(octets),
            Err(_) => Outcome::NoMemory,
        }
    }
}

/// Does nothing; its contract holds what agreement and origin ask of a program: that its arguments aren't taken for a header or a list of
/// mechanisms, which are signed by the same key, nor its results for a list.
pub fn prove_apart()
    ensures args { IsApart register_says }
    ensures results { (procedure before : ℕ) → NoList (result_of procedure before) }
{
    prove_told_apart();
}
