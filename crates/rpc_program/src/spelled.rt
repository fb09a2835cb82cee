//! Spelling by a function.

ghost use Rattle.std.specs.Prelude.{◌≡◌, ◌≤◌, true, length};
ghost use Rattle.rpc_program.specs.Programs.{Gives, IsShort, caller_of};

use crate::outcome::Outcome;
use crate::program::{Caller, ProgramId, Speller};
use rpcsec_bodies::Service;
use std::alloc::Global;

/// Who spells results by a function of the call and its ticket.
pub trait Answerer<T> {
    ghost use Rattle.std.specs.Prelude.{List, ℕ, false};
    ghost use Rattle.rpc_program.specs.Programs.{ProgramSays, CallerOf, NONE};
    ghost use Rattle.rpc_program.specs.declared.limits.TheConstants.{MOST};

    ghost says: { ProgramSays };

    /// The result of a call: of its caller, procedure, arguments and ticket.
    ghost answers: { CallerOf → ℕ → List ℕ → T → List ℕ };

    /// Which program it is.
    fn id(&self) -> ProgramId
        ensures { result ≡ says.id };

    /// Whether the program has a procedure; none has the last number there is.
    fn has(&self, procedure: u32) -> bool
        ensures value { result ≡ says.has procedure }
        ensures none { procedure ≡ NONE → result ≡ false };

    /// The least service by which a procedure is called.
    fn needs(&self, procedure: u32) -> Service
        ensures { result ≡ says.needs procedure };

    /// Whether octets are a procedure's arguments.
    fn takes(&self, procedure: u32, args: &[u8]) -> bool
        ensures value { result ≡ says.takes procedure args.now }
        ensures size { result ≡ true → length args.now ≤ MOST };

    /// Spells the result.
    fn answer(
        &self,
        alloc: Global,
        caller: &Caller<'_>,
        procedure: u32,
        args: &[u8],
        ticket: T,
    ) -> Outcome
        requires has { says.has procedure ≡ true }
        requires takes { says.takes procedure args.now ≡ true }
        requires few { length args.now ≤ MOST }
        requires name { length caller.now.name.now ≤ 255 }
        ensures value { Gives args.now (answers (caller_of caller.now) procedure args.now ticket)
            result }
        ensures short { IsShort result };
}

/// A speller by a function.
#[derive(Drop)]
pub struct Spelled<A> {
    pub by: A,
}

impl<T, A: Answerer<T>> Speller<T> for Spelled<A> {
    ghost use Rattle.std.specs.Prelude.{◌≡◌};
    ghost use Rattle.rpc_program.specs.Programs.{Gives};

    ghost says = { A.says };

    ghost spells = { λ old caller procedure args ticket outcome new.
        Gives args (A.answers caller procedure args ticket) outcome × (new ≡ old) };

    fn id(&self) -> ProgramId {
        self.by.id()
    }

    fn has(&self, procedure: u32) -> bool {
        self.by.has(procedure)
    }

    fn needs(&self, procedure: u32) -> Service {
        self.by.needs(procedure)
    }

    fn takes(&self, procedure: u32, args: &[u8]) -> bool {
        self.by.takes(procedure, args)
    }

    fn spell(
        &mut self,
        alloc: Global,
        caller: &Caller<'_>,
        procedure: u32,
        args: &[u8],
        ticket: T,
    ) -> Outcome {
        self.by.answer(alloc, caller, procedure, args, ticket)
    }
}
