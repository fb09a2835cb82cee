//! A program, and who spells its results.

ghost use Rattle.std.specs.Prelude.{◌≡◌, ◌≤◌, true, OnErr, length};
ghost use Rattle.rpc_program.specs.Programs.{IsShort, caller_of};

use crate::outcome::Outcome;
use gss_base::MechKind;
use rpcsec_bodies::Service;
use std::alloc::Global;

/// A program's number, and the version of it that is served (RFC 5531 section 8).
#[derive(Clone, Copy, Debug, PartialEq, Eq)]
pub struct ProgramId {
    pub number: u32,
    pub version: u32,
}

/// Who calls: the initiator's name, at most 255 octets, and the mechanism of its context; the service of
/// the call, and the place of its entry in the log.
#[derive(Clone, Copy)]
pub struct Caller<'a> {
    pub name: &'a [u8],
    pub mech: MechKind,
    pub service: Service,
    pub place: u64,
}

/// An admitted call couldn't be done: its caller is told SYSTEM_ERR (RFC 5531 section 9).
#[derive(Clone, Copy, Debug, PartialEq, Eq)]
pub struct Fault;

/// A program and its state.
///
/// `enter` is asked once for each admitted call of a procedure, in the order of the log, while no other is: one
/// that takes long holds all callers. NULL without authentication is answered by the server itself, and
/// never entered.
pub trait Program {
    ghost use Rattle.std.specs.Prelude.{List, ℕ, Result};
    ghost use Rattle.rpc_program.specs.Programs.{ProgramSays, CallerOf};
    ghost use Rattle.rpc_program.specs.declared.program.Fault.{Fault as FaultOf};

    /// What is kept of an admitted call for its result. Who asks for it can't let it go, so no call is entered
    /// twice.
    type Ticket;

    ghost says: { ProgramSays };

    /// What an admitted call gives, or why it fails: from the program before, of a caller, a procedure and its arguments, to the
    /// program after.
    ghost enters: { Self → CallerOf → ℕ → List ℕ → Result Self.Ticket FaultOf → Self → Type 0 };

    /// Takes an admitted call. One that fails leaves all as it was.
    fn enter(
        &mut self,
        caller: &Caller<'_>,
        procedure: u32,
        args: &[u8],
    ) -> Result<Self::Ticket, Fault>
        requires has { says.has procedure ≡ true }
        requires takes { says.takes procedure args.now ≡ true }
        requires name { length caller.now.name.now ≤ 255 }
        ensures enters { enters self.old (caller_of caller.now) procedure args.now result self.new }
        ensures kept { OnErr result (self.new ≡ self.old) };
}

/// Who spells the results of a program, one for each desk, while other calls are entered; and what the program takes.
pub trait Speller<T> {
    ghost use Rattle.std.specs.Prelude.{List, ℕ, false};
    ghost use Rattle.rpc_program.specs.Programs.{ProgramSays, CallerOf, NONE};
    ghost use Rattle.rpc_program.specs.declared.outcome.Outcome.{Outcome as OutcomeOf};
    ghost use Rattle.rpc_program.specs.declared.limits.TheConstants.{MOST};

    ghost says: { ProgramSays };

    /// What may become of a call with this ticket, from the speller before to the speller after.
    ghost spells: { Self → CallerOf → ℕ → List ℕ → T → OutcomeOf → Self → Type 0 };

    /// Which program it is.
    fn id(&self) -> ProgramId
        ensures { result ≡ says.id };

    /// Whether the program has a procedure. None has the last number there is, by which a number is taken for
    /// no call.
    fn has(&self, procedure: u32) -> bool
        ensures value { result ≡ says.has procedure }
        ensures none { procedure ≡ NONE → result ≡ false };

    /// The least service by which a procedure is called (RFC 2203 section 5.2.2).
    fn needs(&self, procedure: u32) -> Service
        ensures { result ≡ says.needs procedure };

    /// Whether octets are a procedure's arguments.
    fn takes(&self, procedure: u32, args: &[u8]) -> bool
        ensures value { result ≡ says.takes procedure args.now }
        ensures size { result ≡ true → length args.now ≤ MOST };

    /// Spells the result of a call that was entered.
    fn spell(
        &mut self,
        alloc: Global,
        caller: &Caller<'_>,
        procedure: u32,
        args: &[u8],
        ticket: T,
    ) -> Outcome
        requires has { says.has procedure ≡ true }
        requires takes { says.takes procedure args.now ≡ true }
        requires few { length args.now ≤ MOST }
        requires name { length caller.now.name.now ≤ 255 }
        ensures spells { spells self.old (caller_of caller.now) procedure args.now ticket result
            self.new }
        ensures short { IsShort result };
}
