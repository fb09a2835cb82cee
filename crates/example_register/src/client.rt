//! A client of the register.

ghost use Rattle.std.specs.Prelude.{◌≡◌, ◌≤◌, IfSome, IsTrue, None, false, length};
ghost use Rattle.service_kit.specs.Calling.{Rose, TalkedByPassword, calls_of};
ghost use Rattle.example_register.specs.Client.{write_then_read};

use crate::register::{PROGRAM, READ, VERSION, WRITE};
use service_kit::{
    ClientRefusal, Draw, DueCall, Link, Octets, Parting, Query, Service, Talk, Terms,
    hold_by_password,
};
use std::alloc::Global;

/// The user, and the password, which the client alone knows: the server has a verifier of it.
pub const USER: &str = "alice";

pub const PASSWORD: &str = "open sesame";

/// Calls go by integrity, so that a MIC covers each argument and each result (RFC 2203 section 5.3.2.2).
const TERMS: Terms = Terms {
    service: Service::Integrity,
    program: PROGRAM,
    version: VERSION,
};

/// A procedure of the register whose result is a word.
#[derive(Clone, Copy)]
pub struct Ask {
    procedure: u32,
}

impl Query for Ask {
    ghost use Rattle.std.specs.Prelude.{◌==◌, length};

    ghost says = { λ ask. record {
      number = ask.procedure;
      is_result = λ octets. length octets == 4;
    } };

    fn number(&self) -> u32 {
        self.procedure
    }

    fn is_result(&self, octets: &[u8]) -> bool {
        octets.len() == 4
    }
}

/// A call that is due.
fn due(alloc: Global, procedure: u32, args: &[u8]) -> Option<DueCall<Ask>>
    requires { length args.now ≤ 65540 }
    ensures { IfSome result (λ call. call
        ≡ record { query = record { procedure = procedure }; args = args.now }) }
{
    let args = Octets::of(alloc, args).ok()?;
    Some(DueCall::of(Ask { procedure }, args))
}

/// The calls that write a word and read it.
fn calls(alloc: Global, word: u32) -> Option<Vec<DueCall<Ask>>>
    ensures { IfSome result (λ calls. calls_of ⟦<Ask as Query>⟧.says calls.items
        ≡ write_then_read word) }
{
    let mut calls = Vec::new(alloc);
    calls.push(due(alloc, WRITE, &word.to_be_bytes())?).ok()?;
    calls.push(due(alloc, READ, &[])?).ok()?;
    Some(calls)
}

/// Writes a word, and reads it, in one session: its results are the word before and the word after. None where memory wants, and then
/// nothing was sent.
pub fn write_and_read<L: Link, D: Draw>(
    alloc: Global,
    link: &mut L,
    draw: &mut D,
    word: u32,
) -> Option<Talk>
    requires { L.closed link.old ≡ false }
    ensures told { IsTrue (L.tells link.old) → IfSome result (λ talk. TalkedByPassword
        (D.tells draw.new) (D.given draw.old) (D.given draw.new) USER.now PASSWORD.now TERMS
        (write_then_read word) (L.wire link.old) (L.wire link.new) talk.outcome
        talk.results.items talk.parting) }
    ensures fault { IfSome result (λ talk. talk.parting ≡ Parting.Refused ClientRefusal.LinkFault
        → Rose (L.faults link.old) (L.faults link.new)) }
    ensures wanting { result ≡ None → link.new ≡ link.old }
{
    let calls = calls(alloc, word)?;
    hold_by_password(alloc, link, draw, USER, PASSWORD, TERMS, calls.as_slice())
}
