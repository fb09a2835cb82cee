//! The rules of calls without authentication, RFC 5531 sections 9 and 10.1.

ghost use Rattle.accept_book.specs.RecordRule.{plain_ruling};
ghost use Rattle.gss_server.specs.Answers.{IsSaid};
ghost use Rattle.gss_server.specs.Hearing.{shown};

use crate::gate::Gate;
use crate::heard::Heard;
use crate::saying::{Said, say_denied, say_plain};
use accept_book::Rule;
use rpc_msgs::numbers::{
    AUTH_TOOWEAK, GARBAGE_ARGS, NULL, PROC_UNAVAIL, PROG_MISMATCH, PROG_UNAVAIL, SUCCESS,
};
use std::alloc::Global;

/// Answers a call without authentication.
#[tactic(auto, unfolding(accept_book::specs::RecordRule::plain_ruling))]
pub(crate) fn say_unauthenticated<G: Gate>(alloc: Global, gate: &G, heard: &Heard<'_>) -> Said
    ensures says { IsSaid result (plain_ruling (shown G.program heard.entry.now)) }
{
    let call = &heard.call;
    let id = gate.id();
    if call.program != id.number {
        return say_plain::<G>(alloc, heard, Rule::Program, PROG_UNAVAIL, 0, 0);
    }
    if call.version != id.version {
        let served = id.version;
        return say_plain::<G>(alloc, heard, Rule::Version, PROG_MISMATCH, served, served);
    }
    if !gate.has(call.procedure) {
        return say_plain::<G>(alloc, heard, Rule::Procedure, PROC_UNAVAIL, 0, 0);
    }
    if call.procedure != NULL {
        return say_denied::<G>(alloc, heard, Rule::Weak, AUTH_TOOWEAK);
    }
    if !call.args.is_empty() {
        return say_plain::<G>(alloc, heard, Rule::Arguments, GARBAGE_ARGS, 0, 0);
    }
    say_plain::<G>(alloc, heard, Rule::Done, SUCCESS, 0, 0)
}
