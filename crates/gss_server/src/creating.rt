//! The rules of creation, RFC 2203 section 5.2: INIT and CONTINUE_INIT.

ghost use Rattle.std.specs.Prelude.{◌≡◌, ◌≤◌, length, Some, Ok, take, IfOk};
ghost use Rattle.rpc_msgs.specs.Words.{word};
ghost use Rattle.rpc_msgs.specs.Replies.{accepted, reply_octets};
ghost use Rattle.rpcsec_msgs.specs.Cred.{cred_value};
ghost use Rattle.rpcsec_msgs.specs.InitRes.{init_res_octets};
ghost use Rattle.krb_tokens.specs.Mic.{mic_of};
ghost use Rattle.accept_book.specs.Booking.{token_size};
ghost use Rattle.accept_book.specs.RecordShown.{by, plain, going, settled, refused, refusal_token};
ghost use Rattle.accept_book.specs.RecordShown.{end_of};
ghost use Rattle.accept_book.specs.RecordRule.{stepped, ask_step, continued, token_ruling};
ghost use Rattle.accept_book.specs.RecordRule.{creation_ruling};
ghost use Rattle.accept_book.specs.Rules.{rule_number};
ghost use Rattle.gss_server.specs.Answers.{IsOther, IsSaid};
ghost use Rattle.gss_server.specs.Hearing.{shown, handle_or_none};
ghost use Rattle.gss_server.specs.Ruled.{IsRuled, unasked};

use crate::asks::Asks;
use crate::gate::Gate;
use crate::heard::Heard;
use crate::opening::{id_in, token_in};
use crate::saying::{Said, end_at, say_no_context, say_no_memory, say_plain, say_reply};
use crate::statuses::major_of;
use accept_book::{BookRefusal, Lease, NegAnswer, Negotiated, Rule};
use gss_base::status::{COMPLETE, CONTINUE_NEEDED};
use rpc_msgs::Reply as RpcReply;
use rpc_msgs::numbers::{
    AUTH_NONE, GARBAGE_ARGS, PROG_MISMATCH, PROG_UNAVAIL, RPCSEC_GSS, SUCCESS,
};
use rpcsec_msgs::numbers::RPCSEC_GSS_INIT;
use rpcsec_msgs::{GssCred, InitRes, write_init_res};
use sec_base::{NoMemory, Octets};
use std::alloc::Global;

/// A negotiation token that says reject (RFC 4178 section 4.2.2).
static REJECT: [u8; 9] = [0xa1, 7, 0x30, 5, 0xa0, 3, 10, 1, 2];

/// The number of the MIC over the window.
const WINDOW_MIC: u64 = 1;

/// The octets of a creation's result.
fn result_octets(
    alloc: Global,
    id: Option<u64>,
    major: u32,
    minor: u32,
    window: u32,
    token: &[u8],
) -> Result<Octets, NoMemory>
    requires { length token.now ≤ 65536 }
    ensures value { IfOk result (λ octets. octets ≡ init_res_octets (record {
      context = handle_or_none id;
      major = major;
      minor = minor;
      window = window;
      token = token.now;
    })) }
    ensures size { IfOk result (λ octets. length octets ≤ 130000) }
{
    let result = InitRes {
        context: handle(alloc, id)?,
        major,
        minor,
        window,
        token: Octets::of(alloc, token)?,
    };
    write_init_res(alloc, &result)
}

/// A handle: the id in 8 octets, or nothing.
fn handle(alloc: Global, id: Option<u64>) -> Result<Octets, NoMemory>
    ensures { IfOk result (λ octets. octets ≡ handle_or_none id) }
{
    match id {
        Some(id) => Octets::of(alloc, &id.to_be_bytes()),
        None => Octets::of(alloc, &[]),
    }
}

/// A context goes on: its handle, and the token for the initiator.
fn say_going<G: Gate>(alloc: Global, heard: &Heard<'_>, id: u64, token: &[u8]) -> Said
    requires { length token.now ≤ 65536 }
    ensures says { IsSaid result (by Rule.Going (going
        (shown G.program heard.entry.now) id token.now)) }
{
    match result_octets(alloc, Some(id), CONTINUE_NEEDED, 0, 0, token) {
        Ok(result) => say_creation::<G>(alloc, heard, Rule::Going, result.as_slice()),
        Err(_) => say_no_memory(),
    }
}

/// A creation's result without a verifier.
fn say_creation<G: Gate>(alloc: Global, heard: &Heard<'_>, rule: Rule, body: &[u8]) -> Said
    requires other { IsOther (rule_number rule) }
    requires size { length body.now ≤ 130000 }
    ensures says { IsSaid result (by rule (plain (shown G.program heard.entry.now) 0 0 0
        body.now)) }
{
    let reply = RpcReply::Accepted {
        xid: heard.call.xid,
        flavour: AUTH_NONE,
        verf: &[],
        stat: SUCCESS,
        low: 0,
        high: 0,
        result: body,
    };
    say_reply(alloc, rule, &reply)
}

/// A context is complete: its handle, the window, the token for the initiator, and a MIC over the window.
fn say_settled<G: Gate>(alloc: Global, heard: &Heard<'_>, lease: &Lease, token: &[u8]) -> Said
    requires { length token.now ≤ 65536 }
    ensures says { IsSaid result
        (by Rule.Settled (settled (shown G.program heard.entry.now) lease.now token.now)) }
{
    match result_octets(alloc, Some(lease.id), COMPLETE, 0, heard.width, token) {
        Ok(result) => say_window(alloc, heard, lease, result.as_slice()),
        Err(_) => say_no_memory(),
    }
}

/// A creation's result with a MIC over the window.
fn say_window(alloc: Global, heard: &Heard<'_>, lease: &Lease, body: &[u8]) -> Said
    requires { length body.now ≤ 130000 }
    ensures says { IsSaid result (by Rule.Settled
        (Some (reply_octets (accepted heard.entry.now.call.xid 6
        (mic_of (end_of lease.now) 1 (word heard.entry.now.width)) 0 0 0 body.now)))) }
{
    let mic = window_mic(heard.width, lease);
    let reply = RpcReply::Accepted {
        xid: heard.call.xid,
        flavour: RPCSEC_GSS,
        verf: &mic,
        stat: SUCCESS,
        low: 0,
        high: 0,
        result: body,
    };
    say_reply(alloc, Rule::Settled, &reply)
}

/// The MIC over the window.
#[tactic(auto, unfolding(rpc_msgs::specs::Words::word))]
fn window_mic(width: u32, lease: &Lease) -> [u8; 28]
    ensures { result ≡ mic_of (end_of lease.now) 1 (word width) }
{
    end_at(lease).make_mic(WINDOW_MIC, &width.to_be_bytes())
}

/// The token that says reject, or none where the context was complete.
fn reject(refusal: &BookRefusal) -> &'static [u8]
    ensures value { result.now ≡ refusal_token refusal.now }
    ensures size { length result.now ≤ 9 }
{
    match refusal {
        BookRefusal::AlreadyComplete => &[],
        _ => &REJECT,
    }
}

/// A refused step: its major and minor status.
fn say_refused<G: Gate>(alloc: Global, heard: &Heard<'_>, refusal: &BookRefusal) -> Said
    ensures says { IsSaid result (by Rule.Refused (refused
        (shown G.program heard.entry.now) refusal.now)) }
{
    let (major, minor) = (major_of(*refusal), refusal.number());
    match result_octets(alloc, None, major, minor, 0, reject(refusal)) {
        Ok(result) => say_creation::<G>(alloc, heard, Rule::Refused, result.as_slice()),
        Err(_) => say_no_memory(),
    }
}

/// What a step was answered.
fn say_stepped<G: Gate>(alloc: Global, heard: &Heard<'_>, answer: &NegAnswer) -> Said
    requires { token_size answer.now ≤ 65536 }
    ensures says { IsSaid result (stepped (shown G.program heard.entry.now) answer.now) }
{
    match answer {
        NegAnswer::Going { id, token } => say_going::<G>(alloc, heard, *id, token.as_slice()),
        NegAnswer::Settled { lease, token } => {
            say_settled::<G>(alloc, heard, lease, token.as_slice())
        }
        NegAnswer::Refused(BookRefusal::NoContext) => say_no_context::<G>(alloc, heard),
        NegAnswer::Refused(refusal) => say_refused::<G>(alloc, heard, refusal),
        NegAnswer::NoMemory => say_no_memory(),
    }
}

/// The first 66 draws, which go to the step.
fn step_draws(draws: &[u8; 82]) -> [u8; 66]
    ensures { result ≡ take 66 draws.now }
{
    let mut first = [0; 66];
    first.copy_from_slice(&draws[..66]);
    first
}

/// Asks for a step.
fn ask_for_step<G: Gate>(
    alloc: Global,
    gate: &mut G,
    heard: &Heard<'_>,
    id: Option<u64>,
    token: &[u8],
    asks: &mut Asks,
) -> Said
    requires unasked { asks.old ≡ unasked }
    ensures ruled { IsRuled G.Gate 1 gate.old gate.new asks.new result
        (ask_step (shown G.program heard.entry.now) id token.now asks.new.negotiated) }
{
    let draws = step_draws(&heard.draws);
    let negotiated = gate.negotiate(alloc, id, token, heard.now, &draws);
    let said = say_stepped::<G>(alloc, heard, &negotiated.answer);
    asks.negotiated = Some(negotiated);
    said
}

/// Answers a later token by the id of its context.
fn say_continued<G: Gate>(
    alloc: Global,
    gate: &mut G,
    heard: &Heard<'_>,
    token: &[u8],
    id: Option<u64>,
    asks: &mut Asks,
) -> Said
    requires unasked { asks.old ≡ unasked }
    ensures ruled { IsRuled G.Gate 1 gate.old gate.new asks.new result
        (continued (shown G.program heard.entry.now) token.now asks.new.negotiated id) }
{
    match id {
        None => say_no_context::<G>(alloc, heard),
        Some(id) => ask_for_step(alloc, gate, heard, Some(id), token, asks),
    }
}

/// Answers a creation call with this token.
fn say_token<G: Gate>(
    alloc: Global,
    gate: &mut G,
    heard: &Heard<'_>,
    cred: &GssCred<'_>,
    token: &[u8],
    asks: &mut Asks,
) -> Said
    requires unasked { asks.old ≡ unasked }
    ensures ruled { IsRuled G.Gate 1 gate.old gate.new asks.new result
        (token_ruling (shown G.program heard.entry.now) (cred_value cred.now) asks.new.negotiated
        (Ok token.now)) }
{
    if cred.proc == RPCSEC_GSS_INIT {
        return ask_for_step(alloc, gate, heard, None, token, asks);
    }
    say_continued(alloc, gate, heard, token, id_in(cred.context), asks)
}

/// Answers a creation call.
#[tactic(auto, unfolding(accept_book::specs::RecordRule::creation_ruling))]
pub(crate) fn say_creating<G: Gate>(
    alloc: Global,
    gate: &mut G,
    heard: &Heard<'_>,
    cred: &GssCred<'_>,
    asks: &mut Asks,
) -> Said
    requires unasked { asks.old ≡ unasked }
    ensures ruled { IsRuled G.Gate 1 gate.old gate.new asks.new result
        (creation_ruling (shown G.program heard.entry.now)
        (cred_value cred.now) asks.new.negotiated) }
{
    let call = &heard.call;
    let id = gate.id();
    if call.program != id.number {
        return say_plain::<G>(alloc, heard, Rule::Program, PROG_UNAVAIL, 0, 0);
    }
    if call.version != id.version {
        let served = id.version;
        return say_plain::<G>(alloc, heard, Rule::Version, PROG_MISMATCH, served, served);
    }
    match token_in(call.args) {
        Ok(token) => say_token(alloc, gate, heard, cred, token, asks),
        Err(_) => say_plain::<G>(alloc, heard, Rule::Arguments, GARBAGE_ARGS, 0, 0),
    }
}
