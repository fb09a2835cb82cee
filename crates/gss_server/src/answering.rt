//! The answer to a record, by the first rule that applies: the rules of RFC 5531 section 9 up to the credential, and of RFC 2203 sections
//! 5.1 and 5.2.2 on the credential itself.

ghost use Rattle.std.specs.Prelude.{◌≡◌, Ok, Some};
ghost use Rattle.rpc_msgs.specs.Calls.{call_value, call_at};
ghost use Rattle.rpc_msgs.specs.Replies.{mismatch, reply_octets};
ghost use Rattle.rpcsec_msgs.specs.Cred.{cred_value, cred_at};
ghost use Rattle.accept_book.specs.RecordShown.{by, is_other_version};
ghost use Rattle.accept_book.specs.RecordRule.{is_misplaced, id_ruling, cred_ruling, call_ruling};
ghost use Rattle.accept_book.specs.RecordRule.{read_ruling};
ghost use Rattle.gss_server.specs.Answers.{IsSaid};
ghost use Rattle.gss_server.specs.Hearing.{serving, shown};
ghost use Rattle.gss_server.specs.Ruled.{IsRuled, AnswersRecord, kept_with, unasked};

use crate::answer::{Answered, Kept};
use crate::asks::{Asks, unasked};
use crate::creating::say_creating;
use crate::gate::Gate;
use crate::heard::Heard;
use crate::looking::ask_for_look;
use crate::opening::id_in;
use crate::plain::say_unauthenticated;
use crate::saying::{Said, say_denied, say_no_context, say_nothing, say_reply};
use accept_book::Rule;
use krb_tokens::KeyCache;
use rpc_msgs::numbers::{
    AUTH_BADCRED, AUTH_NONE, AUTH_REJECTEDCRED, AUTH_TOOWEAK, NULL, RPC_VERSION, RPCSEC_GSS,
};
use rpc_msgs::{Call, CallRefusal, Reply as RpcReply, read_call};
use rpcsec_msgs::numbers::{
    RPCSEC_GSS_CONTINUE_INIT, RPCSEC_GSS_DATA, RPCSEC_GSS_INIT, RPCSEC_GSS_VERS_1,
};
use rpcsec_msgs::{GssCred, read_cred};
use sec_base::Moment;
use std::alloc::Global;

/// Answers a call of a context by the id of its handle.
fn say_by_id<G: Gate>(
    alloc: Global,
    gate: &mut G,
    heard: &Heard<'_>,
    cred: &GssCred<'_>,
    id: Option<u64>,
    keys: &mut KeyCache,
    asks: &mut Asks,
) -> Said
    requires unasked { asks.old ≡ unasked }
    ensures ruled { IsRuled G.Gate 2 gate.old gate.new asks.new result
        (id_ruling (shown G.program heard.entry.now)
        (cred_value cred.now) asks.new.looked asks.new.admitted
        asks.new.ended id) }
{
    match id {
        None => say_no_context::<G>(alloc, heard),
        Some(id) => ask_for_look(alloc, gate, heard, cred, id, keys, asks),
    }
}

/// Whether the credential and the procedure of a call don't go together.
fn misplaced(call: &Call<'_>, cred: &GssCred<'_>) -> bool
    ensures { result ≡ is_misplaced (call_value call.now) (cred_value cred.now) }
{
    (cred.proc != RPCSEC_GSS_DATA && call.procedure != NULL)
        || (cred.proc == RPCSEC_GSS_INIT && !cred.context.is_empty())
}

/// Answers a call with this credential.
fn say_with<G: Gate>(
    alloc: Global,
    gate: &mut G,
    heard: &Heard<'_>,
    cred: &GssCred<'_>,
    keys: &mut KeyCache,
    asks: &mut Asks,
) -> Said
    requires unasked { asks.old ≡ unasked }
    ensures ruled { IsRuled G.Gate 2 gate.old gate.new asks.new result
        (cred_ruling (shown G.program heard.entry.now) asks.new.negotiated asks.new.looked
        asks.new.admitted asks.new.ended (Ok (cred_value cred.now))) }
{
    if misplaced(&heard.call, cred) {
        return say_denied::<G>(alloc, heard, Rule::Credential, AUTH_BADCRED);
    }
    if cred.proc == RPCSEC_GSS_INIT || cred.proc == RPCSEC_GSS_CONTINUE_INIT {
        return say_creating(alloc, gate, heard, cred, asks);
    }
    say_by_id(alloc, gate, heard, cred, id_in(cred.context), keys, asks)
}

/// Whether a body's first word is there and isn't 1.
fn another_version(body: &[u8]) -> bool
    ensures { result ≡ is_other_version body.now }
{
    if body.len() < 4 {
        return false;
    }
    u32::from_be_bytes([body[0], body[1], body[2], body[3]]) != RPCSEC_GSS_VERS_1
}

/// Answers a call with a credential of flavour 6.
fn say_secure<G: Gate>(
    alloc: Global,
    gate: &mut G,
    heard: &Heard<'_>,
    keys: &mut KeyCache,
    asks: &mut Asks,
) -> Said
    requires unasked { asks.old ≡ unasked }
    ensures ruled { IsRuled G.Gate 2 gate.old gate.new asks.new result
        (cred_ruling (shown G.program heard.entry.now) asks.new.negotiated asks.new.looked
        asks.new.admitted asks.new.ended (cred_at heard.entry.now.call.cred.body.now)) }
{
    match read_cred(heard.call.cred.body) {
        Ok(cred) => say_with(alloc, gate, heard, &cred, keys, asks),
        Err(_) => {
            let stat = if another_version(heard.call.cred.body) {
                AUTH_REJECTEDCRED
            } else {
                AUTH_BADCRED
            };
            say_denied::<G>(alloc, heard, Rule::Credential, stat)
        }
    }
}

/// Answers a call.
#[tactic(auto, unfolding(accept_book::specs::RecordRule::call_ruling))]
fn say_call<G: Gate>(
    alloc: Global,
    gate: &mut G,
    heard: &Heard<'_>,
    keys: &mut KeyCache,
    asks: &mut Asks,
) -> Said
    requires unasked { asks.old ≡ unasked }
    ensures ruled { IsRuled G.Gate 2 gate.old gate.new asks.new result
        (call_ruling (shown G.program heard.entry.now) asks.new.negotiated asks.new.looked
        asks.new.admitted asks.new.ended) }
{
    let flavour = heard.call.cred.flavour;
    if flavour != AUTH_NONE && flavour != RPCSEC_GSS {
        return say_denied::<G>(alloc, heard, Rule::Flavour, AUTH_TOOWEAK);
    }
    if flavour == AUTH_NONE {
        return say_unauthenticated(alloc, gate, heard);
    }
    say_secure(alloc, gate, heard, keys, asks)
}

/// Answers a record.
fn say_record<G: Gate>(
    alloc: Global,
    gate: &mut G,
    bytes: &[u8],
    now: Moment,
    draws: &[u8; 82],
    width: u32,
    keys: &mut KeyCache,
    asks: &mut Asks,
) -> Said
    requires unasked { asks.old ≡ unasked }
    ensures ruled { IsRuled G.Gate 2 gate.old gate.new asks.new result
        (read_ruling bytes.now (kept_with now draws.now asks.new) (serving G.program width)
        (call_at bytes.now)) }
{
    match read_call(bytes) {
        Ok(call) => {
            let draws = *draws;
            let heard = Heard {
                bytes,
                call,
                now,
                draws,
                width,
            };
            say_call(alloc, gate, &heard, keys, asks)
        }
        Err(CallRefusal::Unreadable { at: _ }) => say_nothing(Rule::Unreadable),
        Err(CallRefusal::NotCall) => say_nothing(Rule::NotCall),
        Err(CallRefusal::RpcVersion { xid }) => say_other_version(alloc, xid),
    }
}

/// The reply to another version of RPC.
fn say_other_version(alloc: Global, xid: u32) -> Said
    ensures says { IsSaid result (by Rule.RpcVersion (Some (reply_octets (mismatch xid 2 2)))) }
{
    let reply = RpcReply::Mismatch {
        xid,
        low: RPC_VERSION,
        high: RPC_VERSION,
    };
    say_reply(alloc, Rule::RpcVersion, &reply)
}

/// Answers a record by the first rule that applies, and asks the gate what is due.
pub fn answer_record<G: Gate>(
    alloc: Global,
    gate: &mut G,
    bytes: &[u8],
    now: Moment,
    draws: &[u8; 82],
    width: u32,
) -> Answered
    ensures { AnswersRecord G.Gate gate.old gate.new bytes.now now draws.now
        (serving G.program width) result }
{
    let mut keys = KeyCache::empty();
    answer_record_by(alloc, gate, bytes, now, draws, width, &mut keys)
}

/// The same, by the keys of this cache where they are those of the call's context, whose keys it keeps from then on.
#[tactic(auto, unfolding(accept_book::specs::RecordRule::record_ruling))]
pub fn answer_record_by<G: Gate>(
    alloc: Global,
    gate: &mut G,
    bytes: &[u8],
    now: Moment,
    draws: &[u8; 82],
    width: u32,
    keys: &mut KeyCache,
) -> Answered
    ensures { AnswersRecord G.Gate gate.old gate.new bytes.now now draws.now
        (serving G.program width) result }
{
    let mut asks = unasked();
    let said = say_record(alloc, gate, bytes, now, draws, width, keys, &mut asks);
    let Said { rule, reply } = said;
    let Asks {
        negotiated,
        looked,
        admitted,
        ended,
    } = asks;
    let draws = *draws;
    Answered {
        rule,
        kept: Kept {
            now,
            draws,
            negotiated,
            looked,
            admitted,
            ended,
        },
        reply,
    }
}
