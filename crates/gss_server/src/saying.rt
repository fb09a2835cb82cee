//! Replies of every kind, RFC 5531 section 9; their verifiers are those of RFC 2203 section 5.3.3.2.

ghost use Rattle.std.specs.Prelude.{◌≡◌, ◌≢◌, ◌<◌, ◌≤◌, ◌*◌, length, [], None, Some};
ghost use Rattle.rpc_msgs.specs.Replies.{IsReply, reply_octets, reply_value};
ghost use Rattle.rpc_msgs.specs.Words.{word};
ghost use Rattle.rpcsec_msgs.specs.Cred.{cred_value};
ghost use Rattle.krb_tokens.specs.Mic.{mic_of};
ghost use Rattle.accept_book.specs.RecordShown.{by, plain, signed, denied, end_of};
ghost use Rattle.accept_book.specs.RecordRule.{no_context};
ghost use Rattle.accept_book.specs.Rules.{rule_number};
ghost use Rattle.gss_server.specs.Answers.{IsOther, IsSaid};
ghost use Rattle.gss_server.specs.Hearing.{shown};

use crate::answer::Reply;
use crate::gate::Gate;
use crate::heard::Heard;
use accept_book::{Lease, Rule};
use krb_tokens::{LentKeys, Side, TokenEnd};
use rpc_msgs::numbers::{AUTH_NONE, PROG_MISMATCH, RPCSEC_GSS, RPCSEC_GSS_CREDPROBLEM, SUCCESS};
use rpc_msgs::{Reply as RpcReply, write_reply};
use rpcsec_msgs::GssCred;
use std::alloc::Global;

/// A rule, and the reply by it; at want of memory the rule is 0.
#[derive(Drop)]
pub(crate) struct Said {
    pub rule: u8,
    pub reply: Reply,
}

/// No reply.
pub(crate) fn say_nothing(rule: Rule) -> Said
    requires other { IsOther (rule_number rule) }
    ensures says { IsSaid result (by rule None) }
{
    Said {
        rule: rule.number(),
        reply: Reply::Silent,
    }
}

/// What became of the call isn't known: no reply, and its connection ends.
pub(crate) fn say_gone() -> Said
    ensures says { IsSaid result (by Rule.Lost None) }
{
    Said {
        rule: Rule::Lost.number(),
        reply: Reply::Gone,
    }
}

/// There was no memory for the answer.
pub(crate) fn say_no_memory() -> Said
    ensures rule { result.rule ≡ 0 }
    ensures reply { result.reply ≡ Reply.NoMemory }
{
    Said {
        rule: 0,
        reply: Reply::NoMemory,
    }
}

/// The reply to a caller who isn't accepted.
pub(crate) fn say_denied<G: Gate>(alloc: Global, heard: &Heard<'_>, rule: Rule, stat: u32) -> Said
    requires other { IsOther (rule_number rule) }
    ensures says { IsSaid result (by rule (denied (shown G.program heard.entry.now) stat)) }
{
    let xid = heard.call.xid;
    say_reply(alloc, rule, &RpcReply::AuthError { xid, stat })
}

/// The call is of no context that is known.
pub(crate) fn say_no_context<G: Gate>(alloc: Global, heard: &Heard<'_>) -> Said
    ensures says { IsSaid result (no_context (shown G.program heard.entry.now)) }
{
    say_denied::<G>(alloc, heard, Rule::NoContext, RPCSEC_GSS_CREDPROBLEM)
}

/// An accepted reply without verifier.
pub(crate) fn say_plain<G: Gate>(
    alloc: Global,
    heard: &Heard<'_>,
    rule: Rule,
    stat: u32,
    low: u32,
    high: u32,
) -> Said
    requires other { IsOther (rule_number rule) }
    requires low { stat ≢ PROG_MISMATCH → low ≡ 0 }
    requires high { stat ≢ PROG_MISMATCH → high ≡ 0 }
    ensures says { IsSaid result (by rule (plain (shown G.program heard.entry.now) stat low high
        [])) }
{
    let reply = RpcReply::Accepted {
        xid: heard.call.xid,
        flavour: AUTH_NONE,
        verf: &[],
        stat,
        low,
        high,
        result: &[],
    };
    say_reply(alloc, rule, &reply)
}

/// A reply that fits into a record.
pub(crate) fn say_reply(alloc: Global, rule: Rule, reply: &RpcReply<'_>) -> Said
    requires other { IsOther (rule_number rule) }
    requires proper { IsReply (reply_value reply.now) }
    requires fits { length (reply_octets (reply_value reply.now)) ≤ 131072 }
    ensures says { IsSaid result (by rule (Some (reply_octets (reply_value reply.now)))) }
{
    match write_reply(alloc, reply) {
        Ok(octets) => Said {
            rule: rule.number(),
            reply: Reply::Bytes(octets),
        },
        Err(_) => say_no_memory(),
    }
}

/// The end of a context that takes and makes its tokens here.
pub(crate) fn end_at(lease: &Lease) -> TokenEnd
    ensures { result ≡ end_of lease.now }
{
    TokenEnd {
        key: lease.outcome.key,
        side: Side::Acceptor,
        subkey: lease.outcome.subkey,
    }
}

/// The verifier of a reply: a MIC over the number of the call.
#[tactic(auto, unfolding(rpc_msgs::specs::Words::word))]
pub(crate) fn verifier(seq: u32, keys: &LentKeys<'_>, lease: &Lease) -> [u8; 28]
    ensures { result ≡ mic_of (end_of lease.now) (2 * seq) (word seq) }
{
    end_at(lease).make_mic_by(keys, 2 * seq as u64, &seq.to_be_bytes())
}

/// An accepted reply with the verifier of a reply to a call.
pub(crate) fn say_signed<G: Gate>(
    alloc: Global,
    heard: &Heard<'_>,
    cred: &GssCred<'_>,
    lease: &Lease,
    keys: &LentKeys<'_>,
    rule: Rule,
    stat: u32,
    low: u32,
    high: u32,
    body: &[u8],
) -> Said
    requires other { IsOther (rule_number rule) }
    requires low { stat ≢ PROG_MISMATCH → low ≡ 0 }
    requires high { stat ≢ PROG_MISMATCH → high ≡ 0 }
    requires body { stat ≢ SUCCESS → body.now ≡ [] }
    requires size { length body.now ≤ 130000 }
    ensures says { IsSaid result (by rule
        (signed (shown G.program heard.entry.now) (cred_value cred.now) lease.now stat low high
        body.now)) }
{
    let mic = verifier(cred.seq, keys, lease);
    let reply = RpcReply::Accepted {
        xid: heard.call.xid,
        flavour: RPCSEC_GSS,
        verf: &mic,
        stat,
        low,
        high,
        result: body,
    };
    say_reply(alloc, rule, &reply)
}

/// The same with this stat alone: no versions, and no result.
pub(crate) fn say_stat<G: Gate>(
    alloc: Global,
    heard: &Heard<'_>,
    cred: &GssCred<'_>,
    lease: &Lease,
    keys: &LentKeys<'_>,
    rule: Rule,
    stat: u32,
) -> Said
    requires other { IsOther (rule_number rule) }
    ensures says { IsSaid result
        (by rule (signed (shown G.program heard.entry.now)
        (cred_value cred.now) lease.now stat 0 0 [])) }
{
    say_signed::<G>(alloc, heard, cred, lease, keys, rule, stat, 0, 0, &[])
}

/// The program is served in other versions alone: from `low` to `high`.
pub(crate) fn say_mismatch<G: Gate>(
    alloc: Global,
    heard: &Heard<'_>,
    cred: &GssCred<'_>,
    lease: &Lease,
    keys: &LentKeys<'_>,
    rule: Rule,
    low: u32,
    high: u32,
) -> Said
    requires other { IsOther (rule_number rule) }
    ensures says { IsSaid result (by rule (signed (shown G.program heard.entry.now)
        (cred_value cred.now) lease.now PROG_MISMATCH low high [])) }
{
    say_signed::<G>(
        alloc,
        heard,
        cred,
        lease,
        keys,
        rule,
        PROG_MISMATCH,
        low,
        high,
        &[],
    )
}
