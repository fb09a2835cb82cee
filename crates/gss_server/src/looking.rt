//! The rules of DATA and DESTROY up to the context (RFC 2203 section 5.3.3.3), and those of DESTROY (section 5.4).

ghost use Rattle.std.specs.Prelude.{◌≡◌};
ghost use Rattle.rpcsec_msgs.specs.Cred.{cred_value};
ghost use Rattle.accept_book.specs.RecordRule.{ended_ruling, ask_end, destroy_ruling};
ghost use Rattle.accept_book.specs.RecordRule.{looked_ruling, ask_look};
ghost use Rattle.gss_server.specs.Answers.{IsSaid};
ghost use Rattle.gss_server.specs.Hearing.{shown};
ghost use Rattle.gss_server.specs.Ruled.{IsRuled, IsRuledInContext, unasked};

use crate::asks::Asks;
use crate::calling::{say_data, say_unadmitted, screened};
use crate::foresight::{foresee_short, lend_short};
use crate::gate::Gate;
use crate::heard::Heard;
use crate::saying::{Said, end_at, say_denied, say_no_context, say_stat};
use accept_book::{AdmitRefusal, Lease, LookRefusal, Receipt, Rule};
use krb_tokens::{KeyCache, LentKeys};
use rpc_msgs::numbers::{RPCSEC_GSS_CTXPROBLEM, SUCCESS};
use rpcsec_msgs::GssCred;
use rpcsec_msgs::numbers::{RPC_GSS_SVC_PRIVACY, RPCSEC_GSS_DATA};
use std::alloc::Global;

/// A context was ended, or why it wasn't.
fn say_ended<G: Gate>(
    alloc: Global,
    heard: &Heard<'_>,
    cred: &GssCred<'_>,
    lease: &Lease,
    keys: &LentKeys<'_>,
    answer: &Result<Receipt, AdmitRefusal>,
) -> Said
    ensures says { IsSaid result
        (ended_ruling (shown G.program heard.entry.now)
        (cred_value cred.now) lease.now answer.now) }
{
    match answer {
        Ok(_) => say_stat::<G>(alloc, heard, cred, lease, keys, Rule::Ended, SUCCESS),
        Err(refusal) => say_unadmitted::<G>(alloc, heard, cred, lease, keys, *refusal),
    }
}

/// Asks for the end of a context.
fn ask_for_end<G: Gate>(
    alloc: Global,
    gate: &mut G,
    heard: &Heard<'_>,
    cred: &GssCred<'_>,
    lease: &Lease,
    keys: &LentKeys<'_>,
    asks: &mut Asks,
) -> Said
    requires unasked { asks.old ≡ unasked }
    ensures ruled { IsRuledInContext G.Gate gate.old gate.new asks.new result
        (ask_end (shown G.program heard.entry.now) (cred_value cred.now) lease.now asks.new.ended) }
{
    let answer = gate.end(lease, cred.seq);
    let said = say_ended::<G>(alloc, heard, cred, lease, keys, &answer);
    asks.ended = Some(answer);
    said
}

/// Answers a call that ends a context that was shown.
#[tactic(auto, unfolding(accept_book::specs::RecordRule::destroy_ruling))]
fn say_destroy<G: Gate>(
    alloc: Global,
    gate: &mut G,
    heard: &Heard<'_>,
    cred: &GssCred<'_>,
    lease: &Lease,
    keys: &LentKeys<'_>,
    asks: &mut Asks,
) -> Said
    requires unasked { asks.old ≡ unasked }
    ensures ruled { IsRuledInContext G.Gate gate.old gate.new asks.new result
        (destroy_ruling (shown G.program heard.entry.now)
        (cred_value cred.now) lease.now asks.new.ended) }
{
    match screened(alloc, gate, heard, cred, lease, keys) {
        None => ask_for_end(alloc, gate, heard, cred, lease, keys, asks),
        Some(said) => said,
    }
}

/// Answers a call by what a look answered.
fn say_looked<G: Gate>(
    alloc: Global,
    gate: &mut G,
    heard: &Heard<'_>,
    cred: &GssCred<'_>,
    keys: &KeyCache,
    answer: &Result<Lease, LookRefusal>,
    asks: &mut Asks,
) -> Said
    requires unasked { asks.old ≡ unasked }
    ensures ruled { IsRuledInContext G.Gate gate.old gate.new asks.new result
        (looked_ruling (shown G.program heard.entry.now) (cred_value cred.now) asks.new.admitted
        asks.new.ended answer.now) }
{
    match answer {
        Ok(lease) => {
            if cred.proc == RPCSEC_GSS_DATA {
                let short = foresee_short(heard, cred, lease, keys);
                let lent = lend_short(keys, &short);
                return say_data(alloc, gate, heard, cred, lease, &lent, asks);
            }
            say_destroy(alloc, gate, heard, cred, lease, &keys.lent(), asks)
        }
        Err(LookRefusal::NoContext) => say_no_context::<G>(alloc, heard),
        Err(LookRefusal::NotReady) => say_no_context::<G>(alloc, heard),
        Err(LookRefusal::Expired) => say_denied::<G>(
            alloc,
            heard,
            Rule::Expired,
            RPCSEC_GSS_CTXPROBLEM,
        ),
    }
}

/// Keeps the keys of a context that was shown: those of its MIC tokens, and for a call by privacy those of its sealed bodies.
fn keep_keys(keys: &mut KeyCache, answer: &Result<Lease, LookRefusal>, service: u32) {
    if let Ok(lease) = answer {
        if service == RPC_GSS_SVC_PRIVACY {
            keys.keep_sealing(&end_at(lease));
        } else {
            keys.keep(&end_at(lease));
        }
    }
}

/// Asks for a context, and answers its call. Its keys are kept for this call and the next.
pub(crate) fn ask_for_look<G: Gate>(
    alloc: Global,
    gate: &mut G,
    heard: &Heard<'_>,
    cred: &GssCred<'_>,
    id: u64,
    keys: &mut KeyCache,
    asks: &mut Asks,
) -> Said
    requires unasked { asks.old ≡ unasked }
    ensures ruled { IsRuled G.Gate 2 gate.old gate.new asks.new result
        (ask_look (shown G.program heard.entry.now)
        (cred_value cred.now) id asks.new.admitted asks.new.ended
        asks.new.looked) }
{
    let answer = gate.look(id, heard.now);
    keep_keys(keys, &answer, cred.service);
    let said = say_looked(alloc, gate, heard, cred, keys, &answer, asks);
    asks.looked = Some(answer);
    said
}
